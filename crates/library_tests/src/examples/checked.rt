//! Checks bytes, and lists the names of their image.
use image_check::{Limits, check};
use rom_commands::hello;
use rom_fields::Plain;
use rom_tree::list;
use std::test::Fail;

const LIST: &[u8] = b"\
    32 d 0755 0 0 0 0 0 /\n\
    96 f 0644 0 0 5 0 0 /a\n";

#[test]
fn an_image_is_listed(rt: HostRuntime) -> Result<(), Fail> {
    let bytes = hello();
    let image = check(rt.alloc(), &bytes, Limits::usual())?;
    let mut w = Plain::new(Vec::new(rt.alloc()));
    assert!(rt; list(&image, &mut w) == Ok(()));
    let text: Vec<u8> = w.into_inner();
    assert!(rt; text.as_slice() == LIST);
    Ok(())
}

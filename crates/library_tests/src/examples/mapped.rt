//! Reports the addresses in the flash of the files of an image.
use image_check::{Limits, check};
use image_info::map;
use rom_commands::hello;
use rom_fields::Plain;
use std::test::Fail;

#[test]
fn addresses_are_printed(rt: HostRuntime) -> Result<(), Fail> {
    let bytes = hello();
    let image = check(rt.alloc(), &bytes, Limits::usual())?;
    let mut w = Plain::new(Vec::new(rt.alloc()));
    assert!(rt; map(&image, 0x0800_0000, &mut w) == Ok(()));
    let text: Vec<u8> = w.into_inner();
    assert!(rt; text.as_slice() == b"0x08000080 5 0 /a\n".as_slice());
    Ok(())
}

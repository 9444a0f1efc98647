//! Writes the manifest of an image.
use image_check::{Limits, check};
use image_manifest::{FileRules, members, write_manifest};
use rom_commands::hello;
use rom_fields::Plain;
use std::test::Fail;

#[test]
fn a_manifest_is_written(rt: HostRuntime) -> Result<(), Fail> {
    let bytes = hello();
    let image = check(rt.alloc(), &bytes, Limits::usual())?;
    let names = members(rt.alloc(), &image)?;
    let rules = FileRules {
        directory: b"unpacked",
        align: 4096,
    };
    let mut w = Plain::new(Vec::new(rt.alloc()));
    assert!(rt; write_manifest(&image, &names, b"", rules, &mut w) == Ok(()));
    let text: Vec<u8> = w.into_inner();
    assert!(rt; text.as_slice() == b"dir / 0755 0 0\nfile /a 0644 0 0 4 unpacked/a\n".as_slice());
    Ok(())
}

//! Builds an image in memory, which a check accepts.
use image_build::{Contents, build_romfs};
use image_check::{Limits, check};
use std::test::Fail;

#[test]
fn what_is_built_is_accepted(rt: HostRuntime) -> Result<(), Fail> {
    let mut contents = Contents::new(rt.alloc());
    contents.add(b"hello")?;
    let bytes = build_romfs(rt.alloc(), b"file /a 0644 0 0 4 a.txt\n", &contents)?;
    let image = check(rt.alloc(), &bytes, Limits::usual())?;
    assert!(rt; image.size() == 144);
    Ok(())
}

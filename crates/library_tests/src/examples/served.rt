//! Answers lines from an image.
use image_check::{Limits, check};
use rom_commands::hello;
use rom_serve::{Plain, serve};
use std::test::Fail;

#[test]
fn lines_are_answered(rt: HostRuntime) -> Result<(), Fail> {
    let bytes = hello();
    let image = check(rt.alloc(), &bytes, Limits::usual())?;
    let mut r = Plain::new(b"open /a\nread 0 9\nquit\n".as_slice());
    let mut w = Plain::new(Vec::new(rt.alloc()));
    assert!(rt; serve(image, &mut r, &mut w) == Ok(()));
    let replies: Vec<u8> = w.into_inner();
    assert!(rt; replies.as_slice() == b"ok 0\nok 5 68656c6c6f\nok\n".as_slice());
    Ok(())
}

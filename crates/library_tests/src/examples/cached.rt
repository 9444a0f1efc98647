//! Answers lines from an image whose look-ups are remembered.
use image_check::{Limits, check};
use rom_commands::hello;
use rom_serve::{Cached, Plain, serve};
use std::test::Fail;

#[test]
fn look_ups_are_remembered(rt: HostRuntime) -> Result<(), Fail> {
    let bytes = hello();
    let image = check(rt.alloc(), &bytes, Limits::usual())?;
    let Ok(cached) = Cached::new(rt.alloc(), image, 256) else {
        return Err(Fail::new("memory for 256 names"));
    };
    let mut r = Plain::new(b"lookup /a\nlookup /a\n".as_slice());
    let mut w = Plain::new(Vec::new(rt.alloc()));
    assert!(rt; serve(cached, &mut r, &mut w) == Ok(()));
    let replies: Vec<u8> = w.into_inner();
    assert!(rt; replies.as_slice() == b"ok 96\nok 96\n".as_slice());
    Ok(())
}

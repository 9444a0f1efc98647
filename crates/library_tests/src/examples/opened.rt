//! Opens a file, and lends its bytes.
use image_check::{Limits, check};
use open_files::{Fd, Files};
use rom_commands::hello;
use std::test::Fail;

#[test]
fn bytes_are_lent(rt: HostRuntime) -> Result<(), Fail> {
    let bytes = hello();
    let image = check(rt.alloc(), &bytes, Limits::usual())?;
    let mut files: Files<_, 64> = Files::new(image);
    assert!(rt; files.open(b"/a") == Ok(Fd(0)));
    let piece = files.lend(Fd(0), 5)?;
    assert!(rt; piece.place == 128);
    assert!(rt; piece.bytes == b"hello".as_slice());
    assert!(rt; files.close(Fd(0)) == Ok(()));
    Ok(())
}

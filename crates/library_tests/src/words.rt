//! Words and their sums, extents, and windows of a buffer.
use crc::{crc32, crc32_more};
use rom_fields::{Canvas, Extent, Extents, be32, le32, part, put_be32, put_le32, word_sum};
use std::test::Fail;

#[test]
fn words_that_are_read(rt: HostRuntime) -> Result<(), Fail> {
    let bytes = [0, 0, 1, 0];
    assert!(rt; be32(&bytes, 0) == Some(256));
    assert!(rt; le32(&bytes, 0) == Some(65536));
    assert!(rt; le32(&bytes, 1).is_none());
    assert!(rt; be32(&bytes, usize::MAX).is_none());
    Ok(())
}

#[test]
fn words_that_are_put(rt: HostRuntime) -> Result<(), Fail> {
    let mut five: [u8; 5] = [9, 9, 9, 9, 9];
    assert!(rt; !put_be32(&mut five, 2, 7));
    assert!(rt; five == [9, 9, 9, 9, 9]);
    assert!(rt; put_be32(&mut five, 1, 0x0102_0304));
    assert!(rt; five == [9, 1, 2, 3, 4]);
    assert!(rt; put_le32(&mut five, 0, 0x0506_0708));
    assert!(rt; five == [8, 7, 6, 5, 4]);
    Ok(())
}

#[test]
fn sums(rt: HostRuntime) -> Result<(), Fail> {
    // a rest of fewer than four bytes is not counted
    assert!(rt; word_sum(&[0, 0, 0, 2, 0xff]) == 2);
    // the check value of CRC-32
    assert!(rt; crc32(b"123456789") == 0xcbf4_3926);
    assert!(rt; crc32_more(crc32(b"12345"), b"6789") == 0xcbf4_3926);
    Ok(())
}

#[test]
fn extents_that_overlap(rt: HostRuntime) -> Result<(), Fail> {
    let mut extents = Extents::new(rt.alloc());
    extents.add(Extent::Data, 0, 4)?;
    extents.add(Extent::Data, 0, 4)?;
    extents.add(Extent::Data, 4, 4)?;
    assert!(rt; extents.first_overlap().is_none());
    extents.add(Extent::Record, 2, 4)?;
    assert!(rt; extents.first_overlap() == Some(2));
    Ok(())
}

#[test]
fn parts(rt: HostRuntime) -> Result<(), Fail> {
    assert!(rt; part(b"hello", 1, 3) == Some(b"ell".as_slice()));
    assert!(rt; part(b"hello", 5, 0).is_some());
    assert!(rt; part(b"hello", 3, 3).is_none());
    Ok(())
}

#[test]
fn windows_of_a_buffer(rt: HostRuntime) -> Result<(), Fail> {
    let mut buffer = [9; 8];
    let mut canvas = Canvas::new(&mut buffer);
    if let Some(window) = canvas.take(2, 3) {
        window.fill(1);
    }
    assert!(rt; canvas.take(4, 1).is_none());
    assert!(rt; canvas.take(5, 4).is_none());
    if let Some(window) = canvas.take(6, 2) {
        window[1] = 2;
    }
    assert!(rt; buffer == [9, 9, 1, 1, 1, 9, 9, 2]);
    Ok(())
}

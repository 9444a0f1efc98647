//! Open files of one image, each call once, and lent bytes that outlive them.
use crate::checked::sound;
use crate::images::{HELLO, LINK_AND_DEVICE};
use image_check::AnyImage;
use open_files::{CallError, Entry, Fd, Files, NodeId, Piece};
use std::alloc::Global;
use std::test::Fail;

/// A piece's offset and bytes.
fn lent<'a>(piece: Result<Piece<'a>, CallError>) -> Option<(u32, &'a [u8])> {
    match piece {
        Ok(piece) => Some((piece.place, piece.bytes)),
        Err(_) => None,
    }
}

/// The number of an entry's node.
fn listed<'a>(entry: Result<Option<Entry<'a>>, CallError>) -> Option<u32> {
    match entry {
        Ok(Some(entry)) => Some(entry.node.0),
        _ => None,
    }
}

/// The open files of an image, with this file or directory open.
fn with_open(
    alloc: Global,
    bytes: &'static [u8],
    path: &[u8],
) -> Result<Files<'static, AnyImage<'static>, 2>, Fail> {
    let mut files = Files::new(sound(alloc, bytes)?);
    match files.open(path) {
        Ok(_) => Ok(files),
        Err(_) => Err(Fail::new("is opened")),
    }
}

/// Whether the file is found by its path and by its descriptor.
fn is_found(alloc: Global) -> Result<bool, Fail> {
    let mut files = with_open(alloc, HELLO, b"/a")?;
    Ok(files.lookup(b"/a") == Ok(NodeId(96)) && files.stat(b"/a") == files.fstat(Fd(0)))
}

/// Whether two bytes of the file are lent, then the others are read, and a part is mapped.
fn is_read(alloc: Global) -> Result<bool, Fail> {
    let mut files = with_open(alloc, HELLO, b"/a")?;
    let mut room = *b".........";
    Ok(
        lent(files.lend(Fd(0), 2)) == Some((128, b"he".as_slice()))
            && files.read(Fd(0), &mut room) == Ok(3)
            && room == *b"llo......"
            && lent(files.map(Fd(0), 1, 3)) == Some((129, b"ell".as_slice())),
    )
}

/// Whether this number of bytes is read from a position on.
fn is_read_at(alloc: Global, at: u64, count: usize) -> Result<bool, Fail> {
    let mut files = with_open(alloc, HELLO, b"/a")?;
    let mut room = *b".........";
    Ok(files.seek(Fd(0), at) == Ok(()) && files.read(Fd(0), &mut room) == Ok(count))
}

/// Whether the root's entries are listed, and after `rewind` the first one again.
fn is_listed(alloc: Global) -> Result<bool, Fail> {
    let mut files = with_open(alloc, LINK_AND_DEVICE, b"/")?;
    Ok(
        listed(files.readdir(Fd(0))) == Some(96)
            && listed(files.readdir(Fd(0))) == Some(240)
            && files.rewind(Fd(0)) == Ok(())
            && listed(files.readdir(Fd(0))) == Some(96),
    )
}

/// Whether the link's text is read, and the link leads nowhere.
fn is_link(alloc: Global) -> Result<bool, Fail> {
    let mut files = with_open(alloc, LINK_AND_DEVICE, b"/")?;
    Ok(
        lent(files.readlink(b"/d/l")) == Some((224, b"/x".as_slice()))
            && files.lookup(b"/d/l") == Err(CallError::Enoent)
            && files.lstat(b"/d/l").is_ok(),
    )
}

#[test]
fn each_call_once(rt: HostRuntime) -> Result<(), Fail> {
    assert!(rt; is_found(rt.alloc())?);
    assert!(rt; is_read(rt.alloc())?);
    assert!(rt; is_read_at(rt.alloc(), 4, 1)?);
    assert!(rt; is_listed(rt.alloc())?);
    assert!(rt; is_link(rt.alloc())?);
    Ok(())
}

/// The first bytes of a file. They are lent, and then the file and all others are closed.
fn kept<'a>(alloc: Global, bytes: &'a [u8]) -> Option<Piece<'a>> {
    let Ok(image) = sound(alloc, bytes) else {
        return None;
    };
    let mut files: Files<_, 1> = Files::new(image);
    let Ok(fd) = files.open(b"/a") else {
        return None;
    };
    let Ok(piece) = files.lend(fd, 9) else {
        return None;
    };
    match files.close(fd) {
        Ok(()) => Some(piece),
        Err(_) => None,
    }
}

#[test]
fn a_piece_outlives_its_files(rt: HostRuntime) {
    let piece = kept(rt.alloc(), HELLO);
    assert!(rt; piece.map(|piece| piece.bytes) == Some(b"hello".as_slice()));
}

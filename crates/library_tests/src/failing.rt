//! Readers and writers that fail in the middle, of servers and of what the program prints.
use crate::checked::sound;
use crate::images::HELLO;
use rom_commands::{Asked, Ending, hello, show};
use rom_fields::{Faulty, Plain, put};
use rom_serve::{ServeError, serve, serve_bounded, serve_space};
use std::alloc::Global;

/// Two lines of nine and eleven bytes.
const LINES: &[u8] = b"lookup /\nlookup /..\n";

/// Two lines of one session, of eleven bytes each.
const SESSION_LINES: &[u8] = b"0 lookup /\n0 lookup /\n";

/// How serving ended, what was written, and how many bytes were left unread.
type Ended = (Result<(), ServeError>, Vec<u8>, usize);

/// Reads the lines from a reader that fails after this number of calls. Unread bytes are not
/// counted.
fn read_up_to(alloc: Global, calls: u64) -> Option<Ended> {
    let image = sound(alloc, HELLO).ok()?;
    let mut r = Faulty::new(Plain::new(LINES), calls, 1);
    let mut w = Plain::new(Vec::new(alloc));
    let ended = serve(image, &mut r, &mut w);
    Some((ended, w.into_inner(), 0))
}

/// Answers the lines to a writer that accepts `most` bytes at a time, and fails after this number
/// of calls.
fn written_up_to(alloc: Global, calls: u64, most: usize) -> Option<Ended> {
    let image = sound(alloc, HELLO).ok()?;
    let mut r = Plain::new(LINES);
    let mut w = Faulty::new(Plain::new(Vec::new(alloc)), calls, most);
    let ended = serve(image, &mut r, &mut w);
    Some((ended, w.into_inner().into_inner(), r.into_inner().len()))
}

/// The same with the lines of a session.
fn session_up_to(alloc: Global, calls: u64) -> Option<Ended> {
    let mut images = Vec::new(alloc);
    images.push(sound(alloc, HELLO).ok()?).ok()?;
    let mut r = Plain::new(SESSION_LINES);
    let mut w = Faulty::new(Plain::new(Vec::new(alloc)), calls, 100);
    let ended = serve_space(images, &mut r, &mut w);
    Some((ended, w.into_inner().into_inner(), r.into_inner().len()))
}

/// Whether serving ended in this way.
fn is_ended(
    found: Option<Ended>,
    ending: Result<(), ServeError>,
    text: &[u8],
    left: usize,
) -> bool {
    found.is_some_and(|it| it.0 == ending && it.1.as_slice() == text && it.2 == left)
}

#[test]
fn readers_that_fail(rt: HostRuntime) {
    let fault = Err(ServeError::ReadFault);
    assert!(rt; is_ended(read_up_to(rt.alloc(), 8), fault, b"", 0));
    assert!(rt; is_ended(read_up_to(rt.alloc(), 9), fault, b"ok 32\n", 0));
}

#[test]
fn writers_that_fail(rt: HostRuntime) {
    let fault = Err(ServeError::WriteFault);
    for (calls, most, ending, text, left) in [
        (u64::MAX, 1, Ok(()), b"ok 32\nok 32\n".as_slice(), 0),
        (1, 3, fault, b"ok ", 11),
        (1, 100, fault, b"ok 32\n", 11),
        (9, 0, fault, b"", 11),
    ] {
        assert!(rt; is_ended(written_up_to(rt.alloc(), calls, most), ending, text, left));
    }
}

#[test]
fn a_writer_of_a_session_that_fails(rt: HostRuntime) {
    let found = session_up_to(rt.alloc(), 1);
    assert!(rt; is_ended(found, Err(ServeError::WriteFault), b"0 ok 0:32\n", 11));
}

/// How serving of some bytes ends if each byte is a read, and at most this number of reads is made.
fn bounded(alloc: Global, bytes: &[u8], reads: u64) -> Option<Ended> {
    let image = sound(alloc, HELLO).ok()?;
    let mut r = Plain::new(bytes);
    let mut w = Plain::new(Vec::new(alloc));
    let ended = serve_bounded(image, &mut r, &mut w, reads);
    Some((ended, w.into_inner(), r.into_inner().len()))
}

#[test]
fn reads_are_bounded(rt: HostRuntime) {
    let too_many = Err(ServeError::TooManyReads);
    assert!(rt; is_ended(bounded(rt.alloc(), LINES, 9), too_many, b"ok 32\n", 11));
    assert!(rt; is_ended(bounded(rt.alloc(), LINES, 21), Ok(()), b"ok 32\nok 32\n", 0));
}

#[test]
fn reads_of_one_line(rt: HostRuntime) {
    let (line, too_many) = (b"lookup /\n", Err(ServeError::TooManyReads));
    assert!(rt; is_ended(bounded(rt.alloc(), line, 9), too_many, b"ok 32\n", 0));
    // the tenth read finds the end
    assert!(rt; is_ended(bounded(rt.alloc(), line, 10), Ok(()), b"ok 32\n", 0));
}

#[test]
fn reads_of_a_line_without_an_end(rt: HostRuntime) {
    let too_many = Err(ServeError::TooManyReads);
    assert!(rt;
        is_ended(
            bounded(rt.alloc(), &[b'x'; 10_001], 10_000),
            too_many,
            b"",
            1
        )
    );
}

#[test]
fn a_failed_writer_holds_a_front(rt: HostRuntime) {
    let mut w = Faulty::new(Plain::new(Vec::new(rt.alloc())), 3, 2);
    let mut failed = false;
    put(&mut w, &mut failed, b"abcdefgh");
    put(&mut w, &mut failed, b"more");
    assert!(rt; failed);
    let held: Vec<u8> = w.into_inner().into_inner();
    assert!(rt; held.as_slice() == b"abcdef".as_slice());
}

const LISTED: &[u8] = b"32 d 0755 0 0 0 0 0 /\n96 f 0644 0 0 5 0 0 /a\n";

/// Whether an image is listed in this ending to a writer that accepts this number of calls, each
/// with one byte, and the writer then holds this text.
fn is_listed(alloc: Global, calls: u64, end: Ending<'_>, text: &[u8]) -> bool {
    let mut w = Faulty::new(Plain::new(Vec::new(alloc)), calls, 1);
    let ending = show(alloc, &hello(), Asked::List, &mut w);
    let held: Vec<u8> = w.into_inner().into_inner();
    ending == end && held.as_slice() == text
}

#[test]
fn a_failed_write_ends_a_list(rt: HostRuntime) {
    assert!(rt; is_listed(rt.alloc(), u64::MAX, Ending::Done, LISTED));
    for calls in 0..LISTED.len() {
        let front = &LISTED[..calls];
        assert!(rt; is_listed(rt.alloc(), calls as u64, Ending::WriteFault, front));
    }
}

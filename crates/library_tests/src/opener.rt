//! Files that are opened by their names, over an opener that is interrupted and reads little.
use file_sources::{FileSources, Opener, in_memory};
use image_stream::Sources;
use std::io::{self, ErrorKind};
use std::test::Fail;

/// A file of five equal bytes, which is another one each time that it is opened. A signal
/// interrupts each second call, and a read returns two bytes at most.
#[derive(Drop)]
struct Troubled {
    calls: u64,
    opened: u8,
}

impl Opener for Troubled {
    ghost use Rattle.std.specs.Prelude.{None, [], ⊤};

    type Name = u8;

    type State = bool;

    type File = u8;

    ghost spelled = { λ _. [] };

    ghost name_of = { λ _. [] };

    ghost contents = { λ _. None };

    ghost IsLog = { λ _ _. ⊤ };

    fn open(&mut self, name: &u8, is_there: &bool) -> io::Result<u8> {
        if !*is_there {
            return Err(io::Error::from(ErrorKind::NotFound));
        }
        self.opened = self.opened.saturating_add(1);
        Ok(name.saturating_add(self.opened))
    }

    fn read_at(&mut self, file: &u8, at: u64, buf: &mut [u8]) -> io::Result<usize> {
        self.calls = self.calls.saturating_add(1);
        if self.calls % 2 == 1 {
            return Err(io::Error::from(ErrorKind::Interrupted));
        }
        let n = if at < 5 { buf.len().min(2) } else { 0 };
        buf[..n].fill(*file);
        Ok(n)
    }

    fn end(&mut self) {}
}

/// How many bytes are read of a file at an offset, and a buffer of three bytes then.
fn read<S: Sources>(sources: &mut S, file: usize, at: u64) -> (Option<usize>, [u8; 3]) {
    let mut buf = [0u8; 3];
    if file >= sources.count() {
        return (None, buf);
    }
    let count = sources.read_at(file, at, &mut buf).ok();
    (count, buf)
}

#[test]
fn parts_of_files_in_memory(rt: HostRuntime) {
    let contents = [b"hello".as_slice(), b"abc".as_slice()];
    let states = [(), ()];
    let mut sources = in_memory(&contents, &states);
    for (file, at, count, bytes) in [
        (0, 3, 2, b"lo\0"),
        (1, 1, 2, b"bc\0"),
        (1, 3, 0, b"\0\0\0"),
        (0, 9, 0, b"\0\0\0"),
    ] {
        assert!(rt; read(&mut sources, file, at) == (Some(count), *bytes));
    }
}

#[test]
fn one_file_is_open_at_a_time(rt: HostRuntime) -> Result<(), Fail> {
    let names = [b'a', b'k', b'x'];
    let states = [true, true, false];
    let opener = Troubled {
        calls: 0,
        opened: 0,
    };
    let mut sources = FileSources::new(opener, &names, &states);
    for (file, at, count, bytes) in [
        (0, 0, Some(2), b"bb\0"),
        (0, 2, Some(2), b"bb\0"),
        (1, 0, Some(2), b"mm\0"),
        (0, 5, Some(0), b"\0\0\0"),
        (0, 4, Some(2), b"dd\0"),
        (2, 0, None, b"\0\0\0"),
    ] {
        assert!(rt; read(&mut sources, file, at) == (count, *bytes));
    }
    let (opener, reason) = sources.into_parts();
    assert!(rt; opener.opened == 3);
    let is_missing = match reason {
        Some(e) => e.kind() == ErrorKind::NotFound,
        None => false,
    };
    assert!(rt; is_missing);
    Ok(())
}

//! The layers in front of a program's streams, over a stream that is interrupted and fails.
use program_streams::{Again, Ahead, Held, Remembering, read_until};
use rom_fields::{ByteWrite, Plain};
use std::io::{self, BufRead, ErrorKind, Read, Write};

/// A stream that accepts or returns two bytes with each call. A signal interrupts its first call,
/// and its third call fails.
#[derive(Drop)]
struct Troubled<X> {
    inner: X,
    calls: u64,
}

impl<X> Troubled<X> {
    fn new(inner: X) -> Troubled<X> {
        Troubled { inner, calls: 0 }
    }

    fn call(&mut self) -> io::Result<()> {
        self.calls = self.calls.saturating_add(1);
        match self.calls {
            1 => Err(io::Error::from(ErrorKind::Interrupted)),
            3 => Err(io::Error::from(ErrorKind::BrokenPipe)),
            _ => Ok(()),
        }
    }
}

impl<X: Write> Write for Troubled<X> {
    fn write(&mut self, b: &[u8]) -> io::Result<usize> {
        self.call()?;
        self.inner.write(&b[..b.len().min(2)])
    }

    fn flush(&mut self) -> io::Result<()> {
        self.call()?;
        self.inner.flush()
    }
}

impl<X: Read> Read for Troubled<X> {
    fn read(&mut self, buf: &mut [u8]) -> io::Result<usize> {
        self.call()?;
        let most = buf.len().min(2);
        let n = self.inner.read(&mut buf[..most])?;
        Ok(n)
    }
}

impl BufRead for Troubled<&[u8]> {
    fn fill_buf(&mut self) -> io::Result<&[u8]> {
        self.call()?;
        Ok(self.inner)
    }

    fn consume(&mut self, amount: usize) {
        self.inner.consume(amount);
    }
}

fn is_broken<T: Drop>(r: io::Result<T>) -> bool {
    match r {
        Ok(_) => false,
        Err(e) => e.kind() == ErrorKind::BrokenPipe,
    }
}

#[test]
fn line_is_whole_after_a_failure(rt: HostRuntime) {
    let mut held = Held::new(rt.alloc(), Troubled::new(Vec::new(rt.alloc())));
    assert!(rt; held.write(b"abcde").ok() == Some(5));
    assert!(rt; is_broken(held.flush()));
    assert!(rt; held.flush().is_ok());
    let (writer, rest) = held.into_parts();
    assert!(rt; writer.inner.as_slice() == b"abcde".as_slice());
    assert!(rt; rest.len() == 0);
}

#[test]
fn first_error_is_remembered(rt: HostRuntime) {
    let mut out = Remembering::new(Again::new(Troubled::new(Vec::new(rt.alloc()))));
    assert!(rt; out.write(b"abc").ok() == Some(2));
    assert!(rt; is_broken(out.write(b"c")));
    assert!(rt; out.write(b"c").ok() == Some(1));
    let is_first = match out.error() {
        Some(e) => e.kind() == ErrorKind::BrokenPipe,
        None => false,
    };
    assert!(rt; is_first);
}

#[test]
fn ahead_reads_up_to_the_end(rt: HostRuntime) {
    let mut ahead = Ahead::new(Troubled::new(b"hello".as_slice()));
    let mut buf = [0u8; 4];
    assert!(rt; ahead.read(&mut buf).ok() == Some(4));
    assert!(rt; buf == *b"hell");
    assert!(rt; is_broken(ahead.read(&mut buf)));
    assert!(rt; ahead.read(&mut buf).ok() == Some(1));
    assert!(rt; buf == *b"oell");
}

#[test]
fn reads_on_after_a_failure(rt: HostRuntime) {
    let mut reader = Troubled::new(b"abcdef".as_slice());
    let mut bytes = Vec::new(rt.alloc());
    assert!(rt; is_broken(read_until(&mut reader, &mut bytes, 5, 9)));
    assert!(rt; bytes.as_slice() == b"ab".as_slice());
    assert!(rt; read_until(&mut reader, &mut bytes, 5, 0).is_ok());
    assert!(rt; bytes.as_slice() == b"abcde".as_slice());
}

#[test]
fn a_failed_flush_is_counted(rt: HostRuntime) {
    let mut w = Plain::new(Troubled::new(Vec::new(rt.alloc())));
    assert!(rt; w.flush().is_err());
    assert!(rt; w.failures() == 1);
}

//! The streams that commands print to.
ghost use Rattle.std.specs.Prelude.{◌≡◌, IfOk};

use crate::stop::Stop;
use program_streams::{Again, Held};
use rom_fields::{ByteWrite, Plain};
use std::env::{Env, FillError};
use std::io::{self, BufWriter, IsTerminal, Printer, Stderr, Write};

/// The hexadecimal digits.
const HEX: &[u8; 16] = b"0123456789ABCDEF";

/// Standard output, through a buffer.
pub type Output<'a> = Plain<BufWriter<Again<Printer<'a, HostRuntime>>>>;

/// The environment variable that asks for no colours, if it is not empty (no-color.org).
const NO_COLOR: &str = "NO_COLOR";

/// What a terminal takes for the colours of a line, and for their end.
const GREEN: &[u8] = b"\x1b[32m";

const RED: &[u8] = b"\x1b[31m";

const END: &[u8] = b"\x1b[0m";

/// Standard output, by one write for each line.
pub type Lines<'a> = Plain<Held<Coloured<Printer<'a, HostRuntime>>>>;

/// Standard error, by one write for each line.
pub type Errors = Plain<Held<Stderr>>;

/// Returns standard output through a buffer.
///
/// # Errors
///
/// `Memory`.
pub fn output<'a>(rt: &'a HostRuntime) -> Result<Output<'a>, Stop>
    ensures { IfOk result (λ out. (⟦<Output<'a> as ByteWrite>⟧.output out).failures ≡ 0) }
{
    match BufWriter::new(rt.alloc(), Again::new(io::writer(rt))) {
        Ok(out) => Ok(Plain::new(out)),
        Err(_) => Err(Stop::Memory),
    }
}

/// A terminal: bytes that it may take for commands are shown as `%` and two hexadecimal digits, as
/// in a list.
#[derive(Drop)]
pub struct Shown<W> {
    inner: W,
}

impl<W: Write> Write for Shown<W> {
    fn write(&mut self, b: &[u8]) -> io::Result<usize> {
        for byte in b {
            match *byte {
                b'\n' | b' '..=b'~' => self.inner.write_all(&[*byte])?,
                _ => {
                    let digit = |at: u8| HEX.get(usize::from(at)).copied().unwrap_or(b'0');
                    self.inner
                        .write_all(&[b'%', digit(*byte / 16), digit(*byte % 16)])?;
                }
            }
        }
        Ok(b.len())
    }

    fn flush(&mut self) -> io::Result<()> {
        self.inner.flush()
    }
}

/// Standard output that is a terminal, through a buffer.
pub type Terminal<'a> = Plain<Shown<BufWriter<Again<Printer<'a, HostRuntime>>>>>;

/// Returns standard output that is a terminal.
///
/// # Errors
///
/// `Memory`.
pub fn terminal<'a>(rt: &'a HostRuntime) -> Result<Terminal<'a>, Stop> {
    match BufWriter::new(rt.alloc(), Again::new(io::writer(rt))) {
        Ok(inner) => Ok(Plain::new(Shown { inner })),
        Err(_) => Err(Stop::Memory),
    }
}

/// A terminal that shows the line `ok` in green, and the line `fault` in red; or another stream.
#[derive(Drop)]
pub struct Coloured<W> {
    inner: W,
    has_colours: bool,
    is_front: bool,
    is_coloured: bool,
}

impl<W: Write> Coloured<W> {
    /// Writes a byte of a line.
    fn put(&mut self, byte: u8) -> io::Result<()> {
        let colour = match byte {
            b'o' if self.is_front => GREEN,
            b'f' if self.is_front => RED,
            b'\n' if self.is_coloured => END,
            _ => &[],
        };
        self.inner.write_all(colour)?;
        self.is_front = byte == b'\n';
        self.is_coloured = !self.is_front && (self.is_coloured || !colour.is_empty());
        self.inner.write_all(&[byte])
    }
}

impl<W: Write> Write for Coloured<W> {
    fn write(&mut self, b: &[u8]) -> io::Result<usize> {
        if !self.has_colours {
            return self.inner.write(b);
        }
        for byte in b {
            self.put(*byte)?;
        }
        Ok(b.len())
    }

    fn flush(&mut self) -> io::Result<()> {
        self.inner.flush()
    }
}

/// Returns whether lines have colours: standard output is a terminal, and the environment does not
/// ask for none.
pub fn has_colours(rt: &HostRuntime) -> bool {
    let is_off = match rt.var(NO_COLOR, &mut [0; 1]) {
        Ok(len) => len > 0,
        Err(FillError::TooLong) => true,
        Err(FillError::NotPresent) => false,
    };
    !is_off && rt.stdout().is_terminal()
}

/// Standard output for single lines, with or without colours.
fn single_lines<'a>(rt: &'a HostRuntime, has_colours: bool) -> Lines<'a>
    ensures { (⟦<Lines<'a> as ByteWrite>⟧.output result).failures ≡ 0 }
{
    let lines = Coloured {
        inner: io::writer(rt),
        has_colours,
        is_front: true,
        is_coloured: false,
    };
    Plain::new(Held::new(rt.alloc(), lines))
}

/// Returns standard output for single lines.
pub fn lines<'a>(rt: &'a HostRuntime) -> Lines<'a>
    ensures { (⟦<Lines<'a> as ByteWrite>⟧.output result).failures ≡ 0 }
{
    single_lines(rt, false)
}

/// Returns standard output for the lines `ok` and `fault`, which a terminal shows in colours.
pub fn coloured_lines<'a>(rt: &'a HostRuntime) -> Lines<'a>
    ensures { (⟦<Lines<'a> as ByteWrite>⟧.output result).failures ≡ 0 }
{
    single_lines(rt, has_colours(rt))
}

/// Returns standard error.
pub fn errors(rt: &HostRuntime) -> Errors {
    Plain::new(Held::new(rt.alloc(), rt.stderr()))
}

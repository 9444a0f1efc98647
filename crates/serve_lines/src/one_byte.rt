//! The reading of one byte.
ghost use Rattle.std.specs.Prelude.{◌≡◌, [], ◌∷◌};
ghost use Rattle.serve_lines.specs.Got.{Gets};

use rom_fields::{ByteRead, Failed};

/// The result of one read of one byte.
#[derive(Clone, Copy, PartialEq, Eq)]
pub enum Got {
    /// The next byte.
    Byte(u8),
    /// The input has ended.
    End,
    /// The read failed.
    Fault,
}

/// Reads the next byte, by one read.
pub fn read_byte<R: ByteRead>(r: &mut R) -> Got
    ensures { Gets (R.remaining r.old) (R.remaining r.new) (R.failures r.old) (R.failures r.new)
        result }
{
    let mut buf = [0u8];
    match r.read(&mut buf) {
        Ok(0) => Got::End,
        Ok(_) => Got::Byte(buf[0]),
        Err(Failed) => Got::Fault,
    }
}

//! The bytes after an image in its file.
ghost use Rattle.std.specs.Prelude.{◌≡◌, ℕ, OnOk, OnErr};
ghost use Rattle.std.specs.Io.KnownBytes.{Appends};
ghost use Rattle.rom_fields.specs.Failures.{Rose};
ghost use Rattle.image_build.specs.Paddings.{IsPaddedBy, padding_bytes};

use rom_fields::{ByteWrite, Failed, write_whole};

/// The number of bytes that are written at once.
const BLOCK: usize = 4096;

/// The bytes that follow an image in its file, so that the file fills a partition: `len` bytes of
/// one value.
#[derive(Clone, Copy, Debug, PartialEq, Eq)]
pub struct Padding {
    pub len: u64,
    pub byte: u8,
}

/// Writes this number of bytes of one value.
fn write_repeated<W: ByteWrite>(w: &mut W, padding: Padding) -> Result<(), Failed>
    ensures ok { OnOk result (Appends (W.output w.old).contents (W.output w.new).contents
        (padding_bytes padding)) }
    ensures err { OnErr result (Rose (W.output w.old).failures (W.output w.new).failures) }
    ensures quiet { OnOk result ((W.output w.new).failures ≡ (W.output w.old).failures) }
{
    let block = [padding.byte; BLOCK];
    let mut left = padding.len;
    while left > 0 {
        let count = left.min(BLOCK as u64);
        write_whole(w, &block[..count as usize])?;
        left -= count;
    }
    Ok(())
}

/// Writes the bytes after an image, and flushes them. Without such bytes it does nothing.
///
/// # Errors
///
/// `Failed` if a write or the flush failed.
pub(crate) fn write_padding<W: ByteWrite>(w: &mut W, padding: Padding) -> Result<(), Failed>
    ensures ok { OnOk result (IsPaddedBy padding (W.output w.old).contents
        (W.output w.new).contents) }
    ensures err { OnErr result (Rose (W.output w.old).failures (W.output w.new).failures) }
{
    if padding.len == 0 {
        return Ok(());
    }
    write_repeated(w, padding)?;
    w.flush()
}

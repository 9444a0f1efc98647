//! The writing of whole texts, and a sink that stays failed.
ghost use Rattle.std.specs.Prelude.{◌≡◌, length};
ghost use Rattle.rom_fields.specs.Failures.{Counts};
ghost use Rattle.rom_fields.specs.Written.{WritesText, Puts, sink};

use crate::bytes::{ByteWrite, Failed};

/// Writes all of the bytes. A write that accepts none of them is a failure. After an error, a
/// prefix of them was written.
pub fn write_whole<W: ByteWrite>(w: &mut W, b: &[u8]) -> Result<(), Failed>
    ensures text { WritesText (W.output w.old).contents (W.output w.new).contents result b.now }
    ensures count { Counts (W.output w.old).failures (W.output w.new).failures result }
    ensures unflushed { (W.output w.new).flushes ≡ (W.output w.old).flushes }
{
    let mut at = 0;
    while at < b.len() {
        match w.write(&b[at..]) {
            Ok(0) => return Err(Failed),
            Ok(n) => at += n,
            Err(_) => return Err(Failed),
        }
    }
    Ok(())
}

/// Writes all of the bytes if nothing failed yet, and sets `failed` if a write fails. So texts can
/// be put one after the other without a test between them.
pub fn put<W: ByteWrite>(w: &mut W, failed: &mut bool, b: &[u8])
    ensures { Puts (sink (W.output w.old) failed.old) (sink (W.output w.new) failed.new) b.now }
{
    if *failed {
        return;
    }
    match write_whole(w, b) {
        Ok(()) => {}
        Err(_) => {
            *failed = true;
        }
    }
}

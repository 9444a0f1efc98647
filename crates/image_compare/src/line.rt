//! The line of one file.
ghost use Rattle.std.specs.Prelude.{◌≡◌, ℕ, List};
ghost use Rattle.hex.specs.Hex.{encode_lower};
ghost use Rattle.sha2.specs.Sha256.{sha256};
ghost use Rattle.rom_fields.specs.Failures.{Counts};
ghost use Rattle.rom_fields.specs.Written.{WritesText, Puts, sink};
ghost use Rattle.image_compare.specs.Digests.{input_line, sum_line};

use crate::name::{put_beside, put_bytes, put_mark};
use hex::encode_to_slice;
use rom_fields::{ByteWrite, Failed, put};
use sha2::{Digest, Sha256};

/// The hexadecimal digits of a digest.
fn digits_of(digest: &[u8; 32]) -> [u8; 64]
    ensures { result ≡ encode_lower digest.now }
{
    let mut digits = [0; 64];
    let _ = encode_to_slice(digest.as_slice(), &mut digits);
    digits
}

/// Puts the line of a file with this digest and this name.
pub(crate) fn put_sum<W: ByteWrite>(w: &mut W, failed: &mut bool, digest: &[u8; 32], name: &[u8])
    ensures { (bytes : List ℕ) → digest.now ≡ sha256 bytes
        → Puts (sink (W.output w.old) failed.old)
        (sink (W.output w.new) failed.new) (sum_line bytes name.now) }
{
    put_mark(w, failed, name);
    put(w, failed, &digits_of(digest));
    put(w, failed, b"  ");
    put_beside(w, failed, name);
    put_bytes(w, failed, name);
    put(w, failed, b"\n");
}

/// Writes the digest of an image: the SHA-256 of its bytes in 64 hexadecimal digits, two spaces, a
/// minus sign and a line feed. This is the line that `sha256sum` has if the bytes are its standard
/// input.
///
/// # Errors
///
/// `Failed` if a write failed. Then a prefix of the line was written.
pub fn write_image_digest<W: ByteWrite>(image: &[u8], w: &mut W) -> Result<(), Failed>
    ensures text { WritesText (W.output w.old).contents (W.output w.new).contents result
        (input_line image.now) }
    ensures count { Counts (W.output w.old).failures (W.output w.new).failures result }
{
    let mut failed = false;
    put(w, &mut failed, &digits_of(&Sha256::digest(image)));
    put(w, &mut failed, b"  -\n");
    if failed { Err(Failed) } else { Ok(()) }
}

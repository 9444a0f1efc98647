//! The writing of a description.
ghost use Rattle.rom_fields.specs.Failures.{Counts};
ghost use Rattle.rom_fields.specs.Written.{Puts, WritesText, sink};
ghost use Rattle.image_info.specs.Description.{array_text, description, word, word_text};
ghost use Rattle.image_info.specs.Description.{words_by};

use crate::number_words::{put_word, put_word_text};
use crate::numbers::Numbers;
use rom_fields::{ByteWrite, Failed, put};

/// Puts the words of a description.
fn put_words<W: ByteWrite>(w: &mut W, failed: &mut bool, numbers: Numbers)
    ensures { Puts (sink (W.output w.old) failed.old) (sink (W.output w.new) failed.new)
        (words_by word numbers) }
{
    put_word(w, failed, 1);
    put_word(w, failed, numbers.format);
    put_word(w, failed, numbers.size);
    put_word(w, failed, 0);
    put_word(w, failed, numbers.size);
    put_word(w, failed, numbers.root);
    put_word(w, failed, numbers.references);
    put_word(w, failed, numbers.depth);
    put_word(w, failed, 0);
    put_word(w, failed, 0);
}

/// Puts the words of a description as elements of an array of C.
fn put_word_texts<W: ByteWrite>(w: &mut W, failed: &mut bool, numbers: Numbers)
    ensures { Puts (sink (W.output w.old) failed.old) (sink (W.output w.new) failed.new)
        (words_by word_text numbers) }
{
    put_word_text(w, failed, 1);
    put_word_text(w, failed, numbers.format);
    put_word_text(w, failed, numbers.size);
    put_word_text(w, failed, 0);
    put_word_text(w, failed, numbers.size);
    put_word_text(w, failed, numbers.root);
    put_word_text(w, failed, numbers.references);
    put_word_text(w, failed, numbers.depth);
    put_word_text(w, failed, 0);
    put_word_text(w, failed, 0);
}

/// Writes the description of an image with these numbers: 48 bytes.
///
/// # Errors
///
/// `Failed` if a write failed. Then a prefix was written.
pub fn write_numbers<W: ByteWrite>(numbers: Numbers, w: &mut W) -> Result<(), Failed>
    ensures text { WritesText (W.output w.old).contents (W.output w.new).contents result
        (description numbers) }
    ensures count { Counts (W.output w.old).failures (W.output w.new).failures result }
{
    let mut failed = false;
    put(w, &mut failed, b"romtool");
    put(w, &mut failed, b"\0");
    put_words(w, &mut failed, numbers);
    if failed { Err(Failed) } else { Ok(()) }
}

/// Writes the same as an array of C.
///
/// # Errors
///
/// Those of `write_numbers`.
pub fn write_number_array<W: ByteWrite>(numbers: Numbers, w: &mut W) -> Result<(), Failed>
    ensures text { WritesText (W.output w.old).contents (W.output w.new).contents result
        (array_text numbers) }
    ensures count { Counts (W.output w.old).failures (W.output w.new).failures result }
{
    let mut failed = false;
    put(
        w,
        &mut failed,
        b"static const unsigned char rom_numbers[48] = {\n 114, 111, 109, 116, 111, 111, 108, 0,",
    );
    put_word_texts(w, &mut failed, numbers);
    put(w, &mut failed, b"\n};\n");
    if failed { Err(Failed) } else { Ok(()) }
}

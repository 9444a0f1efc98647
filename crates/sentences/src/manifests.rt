//! The faults of a manifest, in one sentence each.
ghost use Rattle.std.specs.Prelude.{◌≡◌};
ghost use Rattle.sentences.specs.Manifests.{manifest_sentence};

use manifest::error::{BAD_ALIGN, BAD_NUMBER, BAD_PATH, BAD_TARGET, BAD_WORD, EXISTS, NO_PARENT};

/// Returns the sentence of the fault of this number. docs/MANIFEST.md says more.
pub fn manifest_sentence(number: u32) -> &'static str
    ensures { result.now ≡ manifest_sentence number }
{
    match number {
        BAD_WORD =>
            "an unknown word, a wrong number of fields, an empty field, or a nod line with neither b nor c",
        BAD_NUMBER =>
            "a mode is not four octal digits, or another number is not decimal or not below 2^32",
        BAD_PATH => "a path, a link's text or a volume's name is not valid",
        NO_PARENT => "no earlier line makes the parent directory of the path",
        EXISTS => "an earlier line already has this path, or already names the volume",
        BAD_ALIGN => "the alignment is not a power of two from 4 to 65536",
        BAD_TARGET =>
            "OLD of a hard or same line is not the path of an earlier file of the right kind",
        _ => "no rule has this number",
    }
}

//! The misfits, in one sentence each.
ghost use Rattle.std.specs.Prelude.{◌≡◌};
ghost use Rattle.sentences.specs.Misfits.{misfit_sentence};

use plan_rows::misfit::{ATTRIBUTE, HARD_LINK, NAME_TOO_LONG, TOO_LARGE};

/// Returns the sentence of the misfit of this number. docs/internals/FORMATS.md says more.
pub fn misfit_sentence(number: u32) -> &'static str
    ensures { result.now ≡ misfit_sentence number }
{
    match number {
        ATTRIBUTE => "the format cannot hold an owner, a group, a mode or a device's number",
        TOO_LARGE => "a file, a list or the whole image is too large",
        NAME_TOO_LONG => "a name is longer than the format allows",
        HARD_LINK => "cramfs has no hard links: write same PATH MODE UID GID OLD instead of hard",
        _ => "no rule has this number",
    }
}

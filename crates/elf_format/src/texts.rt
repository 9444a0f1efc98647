//! Texts that a zero byte ends.
ghost use Rattle.std.specs.Prelude.{◌≡◌, ◌==◌, option_map};
ghost use Rattle.std.specs.List.{position_or_len};
ghost use Rattle.elf_format.specs.Needs.{text};

/// Returns the number of bytes before the first zero byte, or of all if there is none.
fn text_len(b: &[u8]) -> usize
    ensures { result ≡ position_or_len (λ x. x == 0) b.now }
{
    for (i, x) in b.iter().enumerate() {
        if *x == 0 {
            return i;
        }
    }
    b.len()
}

/// Returns the bytes before the first zero byte, if there is one.
#[tactic(auto, unfolding(crate::specs::Needs::text))]
pub(crate) fn text(b: &[u8]) -> Option<&[u8]>
    ensures { option_map (λ t. t.now) result ≡ text b.now }
{
    let len = text_len(b);
    if len < b.len() {
        return Some(&b[..len]);
    }
    None
}

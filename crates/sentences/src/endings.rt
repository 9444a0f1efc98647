//! The reason why a command ended early, in one sentence each.
ghost use Rattle.std.specs.Prelude.{◌≡◌, option_map};
ghost use Rattle.sentences.specs.Endings.{ending_sentence};

/// Returns the reason why a command ended, if standard error has this text.
pub fn ending_sentence(text: &[u8]) -> Option<&'static str>
    ensures { option_map (λ s. s.now) result ≡ ending_sentence text.now }
{
    if text == b"memory".as_slice() {
        return Some("the system refused more memory");
    }
    if text == b"write fault".as_slice() {
        return Some("not everything could be written to standard output");
    }
    if text == b"read fault".as_slice() {
        return Some("standard input could not be read");
    }
    if text == b"too many reads".as_slice() {
        return Some("standard input had not ended after 2^40 bytes");
    }
    None
}

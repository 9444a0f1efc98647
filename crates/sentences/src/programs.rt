//! The reasons why a program is not, or not wholly, executed in place, in one sentence each.
ghost use Rattle.std.specs.Prelude.{◌≡◌, option_map};
ghost use Rattle.sentences.specs.Programs.{program_sentence};

/// Returns why Linux does not execute a program in place, and what helps, by the REASON of its line
/// `not`, or by `shared`. docs/PROTOCOL.md says more.
pub fn program_sentence(text: &[u8]) -> Option<&'static str>
    ensures { option_map (λ s. s.now) result ≡ program_sentence text.now }
{
    if text == b"unaligned".as_slice() {
        return Some(
            "Linux copies a program whose first byte is not at the front of a page; give it an ALIGN of 4096 (--align 4096)",
        );
    }
    if text == b"scattered".as_slice() {
        return Some(
            "Linux copies a program that is not in one piece; build the image with romtool",
        );
    }
    if text == b"unloadable".as_slice() {
        return Some("Linux does not load one of its segments; link it for pages of 4,096 bytes");
    }
    if text == b"table".as_slice() {
        return Some("its program headers are none that Linux loads; link it again for Linux");
    }
    if text == b"romfs".as_slice() {
        return Some("Linux with an MMU executes nothing of romfs in place; use cramfs");
    }
    if text == b"textrel".as_slice() {
        return Some("the dynamic linker writes into its text; compile it with -fPIC");
    }
    if text == b"writable".as_slice() {
        return Some(
            "each page of it is written; link it with a segment that cannot be written (without -N, --omagic)",
        );
    }
    if text == b"shared".as_slice() {
        return Some(
            "Linux copies its last page, which also has other data; pad the source to N + 1 bytes, by the N of its line",
        );
    }
    None
}

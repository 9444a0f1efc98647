//! The line of a script that names its interpreter.
ghost use Rattle.std.specs.Prelude.{◌≡◌, ◌≤◌, length, option_map, take};
ghost use Rattle.std.specs.List.{position_or_len, prefix_len};
ghost use Rattle.elf_format.specs.Needs.{ends_name, is_blank, is_script, script_line, script_name};
ghost use Rattle.elf_format.specs.Needs.{some_name};

/// The bytes of a script that Linux reads.
const READ_LEN: usize = 256;

/// Returns whether a byte is a space or a tab.
fn is_blank(x: u8) -> bool
    ensures { result ≡ is_blank x }
{
    x == b' ' || x == b'\t'
}

/// Returns whether a byte ends the name of an interpreter.
fn ends_name(x: u8) -> bool
    ensures { result ≡ ends_name x }
{
    is_blank(x) || x == b'\n' || x == 0
}

/// Returns the number of blanks at the front.
fn blanks(b: &[u8]) -> usize
    ensures is { result ≡ prefix_len is_blank b.now }
    ensures within { result ≤ length b.now }
{
    for (i, x) in b.iter().enumerate() {
        if !is_blank(*x) {
            return i;
        }
    }
    b.len()
}

/// Returns the number of bytes before the first that ends a name, or of all if there is none.
fn name_len(b: &[u8]) -> usize
    ensures is { result ≡ position_or_len ends_name b.now }
    ensures within { result ≤ length b.now }
{
    for (i, x) in b.iter().enumerate() {
        if ends_name(*x) {
            return i;
        }
    }
    b.len()
}

/// Returns what Linux reads.
fn front(b: &[u8]) -> &[u8]
    ensures { result.now ≡ take 256 b.now }
{
    if b.len() < READ_LEN {
        return b;
    }
    &b[..READ_LEN]
}

/// Returns what is read behind `#!` and blanks.
fn script_line(b: &[u8]) -> &[u8]
    requires { 2 ≤ length b.now }
    ensures { result.now ≡ script_line b.now }
{
    let read = front(b);
    let behind = &read[2..];
    let blanks = blanks(behind);
    &behind[blanks..]
}

/// Returns the first word of the line, which may be empty, or nothing if it may go on behind what
/// is read.
fn script_name(b: &[u8]) -> Option<&[u8]>
    requires { 2 ≤ length b.now }
    ensures { option_map (λ t. t.now) result ≡ script_name b.now }
{
    let line = script_line(b);
    let len = name_len(line);
    if b.len() < READ_LEN || len < line.len() {
        return Some(&line[..len]);
    }
    None
}

/// Returns whether the bytes begin as a script.
pub(crate) fn is_script(b: &[u8]) -> bool
    ensures { result ≡ is_script b.now }
{
    b.len() >= 2 && b[0] == b'#' && b[1] == b'!'
}

/// Returns the path of a script's interpreter.
pub(crate) fn script_interpreter(b: &[u8]) -> Option<&[u8]>
    requires { 2 ≤ length b.now }
    ensures { option_map (λ t. t.now) result ≡ some_name (script_name b.now) }
{
    let name = script_name(b)?;
    if name.is_empty() {
        return None;
    }
    Some(name)
}

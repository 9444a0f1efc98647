//! Names as make reads them.
ghost use Rattle.std.specs.Prelude.{◌≡◌, ◌++◌, ◌∷◌, [], ◌<◌, ◌≤◌, ◌^◌, ◌+◌, ◌-◌, replicate, OnOk};
ghost use Rattle.std.specs.List.{list_all};
ghost use Rattle.build_commands.specs.Names.{backslashes, escape, is_capital};
ghost use Rattle.build_commands.specs.Names.{is_permitted as permitted, is_sayable};
ghost use Rattle.build_commands.specs.Names.{is_mixed, is_special, is_word_of_make, spelled};

use std::alloc::AllocError;

/// Whether make reads a byte as part of a name only after a backslash.
fn is_special(byte: u8, is_target: bool) -> bool
    ensures { result ≡ is_special is_target byte }
{
    byte == b' '
        || byte == b'#'
        || byte == b':'
        || byte == b'*'
        || byte == b'?'
        || byte == b'['
        || (is_target && byte == b'%')
}

/// Whether a byte is permitted in a name of a rule.
fn is_permitted(byte: u8) -> bool
    ensures { result ≡ permitted byte }
{
    matches!(
        byte,
        b'0'..=b'9'
            | b'A'..=b'Z'
            | b'a'..=b'z'
            | 128..=255
            | b'/'
            | b'.'
            | b'_'
            | b'-'
            | b'+'
            | b','
            | b'@'
            | b'^'
            | b'~'
            | b']'
            | b'{'
            | b'}'
            | b'\''
            | b'"'
            | b'\\'
            | b'$'
            | b'%'
            | b' '
            | b'#'
            | b':'
            | b'*'
            | b'?'
            | b'['
    )
}

/// Whether all bytes are permitted.
fn are_permitted(name: &[u8]) -> bool
    ensures { result ≡ list_all permitted name.now }
{
    for byte in name {
        if !is_permitted(*byte) {
            return false;
        }
    }
    true
}

/// Whether all bytes are capital letters or underscores.
fn are_capital(word: &[u8]) -> bool
    ensures { result ≡ list_all is_capital word.now }
{
    for byte in word {
        if !matches!(*byte, b'A'..=b'Z' | b'_') {
            return false;
        }
    }
    true
}

/// Whether make takes a name for a directive, or for a target with a special meaning.
fn is_word_of_make(name: &[u8]) -> bool
    ensures { result ≡ is_word_of_make name.now }
{
    match name {
        [b'.', word @ ..] => are_capital(word),
        _ => {
            name == b"define".as_slice()
                || name == b"export".as_slice()
                || name == b"override".as_slice()
                || name == b"private".as_slice()
                || name == b"undefine".as_slice()
                || name == b"unexport".as_slice()
        }
    }
}

/// Whether a name has a backslash, a `#` and a wildcard: make removes one backslash too few then.
fn is_mixed(name: &[u8]) -> bool
    ensures { result ≡ is_mixed name.now }
{
    name.contains(&b'\\')
        && name.contains(&b'#')
        && (name.contains(&b'*') || name.contains(&b'?') || name.contains(&b'['))
}

/// Returns whether make has a spelling of a name, before and after a colon.
pub fn is_sayable(name: &[u8]) -> bool
    ensures { result ≡ is_sayable name.now }
{
    let first = name.first().copied().unwrap_or(b'~');
    let last = name.last().copied().unwrap_or(b' ');
    first != b'~'
        && !(last == b' ' || last == b'\\')
        && !is_word_of_make(name)
        && !is_mixed(name)
        && are_permitted(name)
}

/// Adds this number of backslashes.
fn add_backslashes(text: &mut Vec<u8>, count: usize) -> Result<(), AllocError>
    ensures { OnOk result (text.new.items ≡ text.old.items ++ replicate count 92) }
{
    for _ in 0..count {
        text.push(b'\\')?;
    }
    Ok(())
}

/// Adds what is before a byte that follows this number of backslashes, and the byte.
fn add_byte(text: &mut Vec<u8>, count: usize, byte: u8, is_target: bool) -> Result<(), AllocError>
    requires { count < 2 ^ 64 - 1 }
    ensures { OnOk result (text.new.items
        ≡ text.old.items ++ escape is_target count byte ++ byte ∷ []) }
{
    if is_special(byte, is_target) {
        add_backslashes(text, count + 1)?;
    } else if byte == b'$' {
        text.push(b'$')?;
    }
    text.push(byte)?;
    Ok(())
}

/// The number of backslashes that end a name after one more byte.
fn backslashes_after(count: usize, byte: u8) -> usize
    requires { count < 2 ^ 64 - 1 }
    ensures value { result ≡ backslashes count byte }
    ensures bound { result ≤ count + 1 }
{
    if byte == b'\\' { count + 1 } else { 0 }
}

/// Adds a name as make reads it. Backslashes before a special byte are doubled.
pub fn add_name(text: &mut Vec<u8>, name: &[u8], is_target: bool) -> Result<(), AllocError>
    ensures { OnOk result (text.new.items ≡ text.old.items ++ spelled is_target name.now) }
{
    let mut count = 0;
    for byte in name {
        add_byte(text, count, *byte, is_target)?;
        count = backslashes_after(count, *byte);
    }
    Ok(())
}

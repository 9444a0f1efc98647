//! The values that single words name: alignments, addresses, sizes, owners and devices.
ghost use Rattle.std.specs.Prelude.{◌≡◌, ◌≢◌, ◌≤◌, IfNone, IfSome, Some};
ghost use Rattle.command_line.specs.Numbers.{IsAddress, IsAlignRule, IsNumber, IsOwner, IsSize};
ghost use Rattle.command_line.specs.Numbers.{IsDevice, align_named, is_plain, unit_of};

use crate::request::{AlignRule, DeviceWords, Owner};
use memchr::{memchr, memchr2, memrchr};

/// Returns the alignment that bytes name: a power of two that a manifest may have, in bytes or in
/// units of 1,024.
pub fn align_named(word: &[u8]) -> Option<u32>
    ensures { result ≡ align_named word.now }
{
    match word {
        b"4" => Some(4),
        b"8" => Some(8),
        b"16" => Some(16),
        b"32" => Some(32),
        b"64" => Some(64),
        b"128" => Some(128),
        b"256" => Some(256),
        b"512" => Some(512),
        b"1024" => Some(1024),
        b"2048" => Some(2048),
        b"4096" => Some(4096),
        b"8192" => Some(8192),
        b"16384" => Some(16384),
        b"32768" => Some(32768),
        b"65536" => Some(65536),
        b"4K" => Some(4096),
        b"8K" => Some(8192),
        b"16K" => Some(16384),
        b"32K" => Some(32768),
        b"64K" => Some(65536),
        b"4k" => Some(4096),
        b"8k" => Some(8192),
        b"16k" => Some(16384),
        b"32k" => Some(32768),
        b"64k" => Some(65536),
        _ => None,
    }
}

/// Returns the number that the bytes are, in digits of this radix.
fn number(radix: u32, digits: &[u8]) -> Option<u64>
    requires { (2 ≤ radix) × (radix ≤ 36) }
    ensures { IfSome result (IsNumber radix digits.now) }
{
    if digits.is_empty() || digits[0] == b'+' {
        return None;
    }
    let Ok(text) = std::str::from_utf8(digits) else {
        return None;
    };
    match u64::from_str_radix(text, radix) {
        Ok(number) => Some(number),
        Err(_) => None,
    }
}

/// Returns the address that bytes name: hexadecimal digits, with or without `0x`.
fn address_in(word: &[u8]) -> Option<u64>
    ensures { IfSome result (IsAddress word.now) }
{
    if word.starts_with(b"0x") {
        number(16, &word[2..])
    } else {
        number(16, word)
    }
}

/// Returns the address that a word names.
pub fn address_named(word: &str) -> Option<u64>
    ensures { IfSome result (IsAddress word.now) }
{
    address_in(word.as_bytes())
}

/// Returns the number of bytes of a unit, by its letter.
fn unit_of(letter: u8) -> Option<u64>
    ensures { result ≡ unit_of letter }
{
    match letter {
        b'K' | b'k' => Some(1 << 10),
        b'M' | b'm' => Some(1 << 20),
        b'G' | b'g' => Some(1 << 30),
        _ => None,
    }
}

/// Returns the number of bytes that decimal digits and a unit as the last byte name.
fn scaled(word: &[u8]) -> Option<u64>
    ensures { IfSome result (IsSize word.now) }
{
    let (letter, digits) = word.split_last()?;
    let unit = unit_of(*letter)?;
    number(10, digits)?.checked_mul(unit)
}

/// Returns the number of bytes that a word names: decimal digits, with K, M or G after them for
/// units of 2^10, 2^20 and 2^30, capital or small, or hexadecimal digits after `0x`.
pub fn size_named(word: &str) -> Option<u64>
    ensures { IfSome result (IsSize word.now) }
{
    let word = word.as_bytes();
    if word.starts_with(b"0x") {
        return number(16, &word[2..]);
    }
    match scaled(word) {
        Some(size) => Some(size),
        None => number(10, word),
    }
}

/// Returns the number below 2^32 that decimal digits name.
fn identity(digits: &[u8]) -> Option<u32>
    ensures { IfSome result (IsNumber 10 digits.now) }
{
    match u32::try_from(number(10, digits)?) {
        Ok(number) => Some(number),
        Err(_) => None,
    }
}

/// Returns the owner and the group that a word names: two decimal numbers with a colon between
/// them.
pub fn owner_named(word: &str) -> Option<Owner>
    ensures { IfSome result (IsOwner word.now) }
{
    let word = word.as_bytes();
    let colon = memchr(b':', word)?;
    let uid = identity(&word[..colon])?;
    let gid = identity(&word[colon + 1..])?;
    Some(Owner { uid, gid })
}

/// Returns the rule that a word names: a pattern and an alignment, with an equals sign between
/// them.
pub fn align_rule_named<'a>(word: &'a str) -> Option<AlignRule<'a>>
    ensures { IfSome result (IsAlignRule word.now) }
{
    let word = word.as_bytes();
    let equals = memrchr(b'=', word)?;
    let align = align_named(&word[equals + 1..])?;
    match std::str::from_utf8(&word[..equals]) {
        Ok(pattern) => Some(AlignRule { pattern, align }),
        Err(_) => None,
    }
}

/// Returns whether a text is a word: it has bytes, and neither a space nor a line feed.
fn is_plain(text: &str) -> bool
    ensures { result ≡ is_plain text.now }
{
    !text.is_empty() && memchr2(b' ', b'\n', text.as_bytes()).is_none()
}

/// Returns the five words of a device, which have single spaces between them.
pub fn device_named<'a>(word: &'a str) -> Option<DeviceWords<'a>>
    ensures { IfSome result (IsDevice word.now) }
{
    let (path, rest) = word.split_once(' ')?;
    let (kind, rest) = rest.split_once(' ')?;
    let (major, rest) = rest.split_once(' ')?;
    let (minor, mode) = rest.split_once(' ')?;
    if is_plain(path) && is_plain(kind) && is_plain(major) && is_plain(minor) && is_plain(mode) {
        Some((path, kind, major, minor, mode))
    } else {
        None
    }
}

//! Texts cut at a byte, and the numbers of texts of digits.
ghost use Rattle.std.specs.List.{list_any};
ghost use Rattle.std.specs.Prelude.{◌≡◌, ◌==◌, ◌<◌, ◌≤◌, ◌∷◌, ◌+◌, ◌-◌, ◌*◌, ◌^◌, if◌then◌else◌};
ghost use Rattle.std.specs.Prelude.{length};
ghost use Rattle.std.specs.Prelude.{Some, None, IfSome, IfOk};
ghost use Rattle.percent_encoding.specs.Percent.{percent_decode};
ghost use Rattle.manifest.specs.Texts.{pieces, pieces_after, is_digit, digits_from, octal, below};
ghost use Rattle.manifest.specs.Texts.{decimal, is_bad};
ghost use Rattle.manifest.specs.Grammar.{is_skipped};

use crate::names::Name;
use memchr::memchr;
use percent_encoding::percent_decode;
use rom_fields::OutOfMemory;
use std::alloc::Global;

/// Returns the part before the first byte `at`, and the part behind that byte, if the text has it.
pub fn cut(text: &[u8], at: u8) -> (&[u8], Option<&[u8]>)
    ensures whole { pieces at text.now ≡ result.0.now ∷ pieces_after at result.1 }
    ensures shorter { IfSome result.1 (λ rest. length rest.now < length text.now) }
{
    match memchr(at, text) {
        None => (text, None),
        Some(i) => (&text[..i], Some(&text[i + 1..])),
    }
}

/// Returns whether a line is empty or a comment.
pub fn is_skipped(line: &[u8]) -> bool
    ensures { result ≡ is_skipped line.now }
{
    match line {
        [] => true,
        [first, ..] => *first == b'#',
    }
}

/// Returns whether a text has a zero byte.
fn has_zero(text: &[u8]) -> bool
    ensures { result ≡ list_any (λ b. b == 0) text.now }
{
    text.iter().any(|byte| *byte == 0)
}

/// Returns whether a text is longer than `most` bytes or has a zero byte.
pub fn is_bad(text: &[u8], most: usize) -> bool
    ensures { result ≡ is_bad most text.now }
{
    text.len() > most || has_zero(text)
}

/// Returns the value of a byte as a digit, if it is one.
fn digit(byte: u8, base: u32) -> Option<u32>
    requires { base ≤ 10 }
    ensures { result ≡ (if is_digit base byte then Some (byte - 48) else None) }
{
    if byte < b'0' || u32::from(byte) >= 48 + base {
        return None;
    }
    Some(u32::from(byte) - 48)
}

/// Returns a number with one more digit behind it, if it is below 2^32.
fn with_digit(number: u32, base: u32, digit: u32) -> Option<u32>
    ensures { result ≡ below (2 ^ 32) (Some (number * base + digit)) }
{
    number.checked_mul(base)?.checked_add(digit)
}

/// Returns the number of these digits, if it is below 2^32.
fn digits(text: &[u8], base: u32) -> Option<u32>
    requires { (2 ≤ base) × (base ≤ 10) }
    ensures { result ≡ below (2 ^ 32) (digits_from base 0 text.now) }
{
    let mut number = 0u32;
    for byte in text {
        let digit = digit(*byte, base)?;
        number = with_digit(number, base, digit)?;
    }
    Some(number)
}

/// Returns the number of four octal digits, which is a mode.
#[tactic(auto, using(crate::proofs::Digits::mode_digits), unfolding(crate::specs::Texts::octal))]
pub fn octal(text: &[u8]) -> Option<u32>
    ensures { result ≡ octal text.now }
{
    if text.len() != 4 {
        return None;
    }
    digits(text, 8)
}

/// Returns the number of decimal digits without leading zeros, if it is below 2^32.
#[tactic(auto, unfolding(crate::specs::Texts::decimal))]
pub fn decimal(text: &[u8]) -> Option<u32>
    ensures { result ≡ decimal text.now }
{
    match text {
        [] => None,
        [b'0', _, ..] => None,
        [_, ..] => digits(text, 10),
    }
}

/// Returns the bytes of a percent-encoded text.
pub fn decoded(alloc: Global, text: &[u8]) -> Result<Name, OutOfMemory>
    ensures { IfOk result (λ name. name ≡ percent_decode text.now) }
{
    let mut bytes = Vec::new(alloc);
    percent_decode(text).append_to(&mut bytes)?;
    Ok(bytes.into())
}

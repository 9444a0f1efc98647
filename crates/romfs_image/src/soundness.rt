//! The tests of one record to which a reference leads.
ghost use Rattle.std.specs.Prelude.{◌≡◌, ◌≢◌, ◌+◌, ◌-◌, ◌≤◌, ◌<◌, ◌^◌, ◌⊎◌, ℕ, length, IfOk, IfErr};
ghost use Rattle.std.specs.Prelude.{IfNone, IfSome, IsTrue, ◌↔◌};
ghost use Rattle.std.specs.Bool.{OnTrue, OnFalse};
ghost use Rattle.std.specs.List.{Contains};
ghost use Rattle.rom_fields.specs.Words.{words_sum, part_of};
ghost use Rattle.record_forest.specs.Faults.{IsLeast};
ghost use Rattle.romfs_format.specs.Record.{name_of, end_of, next_of, first_of, type_of};
ghost use Rattle.romfs_format.specs.Record.{spec_offset_of, size_of, has_data, IsSound, IsWhole};
ghost use Rattle.romfs_format.specs.Record.{HasRecordFault};

use crate::accessible::Accessible;
use crate::fields::name_len;
use rom_fields::fault::{BAD_NAME, BOUNDS, HEADER_SUM, LINK_SIZE};
use rom_fields::word_sum;

/// The length of the name of a whole record, and the offset at which the record ends.
#[derive(Clone, Copy)]
pub struct Whole {
    pub name: usize,
    pub end: usize,
}

/// Checks whether the whole record at `at` is among the bytes. Otherwise returns its only fault.
pub fn whole_record(b: &Accessible<'_>, at: usize) -> Result<Whole, u32>
    ensures whole { IfOk result (λ w. IsWhole b.now.bytes.now b.now.root at) }
    ensures name { IfOk result (λ w. w.name ≡ length (name_of b.now.bytes.now at)) }
    ensures end { IfOk result (λ w. w.end ≡ end_of b.now.bytes.now at) }
    ensures fault { IfErr result (λ n. IsLeast (HasRecordFault b.now.bytes.now b.now.root at) n) }
{
    let root = b.root as usize;
    if at < root || b.bytes.len() < 32 || b.bytes.len() - 32 < at {
        return Err(BOUNDS);
    }
    let Some(name) = name_len(b.bytes, at + 16) else {
        return Err(BAD_NAME);
    };
    let end = at + 16 + (name + 1 + 15) / 16 * 16;
    if end > b.bytes.len() {
        return Err(BOUNDS);
    }
    Ok(Whole { name, end })
}

/// Whether the data of the record are among the bytes, from `end` on.
fn data_lie(b: &Accessible<'_>, at: usize, end: usize) -> bool
    requires header { at + 16 ≤ length b.now.bytes.now }
    requires end { end ≤ length b.now.bytes.now }
    ensures lie { OnTrue result (IsTrue (has_data (type_of b.now.bytes.now at))
        → end + size_of b.now.bytes.now at ≤ length b.now.bytes.now) }
    ensures outside { OnFalse result (IsTrue (has_data (type_of b.now.bytes.now at))
        × (length b.now.bytes.now < end + size_of b.now.bytes.now at)) }
{
    let kind = b.type_at(at);
    if kind == 2 || kind == 3 {
        end + b.size_at(at) as usize <= b.bytes.len()
    } else {
        true
    }
}

/// Whether the words of the record sum to 0.
fn sums_to_zero(b: &Accessible<'_>, at: usize, end: usize) -> bool
    requires order { at ≤ end }
    requires end { end ≤ length b.now.bytes.now }
    ensures zero { OnTrue result (words_sum (part_of b.now.bytes.now at (end - at)) ≡ 0) }
    ensures other { OnFalse result (words_sum (part_of b.now.bytes.now at (end - at)) ≢ 0) }
{
    word_sum(&b.bytes[at..end]) == 0
}

/// Whether a name has a slash.
fn has_slash(name: &[u8]) -> bool
    ensures { IsTrue result ↔ Contains name.now 47 }
{
    name.contains(&47)
}

/// Whether its name of `len` bytes is valid: not empty, and without a slash.
fn has_name(b: &Accessible<'_>, at: usize, len: usize) -> bool
    requires len { len ≡ length (name_of b.now.bytes.now at) }
    requires fits { at + 16 + len < length b.now.bytes.now }
    ensures some { OnTrue result (0 < length (name_of b.now.bytes.now at)) }
    ensures no_slash { OnTrue result (Contains (name_of b.now.bytes.now at) 47 → ⊥) }
    ensures other { OnFalse result ((length (name_of b.now.bytes.now at) ≡ 0)
        ⊎ Contains (name_of b.now.bytes.now at) 47) }
{
    let name = &b.bytes[at + 16..at + 16 + len];
    if name.is_empty() {
        return false;
    }
    if has_slash(name) {
        return false;
    }
    true
}

/// Whether the size of a symbolic link is that of a valid text: 1 to 4,095 bytes.
fn has_link_size(b: &Accessible<'_>, at: usize) -> bool
    requires { at + 16 ≤ length b.now.bytes.now }
    ensures fits { OnTrue result (type_of b.now.bytes.now at ≡ 3
        → (1 ≤ size_of b.now.bytes.now at) × (size_of b.now.bytes.now at ≤ 4095)) }
    ensures link { OnFalse result (type_of b.now.bytes.now at ≡ 3) }
    ensures size { OnFalse result ((size_of b.now.bytes.now at ≡ 0)
        ⊎ (4095 < size_of b.now.bytes.now at)) }
{
    if b.type_at(at) == 3 {
        let size = b.size_at(at);
        1 <= size && size <= 4095
    } else {
        true
    }
}

/// Returns the least fault of a record, or `None` if it is valid.
pub fn record_fault(b: &Accessible<'_>, at: usize) -> Option<u32>
    ensures sound { IfNone result (IsSound b.now.bytes.now b.now.root at) }
    ensures fault { IfSome result (λ n. IsLeast (HasRecordFault b.now.bytes.now b.now.root at) n) }
{
    let whole = match whole_record(b, at) {
        Ok(whole) => whole,
        Err(number) => return Some(number),
    };
    if !data_lie(b, at, whole.end) {
        return Some(BOUNDS);
    }
    if !sums_to_zero(b, at, whole.end) {
        return Some(HEADER_SUM);
    }
    if !has_name(b, at, whole.name) {
        return Some(BAD_NAME);
    }
    if !has_link_size(b, at) {
        return Some(LINK_SIZE);
    }
    None
}

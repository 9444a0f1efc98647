//! The tests of one record to which a reference leads.
ghost use Rattle.std.specs.Prelude.{◌≡◌, ◌≢◌, ◌+◌, ◌*◌, ◌%◌, ◌≤◌, ◌<◌, ◌^◌, ◌⊎◌, ◌↔◌, ◌==◌, IsTrue};
ghost use Rattle.std.specs.Prelude.{ℕ, length, if◌then◌else◌, true, false};
ghost use Rattle.std.specs.Bool.{OnTrue, OnFalse};
ghost use Rattle.std.specs.List.{Contains};
ghost use Rattle.rom_fields.specs.Extents.{IsLeastOf};
ghost use Rattle.cramfs_format.specs.Order.{word as word_of};
ghost use Rattle.cramfs_format.specs.Inode.{type_of, size_of, name_of, end_of, offset_of, is_kind};
ghost use Rattle.cramfs_format.specs.Inode.{has_data, block_count, block_len, block_start};
ghost use Rattle.cramfs_format.specs.Inode.{pointer_place, pointer_of, is_direct, has_kinds};
ghost use Rattle.cramfs_format.specs.Inode.{IsPlain, Lies, ListLies, TableLies, HasLinkSize, Fits};
ghost use Rattle.cramfs_format.specs.Inode.{IsName, HasEntryFault};
ghost use Rattle.record_forest.specs.Known.{AreKnown};
ghost use Rattle.cramfs_image.specs.Phases.{IsWhole, IsFaultAt, IsPointerFault};
ghost use Rattle.record_forest.specs.Faults.{IsLeastFaultOf};
ghost use Rattle.record_forest.specs.Lesser.{lesser_of_both};

use crate::accessible::Accessible;
use cramfs_format::inode::{blocks_of, start_of};
use record_forest::{Range, VerifiedRanges, lesser_of_both};
use rom_fields::Fault;
use rom_fields::fault::{BAD_NAME, BLOCK_KIND, BOUNDS, KIND, LINK_SIZE, LIST_END};

/// Whether the bytes are behind the superblock and among the accessible ones, if there are any.
fn lies(b: &Accessible<'_>, start: usize, len: usize) -> bool
    requires start { start < 2 ^ 33 }
    requires len { len < 2 ^ 33 }
    ensures { IsTrue result ↔ Lies b.now.bytes.now start len }
{
    len == 0 || (start >= 76 && start + len <= b.bytes.len())
}

/// Returns whether a list, if there is one, is there.
pub fn list_lies(b: &Accessible<'_>, at: usize) -> bool
    requires { at + 12 ≤ length b.now.bytes.now }
    ensures { IsTrue result ↔ ListLies b.now.order b.now.bytes.now at }
{
    b.type_at(at) != 4 || lies(b, b.offset_at(at) as usize, b.size_at(at) as usize)
}

/// Returns whether the inode has contents: it is a file or a link.
pub fn has_contents(b: &Accessible<'_>, at: usize) -> bool
    requires { at + 12 ≤ length b.now.bytes.now }
    ensures { result ≡ has_data (type_of b.now.order b.now.bytes.now at) }
{
    let kind = b.type_at(at);
    kind == 8 || kind == 10
}

/// Returns whether the block pointers, if there are any, are there.
pub fn table_lies(b: &Accessible<'_>, at: usize) -> bool
    requires { at + 12 ≤ length b.now.bytes.now }
    ensures { IsTrue result ↔ TableLies b.now.order b.now.bytes.now at }
{
    let count = blocks_of(b.size_at(at)) as usize;
    !has_contents(b, at) || lies(b, b.offset_at(at) as usize, 4 * count)
}

/// Whether a name is not empty, and without a zero or a slash.
fn is_name(name: &[u8]) -> bool
    ensures { IsTrue result ↔ IsName name.now }
{
    !name.is_empty() && !name.contains(&0) && !name.contains(&47)
}

/// Whether the inode with its name ends where its list ends, or before.
fn fits(b: &Accessible<'_>, end: usize, at: usize) -> bool
    requires end { end ≤ length b.now.bytes.now }
    requires at { at < 2 ^ 32 }
    ensures { IsTrue result ↔ Fits b.now.order b.now.bytes.now end at }
{
    at + 12 <= end && b.end_at(at) <= end
}

/// Whether an inode's type is one of seven.
fn is_known(t: u32) -> bool
    ensures { result ≡ is_kind t }
{
    t == 4 || (t == 8 || (t == 10 || (t == 6 || (t == 2 || (t == 12 || t == 1)))))
}

/// Whether the size of a symbolic link is that of a valid text: 1 to 4,095 bytes.
fn has_link_size(b: &Accessible<'_>, at: usize) -> bool
    requires { at + 12 ≤ length b.now.bytes.now }
    ensures fits { OnTrue result (HasLinkSize b.now.order b.now.bytes.now at) }
    ensures link { OnFalse result (type_of b.now.order b.now.bytes.now at ≡ 10) }
    ensures size { OnFalse result ((size_of b.now.order b.now.bytes.now at ≡ 0)
        ⊎ (4095 < size_of b.now.order b.now.bytes.now at)) }
{
    if b.type_at(at) == 10 {
        let size = b.size_at(at);
        1 <= size && size <= 4_095
    } else {
        true
    }
}

/// The least number of a fault at the offset of an entry that fits in its list.
fn fault_at(b: &Accessible<'_>, at: usize) -> Option<u32>
    requires header { at + 12 ≤ length b.now.bytes.now }
    requires name { end_of b.now.order b.now.bytes.now at ≤ length b.now.bytes.now }
    ensures { IsLeastOf (IsFaultAt b.now.order b.now.bytes.now at) result }
{
    if !list_lies(b, at) {
        return Some(BOUNDS);
    }
    if !table_lies(b, at) {
        return Some(BOUNDS);
    }
    if !is_name(b.name_at(at)) {
        return Some(BAD_NAME);
    }
    if !is_known(b.type_at(at)) {
        return Some(KIND);
    }
    if !has_link_size(b, at) {
        return Some(LINK_SIZE);
    }
    None
}

/// Whether a pointer is that of a block that is not compressed and is read at the pointer's offset.
fn is_plain(b: &Accessible<'_>, pointer: u32) -> bool
    ensures { IsTrue result ↔ IsPlain b.now.order b.now.bytes.now pointer }
{
    let kinds = b.word(8) / 2_048 % 2 == 1;
    kinds && (pointer / 2_147_483_648 % 2 == 1 && pointer / 1_073_741_824 % 2 == 1)
}

/// Returns the length of the block of this index, in a file of `size` bytes.
pub fn len_of_block(size: u32, i: u32) -> u32
    requires { 4096 * i ≤ size }
    ensures { result ≡ block_len size i }
{
    (size - 4_096 * i).min(4_096)
}

/// Whether the word of this number is the pointer of a whole block, read at the pointer's offset.
fn is_whole(b: &Accessible<'_>, number: u32) -> bool
    requires word { 4 * number + 4 ≤ length b.now.bytes.now }
    ensures { IsTrue result ↔ IsWhole b.now.order b.now.bytes.now number }
{
    let pointer = b.word(4 * number as usize);
    is_plain(b, pointer) && lies(b, start_of(pointer) as usize, 4_096)
}

/// The least number of consecutive pointers to whole blocks that are kept as known. A look at fewer
/// pointers is as fast as a look-up of them.
const WORTH_KNOWING: u32 = 16;

/// The end of the words from `first` on that are pointers of whole blocks, as far as `end` or
/// further, counted in words. Known words are not looked at again.
fn whole_up_to(b: &Accessible<'_>, known: &mut VerifiedRanges, first: u32, end: u32) -> u32
    requires words { 4 * end ≤ length b.now.bytes.now }
    requires known { AreKnown (IsWhole b.now.order b.now.bytes.now) known.old }
    ensures known { AreKnown (IsWhole b.now.order b.now.bytes.now) known.new }
    ensures whole { (n : ℕ) → first ≤ n → n < result → IsWhole b.now.order b.now.bytes.now n }
{
    let mut start = first;
    let mut next = first;
    while next < end {
        if let Some(range) = known.take(next) {
            start = start.min(range.start);
            next = range.end;
            continue;
        }
        if !is_whole(b, next) {
            break;
        }
        next += 1;
    }
    if start.saturating_add(WORTH_KNOWING) <= next {
        known.note(Range { start, end: next });
    }
    next
}

/// The number of pointers from `table` on, of `count`, that lead to whole blocks without a gap.
fn whole_pointers(b: &Accessible<'_>, known: &mut VerifiedRanges, table: u32, count: u32) -> u32
    requires aligned { table % 4 ≡ 0 }
    requires pointers { 0 < count → table + 4 * count ≤ length b.now.bytes.now }
    requires known { AreKnown (IsWhole b.now.order b.now.bytes.now) known.old }
    ensures known { AreKnown (IsWhole b.now.order b.now.bytes.now) known.new }
    ensures few { result ≤ count }
    ensures whole { (i : ℕ) → i < result → IsPlain b.now.order b.now.bytes.now
        (word_of b.now.order b.now.bytes.now (table + 4 * i))
        × Lies b.now.bytes.now (block_start (word_of b.now.order b.now.bytes.now (table + 4 * i)))
        4096 }
{
    if count == 0 {
        return 0;
    }
    let first = table / 4;
    let next = whole_up_to(b, known, first, first + count);
    next.saturating_sub(first).min(count)
}

/// The least fault of the block pointers. Pointers that are known to lead to whole blocks are not
/// looked at again.
fn pointer_fault(b: &Accessible<'_>, known: &mut VerifiedRanges, at: usize) -> Option<Fault>
    requires header { at + 12 ≤ length b.now.bytes.now }
    requires known { AreKnown (IsWhole b.now.order b.now.bytes.now) known.old }
    ensures known { AreKnown (IsWhole b.now.order b.now.bytes.now) known.new }
    ensures least { IsLeastFaultOf (IsPointerFault b.now.order b.now.bytes.now at) result }
{
    if !has_contents(b, at) {
        return None;
    }
    if !table_lies(b, at) {
        return None;
    }
    let size = b.size_at(at);
    let table = b.offset_at(at);
    let whole = whole_pointers(b, known, table, size / 4_096);
    for i in whole..blocks_of(size) {
        let place = table + 4 * i;
        let pointer = b.word(place as usize);
        if !is_plain(b, pointer) {
            let number = BLOCK_KIND;
            return Some(Fault { number, at: place });
        }
        let start = start_of(pointer) as usize;
        if !lies(b, start, len_of_block(size, i) as usize) {
            let number = BOUNDS;
            return Some(Fault { number, at: place });
        }
    }
    None
}

/// Returns the least fault of the entry at `at` of a list that ends at `end`, or `None` if it is
/// valid.
pub fn entry_fault(
    b: &Accessible<'_>,
    known: &mut VerifiedRanges,
    end: usize,
    at: usize,
) -> Option<Fault>
    requires known { AreKnown (IsWhole b.now.order b.now.bytes.now) known.old }
    requires end { end ≤ length b.now.bytes.now }
    requires at { at < 2 ^ 32 }
    ensures known { AreKnown (IsWhole b.now.order b.now.bytes.now) known.new }
    ensures least { IsLeastFaultOf (HasEntryFault b.now.order b.now.bytes.now end at) result }
{
    let place = at as u32;
    if !fits(b, end, at) {
        let number = LIST_END;
        return Some(Fault { number, at: place });
    }
    let here = match fault_at(b, at) {
        Some(number) => Some(Fault { number, at: place }),
        None => None,
    };
    lesser_of_both(here, pointer_fault(b, known, at))
}

//! The fields of a record, which is a file header with its name, and the meaning of its type.
ghost use Rattle.std.specs.Prelude.{◌≡◌, ◌≢◌, ◌+◌, ◌≤◌, ◌<◌, ◌^◌, ℕ, List, length, MatchOption};
ghost use Rattle.std.specs.Prelude.{SomeIff, drop, IsTrue};
ghost use Rattle.rom_fields.specs.Words.{word_be};
ghost use Rattle.romfs_format.specs.Record.{before_zero, name_of, end_of, next_of, first_of};
ghost use Rattle.romfs_format.specs.Record.{type_of, spec_offset_of, size_of, IsSound};
ghost use Rattle.romfs_format.specs.Tree.{kind_named, mode_named, led, by_type};
ghost use Rattle.romfs_format.specs.Made.{begins};

use crate::accessible::Accessible;
use memchr::memchr;
use rom_tree::Kind;
use romfs_format::header;

/// Returns the length of the name at `at`, or `None` if no zero ends it within 256 bytes.
pub fn name_len(b: &[u8], at: usize) -> Option<usize>
    ensures { SomeIff result ((at + length (before_zero (drop at b.now)) < length b.now)
        × (length (before_zero (drop at b.now)) < 256))
        (length (before_zero (drop at b.now))) }
{
    let len = b.len();
    if len <= at {
        return None;
    }
    let end = if len - at < 256 { len } else { at + 256 };
    let found = memchr(0, &b[at..end]);
    found
}

impl<'a> Accessible<'a> {
    /// Reads the word at `at`.
    pub fn word(&self, at: usize) -> u32
        requires { at + 4 ≤ length self.now.bytes.now }
        ensures { result ≡ word_be self.now.bytes.now at }
    {
        header::word(self.bytes, at)
    }

    /// Reads the record's type, 0 to 7.
    pub fn type_at(&self, at: usize) -> u32
        requires { at + 16 ≤ length self.now.bytes.now }
        ensures { result ≡ type_of self.now.bytes.now at }
    {
        header::type_at(self.bytes, at)
    }

    /// Reads the offset of the next record.
    pub fn next_offset(&self, at: usize) -> u32
        requires { at + 16 ≤ length self.now.bytes.now }
        ensures { result ≡ next_of self.now.bytes.now at }
    {
        header::next_at(self.bytes, at)
    }

    /// Reads the offset in its spec.
    pub fn spec_offset(&self, at: usize) -> u32
        requires { at + 16 ≤ length self.now.bytes.now }
        ensures { result ≡ spec_offset_of self.now.bytes.now at }
    {
        header::spec_at(self.bytes, at)
    }

    /// Reads its size.
    pub fn size_at(&self, at: usize) -> u32
        requires { at + 16 ≤ length self.now.bytes.now }
        ensures { result ≡ size_of self.now.bytes.now at }
    {
        header::size_at(self.bytes, at)
    }

    /// Reads the offset of the first record of its list, or 0 if it has no list.
    pub fn first_offset(&self, at: usize) -> u32
        requires { at + 16 ≤ length self.now.bytes.now }
        ensures { result ≡ first_of self.now.bytes.now at }
    {
        header::first_at(self.bytes, at)
    }

    /// Returns the name of a record.
    pub fn name_at(&self, at: u32) -> &'a [u8]
        requires { IsSound self.now.bytes.now self.now.root at }
        ensures { result.now ≡ name_of self.now.bytes.now at }
    {
        let start = at as usize + 16;
        let Some(len) = name_len(self.bytes, start) else {
            return self.bytes;
        };
        &self.bytes[start..start + len]
    }

    /// Returns the offset at which the record ends and its data begin.
    pub fn end_at(&self, at: u32) -> u32
        requires { IsSound self.now.bytes.now self.now.root at }
        ensures value { result ≡ end_of self.now.bytes.now at }
        ensures within { result ≤ length self.now.bytes.now }
    {
        let name = self.name_at(at);
        at + 16 + (name.len() as u32 + 1 + 15) / 16 * 16
    }

    /// Returns the offset at which the list of a directory begins, or 0 if there is none.
    #[tactic(auto, unfolding(romfs_format::specs::Made::begins, romfs_format::specs::Made::start_of, romfs_format::specs::Refers::heads_itself))]
    pub fn list_start(&self, at: u32) -> u32
        requires { IsSound self.now.bytes.now self.now.root at }
        ensures { result ≡ begins self.now.bytes.now self.now.root at }
    {
        let first = self.first_offset(at as usize);
        if at == self.root && first == self.root {
            self.next_offset(at as usize)
        } else {
            first
        }
    }

    /// Returns the offset of the record to which a record leads over hard links.
    pub fn led_at(&self, at: u32) -> u32
        requires { (n : ℕ) → n ≤ 8 → IsSound self.now.bytes.now self.now.root
            (led n self.now.bytes.now at) }
        ensures { result ≡ led 8 self.now.bytes.now at }
    {
        let mut p = at;
        for i in 0..8usize {
            if self.type_at(p as usize) == 0 {
                p = self.spec_offset(p as usize);
            }
        }
        p
    }
}

/// Returns the kind of a record by its type.
pub fn kind_at(t: u32) -> Kind
    ensures { result ≡ kind_named t }
{
    if t == 1 {
        Kind::Directory
    } else if t == 2 {
        Kind::Regular
    } else if t == 3 {
        Kind::Symlink
    } else if t == 4 {
        Kind::Block
    } else if t == 5 {
        Kind::Character
    } else if t == 6 {
        Kind::Socket
    } else {
        Kind::Fifo
    }
}

/// Returns the permissions of a record by its type.
pub fn mode_at(t: u32, executable: bool) -> u32
    ensures { result ≡ mode_named t executable }
{
    if t == 1 || t == 2 {
        if executable { 0o755 } else { 0o644 }
    } else if t == 3 {
        0o777
    } else if t == 4 || t == 5 {
        0o600
    } else {
        0o644
    }
}

/// Returns `x` for regular files and symbolic links, and 0 for other types.
pub fn file_at(t: u32, x: u32) -> u32
    ensures { result ≡ by_type t 0 x x 0 0 0 0 }
{
    if t == 2 || t == 3 { x } else { 0 }
}

/// Returns `x` for devices, and 0 for other types.
pub fn device_at(t: u32, x: u32) -> u32
    ensures { result ≡ by_type t 0 0 0 x x 0 0 }
{
    if t == 4 || t == 5 { x } else { 0 }
}

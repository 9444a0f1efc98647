//! The fields of a record, which is an inode with its name, and the meaning of its type and its
//! pointers.
ghost use Rattle.std.specs.Prelude.{◌≡◌, ◌≢◌, ◌+◌, ◌*◌, ◌%◌, ◌≤◌, ◌<◌, ◌^◌, length, if◌then◌else◌};
ghost use Rattle.cramfs_format.specs.Order.{word as word_of};
ghost use Rattle.cramfs_format.specs.Inode.{mode_of, uid_of, size_of, gid_of, name_room, offset_of};
ghost use Rattle.cramfs_format.specs.Inode.{type_of, has_data, without_zeros, name_of, end_of};
ghost use Rattle.cramfs_format.specs.Inode.{list_start, list_end};
ghost use Rattle.cramfs_format.specs.Tree.{kind_named, by_type};

use crate::accessible::Accessible;
use cramfs_format::inode;
use rom_tree::Kind;

impl<'a> Accessible<'a> {
    /// Reads the word at `at`.
    pub fn word(&self, at: usize) -> u32
        requires { at + 4 ≤ length self.now.bytes.now }
        ensures { result ≡ word_of self.now.order self.now.bytes.now at }
    {
        self.order.word(self.bytes, at)
    }

    /// Reads the file type and the permissions.
    pub fn mode_at(&self, at: usize) -> u32
        requires { at + 12 ≤ length self.now.bytes.now }
        ensures mode { result ≡ mode_of self.now.order self.now.bytes.now at }
        ensures small { result < 2 ^ 16 }
    {
        inode::mode_at(self.order, self.bytes, at)
    }

    /// Reads only the file type.
    pub fn type_at(&self, at: usize) -> u32
        requires { at + 12 ≤ length self.now.bytes.now }
        ensures { result ≡ type_of self.now.order self.now.bytes.now at }
    {
        inode::type_at(self.order, self.bytes, at)
    }

    /// Reads the owner.
    pub fn uid_at(&self, at: usize) -> u32
        requires { at + 12 ≤ length self.now.bytes.now }
        ensures { result ≡ uid_of self.now.order self.now.bytes.now at }
    {
        inode::uid_at(self.order, self.bytes, at)
    }

    /// Reads the size in bytes, or the numbers of a device.
    pub fn size_at(&self, at: usize) -> u32
        requires { at + 12 ≤ length self.now.bytes.now }
        ensures size { result ≡ size_of self.now.order self.now.bytes.now at }
        ensures small { result < 2 ^ 24 }
    {
        inode::size_at(self.order, self.bytes, at)
    }

    /// Reads the group.
    pub fn gid_at(&self, at: usize) -> u32
        requires { at + 12 ≤ length self.now.bytes.now }
        ensures { result ≡ gid_of self.now.order self.now.bytes.now at }
    {
        inode::gid_at(self.order, self.bytes, at)
    }

    /// Reads the length of the padded name, in bytes.
    pub fn room_at(&self, at: usize) -> u32
        requires { at + 12 ≤ length self.now.bytes.now }
        ensures room { result ≡ name_room self.now.order self.now.bytes.now at }
        ensures small { result < 256 }
    {
        inode::room_at(self.order, self.bytes, at)
    }

    /// Reads the offset at which a list or the block pointers begin.
    pub fn offset_at(&self, at: usize) -> u32
        requires { at + 12 ≤ length self.now.bytes.now }
        ensures offset { result ≡ offset_of self.now.order self.now.bytes.now at }
        ensures start { result ≡ list_start self.now.order self.now.bytes.now at }
        ensures small { result < 2 ^ 28 }
        ensures aligned { result % 4 ≡ 0 }
    {
        inode::offset_at(self.order, self.bytes, at)
    }

    /// Reads the offset at which the list of a directory ends, or 0 for all other types.
    pub fn list_end_at(&self, at: usize) -> u32
        requires { at + 12 ≤ length self.now.bytes.now }
        ensures { result ≡ list_end self.now.order self.now.bytes.now at }
    {
        inode::list_end_at(self.order, self.bytes, at)
    }

    /// Reads the offset at which the record ends, and the next of its list begins.
    pub fn end_at(&self, at: usize) -> usize
        requires { at + 12 ≤ length self.now.bytes.now }
        ensures end { result ≡ end_of self.now.order self.now.bytes.now at }
        ensures near { result < at + 268 }
    {
        inode::end_at(self.order, self.bytes, at)
    }

    /// Returns the name of the record.
    #[tactic(auto, unfolding(cramfs_format::specs::Inode::end_of))]
    pub fn name_at(&self, at: usize) -> &'a [u8]
        requires header { at + 12 ≤ length self.now.bytes.now }
        requires name { end_of self.now.order self.now.bytes.now at ≤ length self.now.bytes.now }
        ensures { result.now ≡ name_of self.now.order self.now.bytes.now at }
    {
        let start = at + 12;
        let room = self.room_at(at) as usize;
        cut_zeros(&self.bytes[start..start + room])
    }

    /// Returns the number of bytes of a file's contents or a link's text, or 0 for all other types.
    pub fn file_len(&self, at: usize) -> u32
        requires { at + 12 ≤ length self.now.bytes.now }
        ensures { result ≡ (if has_data (type_of self.now.order self.now.bytes.now at)
            then size_of self.now.order self.now.bytes.now at else 0) }
    {
        let kind = self.type_at(at);
        if kind == 8 || kind == 10 {
            self.size_at(at)
        } else {
            0
        }
    }
}

/// The bytes without the zeros at their end.
fn cut_zeros<'a>(bytes: &'a [u8]) -> &'a [u8]
    ensures { result.now ≡ without_zeros bytes.now }
{
    let mut len = bytes.len();
    while len > 0 {
        if bytes[len - 1] != 0 {
            return &bytes[..len];
        }
        len -= 1;
    }
    &bytes[..0]
}

/// Returns the kind of an inode by its type.
pub fn kind_named_by(t: u32) -> Kind
    ensures { result ≡ kind_named t }
{
    match t {
        4 => Kind::Directory,
        8 => Kind::Regular,
        10 => Kind::Symlink,
        6 => Kind::Block,
        2 => Kind::Character,
        12 => Kind::Socket,
        _ => Kind::Fifo,
    }
}

/// Returns `x` for devices, and 0 for other types.
pub fn of_device(t: u32, x: u32) -> u32
    ensures { result ≡ by_type t 0 0 0 x x 0 0 }
{
    if t == 6 || t == 2 { x } else { 0 }
}

//! The answers to C, as structs of numbers.
ghost use Rattle.std.specs.Prelude.{◌≡◌};
ghost use Rattle.rom_c.specs.Reported.{kind_number, stat_reported};
ghost use Rattle.rom_c.specs.Reported.{no_node as no_node_reported, no_stat as no_stat_reported};
ghost use Rattle.rom_c.specs.Reported.{no_place as no_place_reported};

use rom_tree::{Kind, Stat};

/// The error: no image is open.
pub(crate) const CLOSED: u32 = 13;

/// The number of a node, or the number of an error.
#[repr(C)]
#[derive(Clone, Copy)]
pub struct RomtoolNode {
    pub error: u32,
    pub node: u32,
}

/// A node's kind and numbers, or the number of an error.
#[repr(C)]
#[derive(Clone, Copy)]
pub struct RomtoolStat {
    pub error: u32,
    pub ino: u32,
    pub kind: u32,
    pub mode: u32,
    pub uid: u32,
    pub gid: u32,
    pub size: u32,
    pub major: u32,
    pub minor: u32,
}

/// The offset and the length of bytes in the image, or the number of an error.
#[repr(C)]
#[derive(Clone, Copy)]
pub struct RomtoolPlace {
    pub error: u32,
    pub at: u32,
    pub len: u64,
}

/// Returns the number of a kind, from 1 to 7.
pub(crate) fn number_of(kind: Kind) -> u32
    ensures { result ≡ kind_number kind }
{
    match kind {
        Kind::Directory => 1,
        Kind::Regular => 2,
        Kind::Symlink => 3,
        Kind::Block => 4,
        Kind::Character => 5,
        Kind::Socket => 6,
        Kind::Fifo => 7,
    }
}

/// Returns no node, with an error.
pub(crate) fn no_node(error: u32) -> RomtoolNode
    ensures { result ≡ no_node_reported error }
{
    RomtoolNode { error, node: 0 }
}

/// Returns no stat, with an error.
pub(crate) fn no_stat(error: u32) -> RomtoolStat
    ensures { result ≡ no_stat_reported error }
{
    RomtoolStat {
        error,
        ino: 0,
        kind: 0,
        mode: 0,
        uid: 0,
        gid: 0,
        size: 0,
        major: 0,
        minor: 0,
    }
}

/// Returns no offset, with an error.
pub(crate) fn no_place(error: u32) -> RomtoolPlace
    ensures { result ≡ no_place_reported error }
{
    RomtoolPlace {
        error,
        at: 0,
        len: 0,
    }
}

/// Returns a kind and numbers in the form for C.
pub(crate) fn shown(stat: Stat) -> RomtoolStat
    ensures { result ≡ stat_reported stat }
{
    RomtoolStat {
        error: 0,
        ino: stat.ino,
        kind: number_of(stat.kind),
        mode: stat.mode,
        uid: stat.uid,
        gid: stat.gid,
        size: stat.size,
        major: stat.major,
        minor: stat.minor,
    }
}

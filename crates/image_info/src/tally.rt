//! The names of a tree, counted by the kinds of their nodes.
ghost use Rattle.std.specs.Prelude.{◌≡◌, ◌+◌, ◌<◌, ◌≤◌, ◌^◌, ◌&&◌, length, IfOk, if◌then◌else◌};
ghost use Rattle.rom_tree.specs.Tree.{IsShallow};
ghost use Rattle.rom_tree.specs.Names.{names};
ghost use Rattle.image_info.specs.Tallies.{is_file, is_directory, is_symlink, is_other, tally_of};

use rom_fields::OutOfMemory;
use rom_tree::{Kind, Stat, TreeImage, Walk};
use std::alloc::Global;
use std::collections::BTreeSet;

/// The numbers of names that lead to regular files, directories, symbolic links and other nodes,
/// and the number of bytes of all files, each counted once.
#[derive(Clone, Copy)]
pub struct Tally {
    pub files: u64,
    pub directories: u64,
    pub links: u64,
    pub others: u64,
    pub contents: u64,
}

/// The counts with one more name. `fresh` is whether its node is new; only then its bytes are
/// counted.
fn counted(tally: Tally, stat: Stat, fresh: bool) -> Tally
    requires few { tally.files + tally.directories + tally.links + tally.others < 2 ^ 32 }
    requires room { tally.contents + stat.size < 2 ^ 64 }
    ensures files { result.files ≡ tally.files + (if is_file stat.kind then 1 else 0) }
    ensures directories { result.directories
        ≡ tally.directories + (if is_directory stat.kind then 1 else 0) }
    ensures links { result.links ≡ tally.links + (if is_symlink stat.kind then 1 else 0) }
    ensures others { result.others ≡ tally.others + (if is_other stat.kind then 1 else 0) }
    ensures contents { result.contents
        ≡ tally.contents + (if is_file stat.kind && fresh then stat.size else 0) }
{
    let mut more = tally;
    match stat.kind {
        Kind::Regular => {
            more.files += 1;
            if fresh {
                more.contents += stat.size as u64;
            }
        }
        Kind::Directory => more.directories += 1,
        Kind::Symlink => more.links += 1,
        Kind::Block | Kind::Character | Kind::Socket | Kind::Fifo => more.others += 1,
    }
    more
}

/// Counts the names of an image's tree. It keeps the numbers of the nodes that it has met.
pub(crate) fn count_names<'a, T: TreeImage<'a>>(
    alloc: Global,
    image: &T,
) -> Result<Tally, OutOfMemory>
    requires depth { IsShallow (T.image image.now).tree }
    requires few { length (names (T.image image.now).tree) ≤ 2 ^ 32 }
    ensures { IfOk result (λ t. t ≡ tally_of (names (T.image image.now).tree)) }
{
    let mut tally = Tally {
        files: 0,
        directories: 0,
        links: 0,
        others: 0,
        contents: 0,
    };
    let mut met = BTreeSet::new(alloc);
    let mut walk = Walk::new();
    while let Some(node) = walk.next(image) {
        let stat = image.stat(node);
        let fresh = met.insert(stat.ino)?;
        tally = counted(tally, stat, fresh);
    }
    Ok(tally)
}

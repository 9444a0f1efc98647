//! What is made of the names of an image.
ghost use Rattle.std.specs.Prelude.{◌≡◌, ◌<◌, length, map, IfOk};
ghost use Rattle.rom_tree.specs.Image.{Image};
ghost use Rattle.image_manifest.specs.Chosen.{AreMadeBy};
ghost use Rattle.image_manifest.specs.ExtractedMembers.{made_of as made, members_in};
ghost use Rattle.image_manifest.specs.declared.giving.Giving.{Giving};
ghost use Rattle.image_manifest.specs.Describable.{IsLawfulTree};
ghost use Rattle.image_manifest.specs.Members.{AreMembers};
ghost use Rattle.tree_extract.specs.Choices.{IsFit, kinds_of};
ghost use Rattle.tree_extract.specs.Members.{kind_at};

use crate::choosing::chosen;
use crate::naming::Member;
use path_patterns::Piece;
use rom_tree::{Kind as NodeKind, TreeImage};
use std::alloc::{AllocError, Global};
use tree_extract::{Kind, choose};

/// Returns what is made of a node of this kind, by the index of an earlier name of it.
fn made_of(kind: NodeKind, first: Option<usize>) -> Kind
    ensures { result ≡ made kind first }
{
    match kind {
        NodeKind::Directory => Kind::Directory,
        NodeKind::Regular => match first {
            Some(first) => Kind::Further(first),
            None => Kind::File,
        },
        NodeKind::Symlink => Kind::Symlink,
        NodeKind::Block => Kind::Nothing,
        NodeKind::Character => Kind::Nothing,
        NodeKind::Socket => Kind::Nothing,
        NodeKind::Fifo => Kind::Nothing,
    }
}

/// Returns what is made of the member at an index. The directory that is extracted into exists, so
/// nothing is made of the root.
fn kind_of<'a, T: TreeImage<'a>>(image: &T, members: &[Member<'a>], index: usize) -> Kind
    requires within { index < length members.now }
    requires are { AreMembers (T.image image.now) members.now }
    ensures { (g : Giving) → result ≡ kind_at (members_in g (T.image image.now)) index }
{
    if index == 0 {
        return Kind::Nothing;
    }
    let found = members[index];
    made_of(image.stat(found.node).kind, found.first)
}

/// Returns what is made of all members.
fn all_kinds<'a, T: TreeImage<'a>>(
    alloc: Global,
    image: &T,
    members: &[Member<'a>],
) -> Result<Vec<Kind>, AllocError>
    requires { AreMembers (T.image image.now) members.now }
    ensures { IfOk result (λ v. (g : Giving)
        → v.items ≡ kinds_of (members_in g (T.image image.now))) }
{
    let mut kinds = Vec::new(alloc);
    for index in 0..members.len() {
        kinds.push(kind_of(image, members, index))?;
    }
    Ok(kinds)
}

/// Returns what is made of the members of an image, which are those that `image_manifest::members`
/// returns. Without patterns all are made; otherwise those whose paths a pattern matches, all below
/// them, and the directories above them. The patterns are compared with a path without its first
/// slash. The first name that is made of a file is the file, and each other one is a further name.
///
/// # Errors
///
/// Memory was refused.
pub fn kinds_made<'a, T: TreeImage<'a>>(
    alloc: Global,
    image: &T,
    members: &[Member<'a>],
    patterns: &[Vec<Piece>],
) -> Result<Vec<Kind>, AllocError>
    requires are { AreMembers (T.image image.now) members.now }
    requires lawful { IsLawfulTree (T.image image.now).tree }
    ensures made { IfOk result (λ v. AreMadeBy (map (λ p. p.items) patterns.now)
        (T.image image.now) members.now v.items) }
    ensures fit { IfOk result (λ v. (g : Giving)
        → IsFit (members_in g (T.image image.now)) v.items) }
{
    let kinds = all_kinds(alloc, image, members)?;
    if patterns.is_empty() {
        return Ok(kinds);
    }
    let chosen = chosen(alloc, members, patterns)?;
    choose(alloc, &kinds, &chosen)
}

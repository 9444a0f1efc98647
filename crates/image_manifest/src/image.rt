//! An image as a tree that is extracted.
ghost use Rattle.std.specs.Prelude.{◌≡◌, ◌≢◌, ◌<◌, Some, length, map};
ghost use Rattle.image_manifest.specs.Members.{AreMembers};
ghost use Rattle.image_manifest.specs.Chosen.{AreMadeBy};
ghost use Rattle.image_manifest.specs.ExtractedMembers.{members_in};
ghost use Rattle.image_manifest.specs.declared.giving.Giving.{Giving as AGiving};
ghost use Rattle.tree_extract.specs.Choices.{IsFit};

use crate::composing::path_of;
use crate::giving::Giving;
use crate::naming::{Member, PATH_MAX};
use arrayvec::ArrayVec;
use image_info::cat;
use path_patterns::Piece;
use rom_fields::{ByteWrite, Failed};
use rom_tree::{NodeId, Stat, TreeImage, link_text};
use tree_extract::{Kind, Rights, Tree};

/// An image, its members, which are those that `image_manifest::members` returns, the patterns that
/// choose some of them, what is made of them, as `kinds_made` returns it, and the rights that they
/// get.
#[derive(Drop)]
pub struct ImageTree<'b, 'a, T: TreeImage<'a>> {
    pub image: &'b T,
    pub members: &'b [Member<'a>],
    pub patterns: &'b [Vec<Piece>],
    pub kinds: &'b [Kind],
    pub giving: Giving,
    ghost are: { AreMembers (T.image image.now) members.now },
    ghost made: { ∥ AreMadeBy (map (λ p. p.items) patterns.now) (T.image image.now) members.now
        kinds.now ∥₁ },
    ghost fit: { (g : AGiving) → IsFit (members_in g (T.image image.now)) kinds.now },
}

impl<'b, 'a, T: TreeImage<'a>> ImageTree<'b, 'a, T> {
    ghost use Rattle.image_manifest.specs.ExtractedKnown.{IsKnown};
    ghost use Rattle.image_manifest.specs.ExtractedMembers.{made_in, node_at, stat_at};
    ghost use Rattle.rom_tree.specs.Image.{image_node};
    ghost use Rattle.tree_extract.specs.Choices.{kind_in};
    ghost use Rattle.tree_extract.specs.Members.{path_at, rights_at};

    /// Replaces what the buffer has by the path of the member at an index. The root's is a slash.
    pub fn path(&self, index: usize, path: &mut ArrayVec<u8, PATH_MAX>)
        requires { index < length (made_in self.now.giving (T.image self.now.image.now)
            self.now.kinds.now) }
        ensures { path.new.items
            ≡ path_at (made_in self.now.giving (T.image self.now.image.now)
            self.now.kinds.now) index }
    {
        path_of(self.members, index, path);
    }

    /// Returns the attributes of the node of the member at an index.
    pub fn stat(&self, index: usize) -> Stat
        requires { index < length (made_in self.now.giving (T.image self.now.image.now)
            self.now.kinds.now) }
        ensures { result ≡ stat_at (T.image self.now.image.now) index }
    {
        let node = self.node(index);
        self.image.stat(node)
    }

    /// Returns the rights that the member at an index gets.
    pub fn rights(&self, index: usize) -> Rights
        requires { index < length (made_in self.now.giving (T.image self.now.image.now)
            self.now.kinds.now) }
        ensures { result
            ≡ rights_at (made_in self.now.giving (T.image self.now.image.now)
            self.now.kinds.now) index }
    {
        let stat = self.stat(index);
        self.giving.rights(stat)
    }

    /// Returns the node of the member at an index.
    fn node(&self, index: usize) -> NodeId
        requires { index < length self.now.members.now }
        ensures { image_node (T.image self.now.image.now) result.0
            ≡ Some (node_at (T.image self.now.image.now) index) }
    {
        self.members[index].node
    }

    /// Returns what is made of the member at an index.
    fn made(&self, index: usize) -> Kind
        requires { index < length self.now.kinds.now }
        ensures { result ≡ kind_in self.now.kinds.now index }
    {
        self.kinds[index]
    }

    /// Returns the member at an index that is not the root's.
    fn member(&self, index: usize) -> Member<'a>
        requires within { index < length self.now.members.now }
        requires inner { index ≢ 0 }
        ensures { IsKnown self.now.giving (T.image self.now.image.now) index result }
    {
        self.members[index]
    }
}

impl<'b, 'a, T: TreeImage<'a>> Tree for ImageTree<'b, 'a, T> {
    ghost use Rattle.image_manifest.specs.ExtractedMembers.{made_in};

    ghost members = { λ s. made_in s.giving (T.image s.image.now) s.kinds.now };

    fn len(&self) -> usize {
        self.members.len()
    }

    fn kind(&self, index: usize) -> Kind {
        self.made(index)
    }

    fn write_contents<W: ByteWrite>(&self, index: usize, w: &mut W) -> Result<(), Failed> {
        let found = self.member(index);
        cat(self.image, found.node, w)
    }

    fn link_text(&self, index: usize) -> &[u8] {
        let found = self.member(index);
        let text: &'a [u8] = link_text(self.image, found.node);
        text
    }
}

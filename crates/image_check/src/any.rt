//! An image of either format.
ghost use Rattle.std.specs.Prelude.{◌≡◌};
ghost use Rattle.image_check.specs.Any.{any_view, report_of};

use cramfs_format::superblock::accessible_size;
use cramfs_image::{Cramfs, Parts as CramfsParts};
use formats::Format;
use rom_tree::{Cursor, Entry, NodeId, Report, Run, Stat, TreeImage, Viewed};
use romfs_format::superblock::stated_size;
use romfs_image::{Parts as RomfsParts, Romfs};

/// A checked image of one of the two formats.
#[derive(Drop)]
pub enum AnyImage<'a> {
    /// A romfs image.
    Romfs(Romfs<'a>),
    /// A cramfs image.
    Cramfs(Cramfs<'a>),
}

/// The numbers that make a checked image again from its bytes.
#[derive(Clone, Copy)]
pub enum Parts {
    /// Those of a romfs image.
    Romfs(RomfsParts),
    /// Those of a cramfs image.
    Cramfs(CramfsParts),
}

impl Viewed for AnyImage<'_> {
    ghost image = { λ a. any_view a };
}

impl<'a> TreeImage<'a> for AnyImage<'a> {
    ghost use Rattle.std.specs.Prelude.{Some, None, MatchOption};
    ghost use Rattle.rom_tree.specs.Tree.{Node, places_of, entries_of, ino_of};
    ghost use Rattle.rom_tree.specs.Image.{image_node, find_entry, HasNode, HasDirectory, GivesRun};
    ghost use Rattle.rom_tree.specs.Image.{GivesWhole};
    ghost use Rattle.image_check.specs.Any.{GivesPart};

    fn bytes(&self) -> &'a [u8] {
        match self {
            AnyImage::Romfs(image) => image.bytes(),
            AnyImage::Cramfs(image) => image.bytes(),
        }
    }

    fn root(&self) -> NodeId {
        match self {
            AnyImage::Romfs(image) => image.root(),
            AnyImage::Cramfs(image) => image.root(),
        }
    }

    fn is_node(&self, n: NodeId) -> bool {
        match self {
            AnyImage::Romfs(image) => image.is_node(n),
            AnyImage::Cramfs(image) => image.is_node(n),
        }
    }

    fn stat(&self, n: NodeId) -> Stat {
        match self {
            AnyImage::Romfs(image) => image.stat(n),
            AnyImage::Cramfs(image) => image.stat(n),
        }
    }

    fn entry(&self, d: NodeId, c: Cursor) -> Option<Entry<'a>> {
        match self {
            AnyImage::Romfs(image) => image.entry(d, c),
            AnyImage::Cramfs(image) => image.entry(d, c),
        }
    }

    /// Does not change the report.
    fn lookup(&mut self, d: NodeId, name: &[u8]) -> Option<NodeId>
        requires { HasDirectory (any_view self.old) d.0 }
        ensures stays { any_view self.new ≡ any_view self.old }
        ensures found { (x : Node) → image_node (any_view self.old) d.0 ≡ Some x
            → MatchOption result (find_entry (entries_of x) name.now ≡ None)
            (λ n. (y : Node) × (find_entry (entries_of x) name.now ≡ Some y) × (ino_of y ≡ n.0)) }
        ensures report { report_of self.new ≡ report_of self.old }
    {
        match self {
            AnyImage::Romfs(image) => image.lookup(d, name),
            AnyImage::Cramfs(image) => image.lookup(d, name),
        }
    }

    /// Returns a run with the rest of the file (romfs), or of the block of 4096 bytes (cramfs).
    fn run(&self, n: NodeId, off: u64) -> Option<Run>
        requires { HasNode (any_view self.now) n.0 }
        ensures row { (x : Node) → image_node (any_view self.now) n.0 ≡ Some x
            → GivesRun (places_of x) off result }
        ensures whole { (x : Node) → image_node (any_view self.now) n.0 ≡ Some x
            → GivesWhole x off result }
        ensures part { (x : Node) → image_node (any_view self.now) n.0 ≡ Some x
            → GivesPart self.now (places_of x) off result }
    {
        match self {
            AnyImage::Romfs(image) => image.run(n, off),
            AnyImage::Cramfs(image) => image.run(n, off),
        }
    }
}

impl<'a> AnyImage<'a> {
    ghost use Rattle.std.specs.Prelude.{ℕ, List};
    ghost use Rattle.formats.specs.Begins.{Begins};
    ghost use Rattle.formats.specs.Format.{format_of};
    ghost use Rattle.image_check.specs.Any.{image_format, size_of};
    ghost use Rattle.image_check.specs.Checked.{HasFormat};
    ghost use Rattle.image_check.specs.Parts.{AreParts, NameFormat, tree_of_parts};
    ghost use Rattle.image_check.specs.Parts.{cursors_of_parts, report_of_parts};

    /// Returns the format of the image.
    pub fn format(&self) -> Format
        ensures is { result ≡ image_format self.now }
        ensures begins { (all : List ℕ) → HasFormat all self.now → Begins (format_of result) all }
    {
        match self {
            AnyImage::Romfs(_) => Format::Romfs,
            AnyImage::Cramfs(image) => Format::of_order(image.parts().order),
        }
    }

    /// Returns the number of accessible bytes of the image: the size that its superblock states, or
    /// of a cramfs image that states none, the number of its bytes, up to 2^28.
    pub fn size(&self) -> u32
        ensures { result ≡ size_of self.now }
    {
        match self {
            AnyImage::Romfs(image) => stated_size(image.bytes()),
            AnyImage::Cramfs(image) => accessible_size(image.parts().order, image.bytes()),
        }
    }

    /// Returns its numbers, by which `again` makes an image of the same bytes.
    pub fn parts(&self) -> Parts
        ensures are { AreParts (any_view self.now).bytes result }
        ensures tree { (any_view self.now).tree ≡ tree_of_parts (any_view self.now).bytes result }
        ensures report { report_of_parts result ≡ report_of self.now }
        ensures format { (all : List ℕ) → HasFormat all self.now → NameFormat all result }
    {
        match self {
            AnyImage::Romfs(image) => Parts::Romfs(image.parts()),
            AnyImage::Cramfs(image) => Parts::Cramfs(image.parts()),
        }
    }

    /// Makes the image of these bytes again from numbers that a check found. Reads nothing.
    pub fn again(all: &'a [u8], parts: Parts) -> AnyImage<'a>
        requires { AreParts all.now parts }
        ensures bytes { (any_view result).bytes ≡ all.now }
        ensures tree { (any_view result).tree ≡ tree_of_parts all.now parts }
        ensures cursors { (any_view result).cursor_index ≡ cursors_of_parts all.now parts }
    {
        match parts {
            Parts::Romfs(parts) => AnyImage::Romfs(Romfs::again(all, parts)),
            Parts::Cramfs(parts) => AnyImage::Cramfs(Cramfs::again(all, parts)),
        }
    }

    /// Returns the number of references of the image, including the superblock's, and the greatest
    /// number of names from the root to a node.
    pub fn report(&self) -> Report
        ensures { result ≡ report_of self.now }
    {
        match self {
            AnyImage::Romfs(image) => image.report(),
            AnyImage::Cramfs(image) => image.report(),
        }
    }
}

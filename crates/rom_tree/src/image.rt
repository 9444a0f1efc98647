//! Images as trees of files, and the answers of their calls.
ghost use Rattle.std.specs.Prelude.{◌≡◌, ℕ, ◌+◌, ◌<◌, ◌≤◌, ◌↔◌, length, Some, None, Option, IsTrue};
ghost use Rattle.std.specs.Prelude.{IsSome, MatchOption, take, drop};
ghost use Rattle.rom_tree.specs.Tree.{Node, ino_of, is_directory, entries_of, entry_at, places_of};
ghost use Rattle.rom_tree.specs.Tree.{is_link, is_regular};
ghost use Rattle.rom_tree.specs.Image.{Image, image_node, HasNode, HasDirectory, HasLink};
ghost use Rattle.rom_tree.specs.Image.{HasCursor, stat_of, find_entry, contents_of, IsEntry};
ghost use Rattle.rom_tree.specs.Image.{GivesRun, GivesWhole};

use crate::types::{Cursor, Entry, Kind, NodeId, Run, Stat};

/// A value that is viewed as an image.
pub trait Viewed: Drop {
    // Its bytes, its tree, and the index of each cursor.
    ghost image: { Self → Image };
}

/// An image whose every answer is that of its one tree. `n` and `d` are numbers of its nodes, and
/// `d` is that of a directory. A cursor is `Cursor::START` or came from an entry of `d`.
pub trait TreeImage<'a>: Viewed {
    /// Returns all bytes of the image.
    fn bytes(&self) -> &'a [u8]
        ensures { result.now ≡ (Self.image self.now).bytes };

    /// Returns the root of the tree.
    fn root(&self) -> NodeId
        ensures { result.0 ≡ ino_of (Self.image self.now).tree };

    /// Returns whether the tree has a node of this number.
    fn is_node(&self, n: NodeId) -> bool
        ensures { IsTrue result ↔ HasNode (Self.image self.now) n.0 };

    /// Returns a node's kind and numbers.
    fn stat(&self, n: NodeId) -> Stat
        requires { HasNode (Self.image self.now) n.0 }
        ensures { (x : Node) → image_node (Self.image self.now) n.0 ≡ Some x → result ≡ stat_of x };

    /// Returns the entry at a cursor of a directory's list, or `None` at the list's end.
    fn entry(&self, d: NodeId, c: Cursor) -> Option<Entry<'a>>
        requires directory { HasDirectory (Self.image self.now) d.0 }
        requires cursor { HasCursor (Self.image self.now) d.0 c.0 }
        ensures { (x : Node) (i : ℕ) → image_node (Self.image self.now) d.0 ≡ Some x
            → (Self.image self.now).cursor_index d.0 c.0 ≡ Some i
            → MatchOption result (entry_at (entries_of x) i ≡ None)
            (λ e. IsEntry (Self.image self.now) d.0
            (entries_of x) i e.name.now e.node.0 e.cursor.0) };

    /// Returns the node of the first entry with exactly this name, or `None` if the directory has
    /// no such entry. The image does not change.
    fn lookup(&mut self, d: NodeId, name: &[u8]) -> Option<NodeId>
        requires { HasDirectory (Self.image self.old) d.0 }
        ensures stays { Self.image self.new ≡ Self.image self.old }
        ensures found { (x : Node) → image_node (Self.image self.old) d.0 ≡ Some x
            → MatchOption result (find_entry (entries_of x) name.now ≡ None)
            (λ n. (y : Node) × (find_entry (entries_of x) name.now ≡ Some y) × (ino_of y ≡ n.0)) };

    /// Returns the offset of byte `off` of a file or a link, and a number of bytes, at least one,
    /// that follow one another from there. Returns `None` if the node has no such byte. From 0 on,
    /// a link's run has its whole text.
    fn run(&self, n: NodeId, off: u64) -> Option<Run>
        requires { HasNode (Self.image self.now) n.0 }
        ensures row { (x : Node) → image_node (Self.image self.now) n.0 ≡ Some x
            → GivesRun (places_of x) off result }
        ensures whole { (x : Node) → image_node (Self.image self.now) n.0 ≡ Some x
            → GivesWhole x off result };
}

/// Returns whether a node is a directory.
pub fn is_directory_at<'a, T: TreeImage<'a>>(image: &T, n: NodeId) -> bool
    requires { HasNode (T.image image.now) n.0 }
    ensures { (x : Node) → image_node (T.image image.now) n.0 ≡ Some x → result ≡ is_directory x }
{
    match image.stat(n).kind {
        Kind::Directory => true,
        _ => false,
    }
}

/// Returns whether a node is a symbolic link.
pub fn is_link_at<'a, T: TreeImage<'a>>(image: &T, n: NodeId) -> bool
    requires { HasNode (T.image image.now) n.0 }
    ensures { (x : Node) → image_node (T.image image.now) n.0 ≡ Some x → result ≡ is_link x }
{
    match image.stat(n).kind {
        Kind::Symlink => true,
        _ => false,
    }
}

/// Returns whether a node is a regular file.
pub fn is_regular_at<'a, T: TreeImage<'a>>(image: &T, n: NodeId) -> bool
    requires { HasNode (T.image image.now) n.0 }
    ensures { (x : Node) → image_node (T.image image.now) n.0 ≡ Some x → result ≡ is_regular x }
{
    match image.stat(n).kind {
        Kind::Regular => true,
        _ => false,
    }
}

/// Returns the `len` bytes from offset `place` on.
pub fn bytes_from<'a>(bytes: &'a [u8], place: u32, len: u32) -> &'a [u8]
    requires { place + len ≤ length bytes.now }
    ensures { result.now ≡ take len (drop place bytes.now) }
{
    &bytes[place as usize..place as usize + len as usize]
}

/// Returns the text of a symbolic link.
pub fn link_text<'a, T: TreeImage<'a>>(image: &T, n: NodeId) -> &'a [u8]
    requires { HasLink (T.image image.now) n.0 }
    ensures { (x : Node) → image_node (T.image image.now) n.0 ≡ Some x
        → result.now ≡ contents_of (T.image image.now).bytes x }
{
    let bytes = image.bytes();
    match image.run(n, 0) {
        Some(run) => bytes_from(bytes, run.place, run.len),
        None => &[],
    }
}

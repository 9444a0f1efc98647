//! The lines of one path.
ghost use Rattle.std.specs.Prelude.{◌≡◌, ◌||◌, ◌++◌, ◌∷◌, [], Some, decimal};
ghost use Rattle.std.specs.Prelude.{if◌then◌else◌};
ghost use Rattle.rom_fields.specs.Texts.{escaped};
ghost use Rattle.rom_fields.specs.Written.{Puts, sink};
ghost use Rattle.rom_tree.specs.Listing.{kind_letter};
ghost use Rattle.rom_tree.specs.Tree.{Node, kind_of};
ghost use Rattle.rom_tree.specs.Image.{image_node, HasNode, contents_of};
ghost use Rattle.image_check.specs.Any.{any_view};
ghost use Rattle.image_compare.specs.Diff.{added_line, alike_lines, attributes_line};
ghost use Rattle.image_compare.specs.Diff.{attributes_text};
ghost use Rattle.image_compare.specs.Diff.{contents_line, is_printed, moved_line, node_lines};
ghost use Rattle.image_compare.specs.Diff.{removed_line, same_attributes, start_line, start_of};
ghost use Rattle.image_compare.specs.Same.{AreSame};

use crate::same::Same;
use image_check::AnyImage;
use image_info::put_eight_digits;
use rom_fields::{ByteWrite, put, put_decimal, put_escaped, put_octal};
use rom_tree::{Kind, NodeId, Stat, TreeImage, is_regular_at};

/// The letter of a kind, as in a list.
fn letter_of(kind: Kind) -> u8
    ensures { result ≡ kind_letter kind }
{
    match kind {
        Kind::Directory => b'd',
        Kind::Regular => b'f',
        Kind::Symlink => b'l',
        Kind::Block => b'b',
        Kind::Character => b'c',
        Kind::Socket => b's',
        Kind::Fifo => b'p',
    }
}

/// Puts the line of a path that only the old image has.
pub(crate) fn put_removed<W: ByteWrite>(w: &mut W, failed: &mut bool, path: &[u8])
    ensures { Puts (sink (W.output w.old) failed.old)
        (sink (W.output w.new) failed.new) (removed_line path.now) }
{
    put(w, failed, b"- ");
    put_escaped(w, failed, path);
    put(w, failed, b"\n");
}

/// Puts the line of a path that only the new image has.
pub(crate) fn put_added<W: ByteWrite>(w: &mut W, failed: &mut bool, path: &[u8])
    ensures { Puts (sink (W.output w.old) failed.old)
        (sink (W.output w.new) failed.new) (added_line path.now) }
{
    put(w, failed, b"+ ");
    put_escaped(w, failed, path);
    put(w, failed, b"\n");
}

/// Puts the attributes of a node.
fn put_attributes<W: ByteWrite>(w: &mut W, failed: &mut bool, stat: Stat)
    ensures { Puts (sink (W.output w.old) failed.old)
        (sink (W.output w.new) failed.new) (attributes_text stat) }
{
    put(w, failed, &[letter_of(stat.kind), b'/']);
    put_octal(w, failed, stat.mode);
    put(w, failed, b"/");
    put_decimal(w, failed, stat.uid);
    put(w, failed, b"/");
    put_decimal(w, failed, stat.gid);
    put(w, failed, b"/");
    put_decimal(w, failed, stat.major);
    put(w, failed, b"/");
    put_decimal(w, failed, stat.minor);
}

/// Whether two nodes of one kind have the same attributes.
fn have_same_attributes(old: Stat, new: Stat) -> bool
    ensures { result ≡ same_attributes old new }
{
    old.mode == new.mode
        && old.uid == new.uid
        && old.gid == new.gid
        && old.major == new.major
        && old.minor == new.minor
}

/// Puts the line of attributes that differ, and returns whether they do.
fn put_changed<W: ByteWrite>(
    w: &mut W,
    failed: &mut bool,
    path: &[u8],
    old: Stat,
    new: Stat,
) -> bool
    ensures puts { Puts (sink (W.output w.old) failed.old)
        (sink (W.output w.new) failed.new) (attributes_line path.now old new) }
    ensures printed { result ≡ is_printed (attributes_line path.now old new) }
{
    if have_same_attributes(old, new) {
        return false;
    }
    put(w, failed, b"m ");
    put_escaped(w, failed, path);
    put(w, failed, b" ");
    put_attributes(w, failed, old);
    put(w, failed, b" ");
    put_attributes(w, failed, new);
    put(w, failed, b"\n");
    true
}

/// Puts the line of contents that differ and have these lengths.
fn put_contents<W: ByteWrite>(w: &mut W, failed: &mut bool, path: &[u8], old: u32, new: u32)
    ensures { Puts (sink (W.output w.old) failed.old) (sink (W.output w.new) failed.new)
        (99 ∷ 32 ∷ [] ++ (escaped path.now ++ (32 ∷ []
        ++ (decimal old ++ (32 ∷ [] ++ (decimal new ++ 10 ∷ [])))))) }
{
    put(w, failed, b"c ");
    put_escaped(w, failed, path);
    put(w, failed, b" ");
    put_decimal(w, failed, old);
    put(w, failed, b" ");
    put_decimal(w, failed, new);
    put(w, failed, b"\n");
}

/// Puts the line of contents that differ, and returns whether they do.
fn put_compared<W: ByteWrite>(
    old: &AnyImage<'_>,
    new: &AnyImage<'_>,
    same: &mut Same,
    w: &mut W,
    failed: &mut bool,
    path: &[u8],
    nodes: (NodeId, NodeId),
) -> bool
    requires old { HasNode (any_view old.now) nodes.0.0 }
    requires new { HasNode (any_view new.now) nodes.1.0 }
    requires same { AreSame (any_view old.now) (any_view new.now) same.old }
    ensures same { AreSame (any_view old.now) (any_view new.now) same.new }
    ensures puts { (p q : Node) → image_node (any_view old.now) nodes.0.0 ≡ Some p
        → image_node (any_view new.now) nodes.1.0 ≡ Some q
        → Puts (sink (W.output w.old) failed.old) (sink (W.output w.new) failed.new)
        (contents_line path.now (contents_of (any_view old.now).bytes p)
        (contents_of (any_view new.now).bytes q)) }
    ensures printed { (p q : Node) → image_node (any_view old.now) nodes.0.0 ≡ Some p
        → image_node (any_view new.now) nodes.1.0 ≡ Some q
        → result ≡ is_printed (contents_line path.now (contents_of (any_view old.now).bytes p)
        (contents_of (any_view new.now).bytes q)) }
{
    let (x, y) = nodes;
    if same.have(old, new, x, y) {
        return false;
    }
    put_contents(w, failed, path, old.stat(x).size, new.stat(y).size);
    true
}

/// Returns the offset of the first byte of a regular file, or `None` if it has no byte or is of
/// another kind.
fn start<'a, T: TreeImage<'a>>(image: &T, n: NodeId) -> Option<u32>
    requires { HasNode (T.image image.now) n.0 }
    ensures { (x : Node) → image_node (T.image image.now) n.0 ≡ Some x → result ≡ start_of x }
{
    if !is_regular_at(image, n) {
        return None;
    }
    match image.run(n, 0) {
        Some(run) => Some(run.place),
        None => None,
    }
}

/// Puts the line of a file whose first byte moved, and returns whether it did.
fn put_moved<W: ByteWrite>(
    w: &mut W,
    failed: &mut bool,
    path: &[u8],
    old: Option<u32>,
    new: Option<u32>,
) -> bool
    ensures puts { Puts (sink (W.output w.old) failed.old)
        (sink (W.output w.new) failed.new) (start_line path.now old new) }
    ensures printed { result ≡ is_printed (start_line path.now old new) }
{
    let (Some(old), Some(new)) = (old, new) else {
        return false;
    };
    put_move(w, failed, path, old, new)
}

/// Puts the line of two offsets that differ, and returns whether they do.
fn put_move<W: ByteWrite>(w: &mut W, failed: &mut bool, path: &[u8], old: u32, new: u32) -> bool
    ensures puts { Puts (sink (W.output w.old) failed.old)
        (sink (W.output w.new) failed.new) (moved_line path.now old new) }
    ensures printed { result ≡ is_printed (moved_line path.now old new) }
{
    if old == new {
        return false;
    }
    put(w, failed, b"@ ");
    put_escaped(w, failed, path);
    put(w, failed, b" 0x");
    put_eight_digits(w, failed, u64::from(old));
    put(w, failed, b" 0x");
    put_eight_digits(w, failed, u64::from(new));
    put(w, failed, b"\n");
    true
}

/// Puts the line of a file whose first byte moved if offsets are asked for, and returns whether it
/// did.
fn put_places<'a, T: TreeImage<'a>, W: ByteWrite>(
    old: &T,
    new: &T,
    places: bool,
    w: &mut W,
    failed: &mut bool,
    path: &[u8],
    nodes: (NodeId, NodeId),
) -> bool
    requires old { HasNode (T.image old.now) nodes.0.0 }
    requires new { HasNode (T.image new.now) nodes.1.0 }
    ensures puts { (p q : Node) → image_node (T.image old.now) nodes.0.0 ≡ Some p
        → image_node (T.image new.now) nodes.1.0 ≡ Some q
        → Puts (sink (W.output w.old) failed.old) (sink (W.output w.new) failed.new)
        (if places then start_line path.now (start_of p) (start_of q) else []) }
    ensures printed { (p q : Node) → image_node (T.image old.now) nodes.0.0 ≡ Some p
        → image_node (T.image new.now) nodes.1.0 ≡ Some q
        → result ≡ is_printed
        (if places then start_line path.now (start_of p) (start_of q) else []) }
{
    if !places {
        return false;
    }
    let (x, y) = nodes;
    put_moved(w, failed, path, start(old, x), start(new, y))
}

/// Whether at least one of three is true.
fn any(one: bool, two: bool, three: bool) -> bool
    ensures { result ≡ (one || (two || three)) }
{
    one || two || three
}

/// Puts the lines of two nodes of one kind, and returns whether there are any.
fn put_alike<W: ByteWrite>(
    old: &AnyImage<'_>,
    new: &AnyImage<'_>,
    same: &mut Same,
    places: bool,
    w: &mut W,
    failed: &mut bool,
    path: &[u8],
    nodes: (NodeId, NodeId),
) -> bool
    requires old { HasNode (any_view old.now) nodes.0.0 }
    requires new { HasNode (any_view new.now) nodes.1.0 }
    requires same { AreSame (any_view old.now) (any_view new.now) same.old }
    ensures same { AreSame (any_view old.now) (any_view new.now) same.new }
    ensures puts { (p q : Node) → image_node (any_view old.now) nodes.0.0 ≡ Some p
        → image_node (any_view new.now) nodes.1.0 ≡ Some q
        → Puts (sink (W.output w.old) failed.old) (sink (W.output w.new) failed.new)
        (alike_lines places (any_view old.now).bytes (any_view new.now).bytes path.now p q) }
    ensures printed { (p q : Node) → image_node (any_view old.now) nodes.0.0 ≡ Some p
        → image_node (any_view new.now) nodes.1.0 ≡ Some q → result ≡ is_printed
        (alike_lines places (any_view old.now).bytes (any_view new.now).bytes path.now p q) }
{
    let (x, y) = nodes;
    let changed = put_changed(w, failed, path, old.stat(x), new.stat(y));
    let rewritten = put_compared(old, new, same, w, failed, path, nodes);
    let moved = put_places(old, new, places, w, failed, path, nodes);
    any(changed, rewritten, moved)
}

/// Puts the lines of a path at which both images have a node, and returns whether there are any.
pub(crate) fn put_nodes<W: ByteWrite>(
    old: &AnyImage<'_>,
    new: &AnyImage<'_>,
    same: &mut Same,
    places: bool,
    w: &mut W,
    failed: &mut bool,
    path: &[u8],
    nodes: (NodeId, NodeId),
) -> bool
    requires old { HasNode (any_view old.now) nodes.0.0 }
    requires new { HasNode (any_view new.now) nodes.1.0 }
    requires same { AreSame (any_view old.now) (any_view new.now) same.old }
    ensures same { AreSame (any_view old.now) (any_view new.now) same.new }
    ensures puts { (p q : Node) → image_node (any_view old.now) nodes.0.0 ≡ Some p
        → image_node (any_view new.now) nodes.1.0 ≡ Some q
        → Puts (sink (W.output w.old) failed.old) (sink (W.output w.new) failed.new)
        (node_lines places (any_view old.now).bytes (any_view new.now).bytes path.now p q) }
    ensures printed { (p q : Node) → image_node (any_view old.now) nodes.0.0 ≡ Some p
        → image_node (any_view new.now) nodes.1.0 ≡ Some q → result ≡ is_printed
        (node_lines places (any_view old.now).bytes (any_view new.now).bytes path.now p q) }
{
    let (x, y) = nodes;
    if letter_of(old.stat(x).kind) == letter_of(new.stat(y).kind) {
        return put_alike(old, new, same, places, w, failed, path, nodes);
    }
    put_removed(w, failed, path);
    put_added(w, failed, path);
    true
}

//! The line of one node.
ghost use Rattle.std.specs.Prelude.{◌≡◌, Some};
ghost use Rattle.rom_fields.specs.Texts.{escaped};
ghost use Rattle.rom_fields.specs.Written.{Puts, sink};
ghost use Rattle.rom_tree.specs.Tree.{Node};
ghost use Rattle.rom_tree.specs.Image.{image_node, HasNode};
ghost use Rattle.rom_tree.specs.Listing.{kind_letter, stat_text, line, target_text};
ghost use Rattle.rom_tree.specs.Walks.{given_path};

use crate::frame::Walk;
use crate::image::{TreeImage, is_link_at, link_text};
use crate::types::{Kind, NodeId, Stat};
use rom_fields::{ByteWrite, put, put_decimal, put_escaped, put_octal};

/// Puts a space and the text of a symbolic link, and nothing for other nodes.
fn put_target<'a, T: TreeImage<'a>, W: ByteWrite>(
    image: &T,
    w: &mut W,
    failed: &mut bool,
    n: NodeId,
)
    requires { HasNode (T.image image.now) n.0 }
    ensures { (x : Node) → image_node (T.image image.now) n.0 ≡ Some x
        → Puts (sink (W.output w.old) failed.old)
        (sink (W.output w.new) failed.new) (target_text (T.image image.now).bytes x) }
{
    if is_link_at(image, n) {
        put(w, failed, b" ");
        put_escaped(w, failed, link_text(image, n));
    }
}

/// The letter of a kind.
fn letter_of(kind: Kind) -> u8
    ensures { result ≡ kind_letter kind }
{
    match kind {
        Kind::Directory => b'd',
        Kind::Regular => b'f',
        Kind::Symlink => b'l',
        Kind::Block => b'b',
        Kind::Character => b'c',
        Kind::Socket => b's',
        Kind::Fifo => b'p',
    }
}

/// Puts a node's numbers, `INO KIND MODE UID GID SIZE MAJOR MINOR`. KIND is the letter of the kind,
/// MODE has four octal digits, and the other numbers are decimal.
pub fn put_stat<W: ByteWrite>(w: &mut W, failed: &mut bool, stat: Stat)
    ensures { Puts (sink (W.output w.old) failed.old)
        (sink (W.output w.new) failed.new) (stat_text stat) }
{
    put_decimal(w, failed, stat.ino);
    let letter = letter_of(stat.kind);
    put(w, failed, &[b' ', letter, b' ']);
    put_octal(w, failed, stat.mode);
    put(w, failed, b" ");
    put_decimal(w, failed, stat.uid);
    put(w, failed, b" ");
    put_decimal(w, failed, stat.gid);
    put(w, failed, b" ");
    put_decimal(w, failed, stat.size);
    put(w, failed, b" ");
    put_decimal(w, failed, stat.major);
    put(w, failed, b" ");
    put_decimal(w, failed, stat.minor);
}

/// Puts the line of the node that a walk returned last.
pub fn put_line<'a, T: TreeImage<'a>, W: ByteWrite>(
    image: &T,
    w: &mut W,
    failed: &mut bool,
    n: NodeId,
    walk: &Walk<'a>,
)
    requires { HasNode (T.image image.now) n.0 }
    ensures { (x : Node) → image_node (T.image image.now) n.0 ≡ Some x
        → Puts (sink (W.output w.old) failed.old)
        (sink (W.output w.new) failed.new)
        (line (T.image image.now).bytes (escaped (given_path walk.now)) x) }
{
    put_stat(w, failed, image.stat(n));
    put(w, failed, b" ");
    walk.put_path(w, failed);
    put_target(image, w, failed, n);
    put(w, failed, b"\n");
}

//! The lines of a name that Linux misreads.
ghost use Rattle.std.specs.Prelude.{◌≡◌, Some};
ghost use Rattle.rom_fields.specs.Written.{sink};
ghost use Rattle.rom_tree.specs.Tree.{Node};
ghost use Rattle.rom_tree.specs.Image.{image_node, HasNode};
ghost use Rattle.rom_tree.specs.Names.{named, names};
ghost use Rattle.rom_tree.specs.Walks.{given_path, given_name};
ghost use Rattle.linux_misreads.specs.Tables.{AreFirst, kept_in, romfs_view, view};
ghost use Rattle.linux_misreads.specs.Misreads.{cramfs_lines, cramfs_name, in_cramfs, in_romfs};
ghost use Rattle.linux_misreads.specs.Misreads.{line_if, romfs_lines, romfs_name, Prints};

use crate::files::number_of;
use crate::inodes::name_room_at;
use crate::judged::{CramfsMisreads, RomfsMisreads, cramfs_misreads, romfs_misreads};
use crate::known::is_known_by_table;
use crate::nodes::{place_at, seen_in_cramfs, seen_in_romfs};
use crate::seen::{Known, text_at};
use cramfs_image::Cramfs;
use rom_fields::{ByteWrite, put};
use rom_tree::{NodeId, TreeImage, Walk};
use romfs_image::Romfs;
use std::collections::BTreeMap;

/// Puts a line if something is misread: a text, the path of the node that a walk returned last, and
/// a line feed.
fn put_line<'a, W: ByteWrite>(
    is_misread: bool,
    text: &[u8],
    w: &mut W,
    failed: &mut bool,
    printed: &mut bool,
    walk: &Walk<'a>,
)
    ensures { Prints (sink (W.output w.old) failed.old) (sink (W.output w.new) failed.new)
        printed.old printed.new
        (line_if is_misread text.now (given_path walk.now)) }
{
    if is_misread {
        put(w, failed, text);
        walk.put_path(w, failed);
        put(w, failed, b"\n");
        *printed = true;
    }
}

/// Puts the lines of what is misread in a name of a romfs image.
fn put_romfs_lines<'a, W: ByteWrite>(
    found: RomfsMisreads,
    w: &mut W,
    failed: &mut bool,
    printed: &mut bool,
    walk: &Walk<'a>,
)
    ensures { Prints (sink (W.output w.old) failed.old) (sink (W.output w.new) failed.new)
        printed.old printed.new (romfs_lines (given_path walk.now) found) }
{
    let (cut, long) = (found.name_cut, found.name_too_long);
    put_line(cut, b"linux 3 NameCut ", w, failed, printed, walk);
    put_line(long, b"linux 4 NameTooLong ", w, failed, printed, walk);
    put_line(found.device, b"linux 6 Device ", w, failed, printed, walk);
    let (zero, other) = (found.link_cut, found.other_place);
    put_line(zero, b"linux 8 LinkCut ", w, failed, printed, walk);
    put_line(other, b"linux 10 OtherPlace ", w, failed, printed, walk);
}

/// Puts the lines of what is misread in a name of a cramfs image.
fn put_cramfs_lines<'a, W: ByteWrite>(
    found: CramfsMisreads,
    w: &mut W,
    failed: &mut bool,
    printed: &mut bool,
    walk: &Walk<'a>,
)
    ensures { Prints (sink (W.output w.old) failed.old) (sink (W.output w.new) failed.new)
        printed.old printed.new (cramfs_lines (given_path walk.now) found) }
{
    let (block, table) = (found.last_block, found.shared_table);
    put_line(block, b"linux 1 LastBlock ", w, failed, printed, walk);
    put_line(table, b"linux 2 SharedTable ", w, failed, printed, walk);
    put_line(found.device, b"linux 6 Device ", w, failed, printed, walk);
    let (padded, zero, mode) = (found.name_padded, found.link_cut, found.root_mode);
    put_line(padded, b"linux 7 NamePadded ", w, failed, printed, walk);
    put_line(zero, b"linux 8 LinkCut ", w, failed, printed, walk);
    put_line(mode, b"linux 9 RootMode ", w, failed, printed, walk);
}

/// What Linux keeps of the first file that has the table of a node, if the node has one.
fn kept_at(image: &Cramfs<'_>, first: &BTreeMap<u32, Known>, n: NodeId) -> Option<Known>
    requires node { HasNode (view image.now) n.0 }
    requires first { AreFirst image.now (names (view image.now).tree) first.now }
    ensures { (x : Node) → image_node (view image.now) n.0 ≡ Some x
        → result ≡ kept_in image.now (names (view image.now).tree) x }
{
    if !is_known_by_table(image, n) {
        return None;
    }
    match first.get(&number_of(image, n)) {
        Some(kept) => Some(*kept),
        None => None,
    }
}

/// What is misread in a name of a romfs image.
fn found_in_romfs(image: &Romfs<'_>, n: NodeId, name: &[u8]) -> RomfsMisreads
    requires { HasNode (romfs_view image.now) n.0 }
    ensures { (x : Node) → image_node (romfs_view image.now) n.0 ≡ Some x
        → result ≡ in_romfs image.now name.now x }
{
    let (text, seen) = (text_at(image, n), seen_in_romfs(image, n));
    romfs_misreads(name, text, seen, place_at(image, n))
}

/// What is misread in a name of a cramfs image.
fn found_in_cramfs(
    image: &Cramfs<'_>,
    first: &BTreeMap<u32, Known>,
    n: NodeId,
    name: &[u8],
) -> CramfsMisreads
    requires node { HasNode (view image.now) n.0 }
    requires first { AreFirst image.now (names (view image.now).tree) first.now }
    ensures { (x : Node) → image_node (view image.now) n.0 ≡ Some x
        → result ≡ in_cramfs image.now (names (view image.now).tree) name.now x }
{
    let (text, seen) = (text_at(image, n), seen_in_cramfs(image, n));
    let room = name_room_at(image, n) as usize;
    cramfs_misreads(name, text, seen, room, kept_at(image, first, n))
}

/// Puts the lines of a name of a cramfs image.
pub(crate) fn put_cramfs_name<'a, W: ByteWrite>(
    image: &Cramfs<'a>,
    first: &BTreeMap<u32, Known>,
    w: &mut W,
    failed: &mut bool,
    printed: &mut bool,
    n: NodeId,
    walk: &Walk<'a>,
)
    requires node { HasNode (view image.now) n.0 }
    requires first { AreFirst image.now (names (view image.now).tree) first.now }
    ensures { (x : Node) → image_node (view image.now) n.0 ≡ Some x
        → Prints (sink (W.output w.old) failed.old) (sink (W.output w.new) failed.new)
        printed.old printed.new
        (cramfs_name image.now (names (view image.now).tree)
        (named (given_path walk.now) (given_name walk.now) x)) }
{
    let found = found_in_cramfs(image, first, n, walk.name());
    put_cramfs_lines(found, w, failed, printed, walk);
}

/// Puts the lines of a name of a romfs image.
pub(crate) fn put_romfs_name<'a, W: ByteWrite>(
    image: &Romfs<'a>,
    w: &mut W,
    failed: &mut bool,
    printed: &mut bool,
    n: NodeId,
    walk: &Walk<'a>,
)
    requires { HasNode (romfs_view image.now) n.0 }
    ensures { (x : Node) → image_node (romfs_view image.now) n.0 ≡ Some x
        → Prints (sink (W.output w.old) failed.old) (sink (W.output w.new) failed.new)
        printed.old printed.new
        (romfs_name image.now (named (given_path walk.now) (given_name walk.now) x)) }
{
    let found = found_in_romfs(image, n, walk.name());
    put_romfs_lines(found, w, failed, printed, walk);
}

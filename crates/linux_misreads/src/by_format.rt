//! What is looked for in an image of each format.
ghost use Rattle.std.specs.Prelude.{◌≡◌, ◌≤◌, IfOk, Some};
ghost use Rattle.rom_fields.specs.Written.{Puts, sink};
ghost use Rattle.rom_tree.specs.Tree.{Node, IsShallow};
ghost use Rattle.rom_tree.specs.Image.{image_node, HasNode};
ghost use Rattle.rom_tree.specs.Names.{named};
ghost use Rattle.rom_tree.specs.Walks.{given_path, given_name};
ghost use Rattle.image_check.specs.Any.{any_view};
ghost use Rattle.linux_misreads.specs.Tables.{AreFirstOf};
ghost use Rattle.linux_misreads.specs.Misreads.{is_printed, name_misreads, volume_misreads, Prints};

use crate::differences::is_root_missed;
use crate::files::first_of_tables;
use crate::names::{put_cramfs_name, put_romfs_name};
use crate::seen::Known;
use image_check::AnyImage;
use image_info::volume;
use rom_fields::{ByteWrite, OutOfMemory, put};
use rom_tree::{NodeId, Walk};
use std::alloc::Global;
use std::collections::BTreeMap;

/// Puts the line of a volume's name if Linux uses an offset within the name for the root. Returns
/// whether it does.
pub(crate) fn put_volume<W: ByteWrite>(image: &AnyImage<'_>, w: &mut W, failed: &mut bool) -> bool
    ensures puts { Puts (sink (W.output w.old) failed.old) (sink (W.output w.new) failed.new)
        (volume_misreads image.now) }
    ensures printed { result ≡ is_printed (volume_misreads image.now) }
{
    let name = volume(image);
    match image {
        AnyImage::Romfs(_) => {
            if is_root_missed(name) {
                put(w, failed, b"linux 5 Volume /\n");
                return true;
            }
            false
        }
        AnyImage::Cramfs(_) => false,
    }
}

/// The facts that Linux keeps of the first file of each table of a cramfs image. romfs has no
/// tables.
///
/// # Errors
///
/// `OutOfMemory` if memory is refused.
pub(crate) fn first_files(
    alloc: Global,
    image: &AnyImage<'_>,
) -> Result<BTreeMap<u32, Known>, OutOfMemory>
    requires { IsShallow (any_view image.now).tree }
    ensures { IfOk result (λ m. AreFirstOf image.now m) }
{
    match image {
        AnyImage::Romfs(_) => Ok(BTreeMap::new(alloc)),
        AnyImage::Cramfs(image) => first_of_tables(alloc, image),
    }
}

/// Puts the lines of the node that a walk returned last, if Linux misreads it.
pub(crate) fn put_misreads<'a, W: ByteWrite>(
    image: &AnyImage<'a>,
    first: &BTreeMap<u32, Known>,
    w: &mut W,
    failed: &mut bool,
    printed: &mut bool,
    n: NodeId,
    walk: &Walk<'a>,
)
    requires node { HasNode (any_view image.now) n.0 }
    requires first { AreFirstOf image.now first.now }
    ensures { (x : Node) → image_node (any_view image.now) n.0 ≡ Some x
        → Prints (sink (W.output w.old) failed.old) (sink (W.output w.new) failed.new)
        printed.old printed.new
        (name_misreads image.now (named (given_path walk.now) (given_name walk.now) x)) }
{
    match image {
        AnyImage::Romfs(image) => put_romfs_name(image, w, failed, printed, n, walk),
        AnyImage::Cramfs(image) => put_cramfs_name(image, first, w, failed, printed, n, walk),
    }
}

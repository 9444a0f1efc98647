//! The first file of each number.
ghost use Rattle.std.specs.Prelude.{◌≡◌, ◌≤◌, IfOk, ℕ, Some};
ghost use Rattle.std.specs.BTreeMap.{get};
ghost use Rattle.std.specs.Ordering.{nat_cmp};
ghost use Rattle.rom_tree.specs.Tree.{Node, IsShallow};
ghost use Rattle.rom_tree.specs.Image.{image_node, HasNode};
ghost use Rattle.rom_tree.specs.Names.{names};
ghost use Rattle.linux_misreads.specs.Tables.{AreFirst, either, one_known, number_in};
ghost use Rattle.linux_misreads.specs.Tables.{view};

use crate::inodes::{offset_field, size_field, type_field};
use crate::known::{is_known_by_table, kept_of};
use crate::seen::Known;
use cramfs_image::Cramfs;
use rom_fields::OutOfMemory;
use rom_tree::{NodeId, TreeImage, Walk};
use std::alloc::Global;
use std::collections::BTreeMap;

/// The number of a node in Linux: the offset of its data if it has any, otherwise one more than the
/// offset of its inode.
pub(crate) fn number_of(image: &Cramfs<'_>, n: NodeId) -> u32
    requires { HasNode (view image.now) n.0 }
    ensures { result ≡ number_in image.now n.0 }
{
    let offset = offset_field(image, n);
    if offset == 0 || size_field(image, n) == 0 {
        return n.0 + 1;
    }
    let kind = type_field(image, n);
    if kind == 8 || kind == 4 || kind == 10 {
        return offset;
    }
    n.0 + 1
}

/// Notes what Linux keeps of a node, if Linux knows the node by its table and nothing is noted for
/// the table yet.
///
/// # Errors
///
/// `OutOfMemory` if memory is refused.
fn note(first: &mut BTreeMap<u32, Known>, image: &Cramfs<'_>, n: NodeId) -> Result<(), OutOfMemory>
    requires { HasNode (view image.now) n.0 }
    ensures { IfOk result (λ _. (x : Node)
        → image_node (view image.now) n.0 ≡ Some x → (t : ℕ)
        → get nat_cmp first.new t ≡ either (get nat_cmp first.old t) (one_known image.now t x)) }
{
    if !is_known_by_table(image, n) {
        return Ok(());
    }
    let number = number_of(image, n);
    if !first.contains_key(&number) {
        first.insert(number, kept_of(image, n))?;
    }
    Ok(())
}

/// The facts that Linux keeps of the first file of each table.
///
/// # Errors
///
/// `OutOfMemory` if memory is refused.
pub(crate) fn first_of_tables(
    alloc: Global,
    image: &Cramfs<'_>,
) -> Result<BTreeMap<u32, Known>, OutOfMemory>
    requires { IsShallow (view image.now).tree }
    ensures { IfOk result (λ m. AreFirst image.now
        (names (view image.now).tree) m) }
{
    let mut first = BTreeMap::new(alloc);
    let mut walk = Walk::new();
    while let Some(node) = walk.next(image) {
        note(&mut first, image, node)?;
    }
    Ok(first)
}

//! The names of nodes, and the parent of a directory.
ghost use Rattle.std.specs.Prelude.{◌≡◌, ◌≤◌, ◌<◌, ◌^◌, ◌==◌, ℕ, Some, length, map, take, drop};
ghost use Rattle.std.specs.List.{count_by};
ghost use Rattle.std.specs.List.Sorted.{IsNonDecreasing};
ghost use Rattle.rom_tree.specs.Tree.{Node, IsShallow, entries_of, ino_of, nodes};
ghost use Rattle.rom_tree.specs.Image.{HasDirectory, HasNode, image_node};
ghost use Rattle.image_check.specs.Any.{any_view};
ghost use Rattle.rom_c.specs.Linked.{entered_from, has_entry, links_of, parent_reported};
ghost use Rattle.rom_c.specs.Reported.{found_reported};

use crate::answers::{RomtoolNode, no_node};
use crate::visit::Visit;
use image_check::AnyImage;
use rom_tree::{Cursor, NodeId, TreeImage, is_directory_at};

/// The error: no directory has an entry of the node.
const NO_ENTRY: u32 = 1;

/// The error: the node is not a directory.
const NO_DIRECTORY: u32 = 2;

/// Counts the names of a node.
pub(crate) fn links_in(image: &AnyImage<'_>, node: NodeId) -> u64
    requires shallow { IsShallow (any_view image.now).tree }
    requires few { length (nodes (any_view image.now).tree) ≤ 2 ^ 32 }
    ensures { result ≡ links_of (any_view image.now).tree node.0 }
{
    let mut links = 0;
    let mut visit = Visit::new();
    while let Some(found) = visit.next(image) {
        if found.0 == node.0 {
            links += 1;
        }
    }
    links
}

/// Counts the names of the tree.
fn count_names(image: &AnyImage<'_>) -> u64
    requires shallow { IsShallow (any_view image.now).tree }
    requires few { length (nodes (any_view image.now).tree) ≤ 2 ^ 32 }
    ensures { result ≡ length (nodes (any_view image.now).tree) }
{
    let mut count = 0;
    let mut visit = Visit::new();
    'names: while let Some(_) = visit.next(image) {
        count += 1;
    }
    count
}

/// Writes the number of each name's node, in preorder.
fn put_numbers(image: &AnyImage<'_>, numbers: &mut [u32])
    requires shallow { IsShallow (any_view image.now).tree }
    requires room { length numbers.old ≡ length (nodes (any_view image.now).tree) }
    ensures { numbers.new ≡ map ino_of (nodes (any_view image.now).tree) }
{
    let mut at = 0;
    let mut visit = Visit::new();
    while let Some(found) = visit.next(image) {
        numbers[at] = found.0;
        at += 1;
    }
}

/// Fills a slice with the numbers of the nodes of all names, in rising order.
fn fill(image: &AnyImage<'_>, numbers: &mut [u32])
    requires shallow { IsShallow (any_view image.now).tree }
    requires room { length numbers.old ≡ length (nodes (any_view image.now).tree) }
    ensures len { length numbers.new ≡ length numbers.old }
    ensures sorted { IsNonDecreasing numbers.new }
    ensures links { (n : ℕ) → count_by (λ v. v == n) numbers.new
        ≡ links_of (any_view image.now).tree n }
{
    put_numbers(image, numbers);
    numbers.sort_unstable();
}

/// Writes the numbers of the nodes of all names, in rising order, to the front of a slice; a node
/// with several names comes as often. Returns how many names there are. If the slice has less room,
/// it stays as it is.
pub(crate) fn nodes_in(image: &AnyImage<'_>, numbers: &mut [u32]) -> u64
    requires shallow { IsShallow (any_view image.now).tree }
    requires few { length (nodes (any_view image.now).tree) ≤ 2 ^ 32 }
    ensures count { result ≡ length (nodes (any_view image.now).tree) }
    ensures small { length numbers.old < result → numbers.new ≡ numbers.old }
    ensures rest { drop result numbers.new ≡ drop result numbers.old }
    ensures sorted { result ≤ length numbers.old → IsNonDecreasing (take result numbers.new) }
    ensures links { result ≤ length numbers.old → (n : ℕ)
        → count_by (λ v. v == n) (take result numbers.new)
        ≡ links_of (any_view image.now).tree n }
{
    let count = count_names(image);
    if count > numbers.len() as u64 {
        return count;
    }
    fill(image, &mut numbers[..count as usize]);
    count
}

/// Returns whether an entry of a directory leads to a node.
fn has_entry(image: &AnyImage<'_>, directory: NodeId, node: NodeId) -> bool
    requires { HasDirectory (any_view image.now) directory.0 }
    ensures { (x : Node) → image_node (any_view image.now) directory.0 ≡ Some x
        → result ≡ has_entry node.0 (entries_of x) }
{
    let mut cursor = Cursor::START;
    while let Some(entry) = image.entry(directory, cursor) {
        if entry.node.0 == node.0 {
            return true;
        }
        cursor = entry.cursor;
    }
    false
}

/// Returns whether a node is a directory with an entry that leads to another node.
fn leads_to(image: &AnyImage<'_>, directory: NodeId, node: NodeId) -> bool
    requires { HasNode (any_view image.now) directory.0 }
    ensures { (x : Node) → image_node (any_view image.now) directory.0 ≡ Some x
        → result ≡ has_entry node.0 (entries_of x) }
{
    is_directory_at(image, directory) && has_entry(image, directory, node)
}

/// Returns the first directory with an entry that leads to a node.
fn entered_from(image: &AnyImage<'_>, node: NodeId) -> RomtoolNode
    requires { IsShallow (any_view image.now).tree }
    ensures { result ≡ found_reported (entered_from (any_view image.now).tree node.0) }
{
    let mut visit = Visit::new();
    while let Some(found) = visit.next(image) {
        if leads_to(image, found, node) {
            return RomtoolNode {
                error: 0,
                node: found.0,
            };
        }
    }
    no_node(NO_ENTRY)
}

/// Returns the parent of a directory. The root is its own.
pub(crate) fn parent_in(image: &AnyImage<'_>, directory: NodeId) -> RomtoolNode
    requires shallow { IsShallow (any_view image.now).tree }
    requires node { HasNode (any_view image.now) directory.0 }
    ensures { (x : Node) → image_node (any_view image.now) directory.0 ≡ Some x
        → result ≡ parent_reported (any_view image.now).tree x }
{
    if !is_directory_at(image, directory) {
        return no_node(NO_DIRECTORY);
    }
    let root = image.root();
    if directory.0 == root.0 {
        return RomtoolNode {
            error: 0,
            node: root.0,
        };
    }
    entered_from(image, directory)
}

//! The structs that C holds of an open file.
ghost use Rattle.std.specs.Prelude.{◌≡◌, ◌<◌, [], true, is_some};
ghost use Rattle.rom_c.specs.Held.{parts_of};
ghost use Rattle.rom_c.specs.Opened.{stands_at};

use crate::image::RomtoolImage;
use open_files::OpenNode;
use rom_tree::NodeId;

/// The struct that C holds of an open directory or regular file. It is open if the image has status
/// 1 and `error` is 0.
#[repr(C)]
#[derive(Clone, Copy)]
pub struct RomtoolFile<'a> {
    pub image: RomtoolImage<'a>,
    pub error: u32,
    pub node: u32,
    pub position: u64,
    ghost stands: { image.status ≡ 1 → error ≡ 0 → is_some (stands_at image.bytes.now
        (parts_of image.format image.accessible image.root image.references image.depth)
        node position) ≡ true },
}

/// An entry of a directory: its name, and the number and the kind of its node. `some` is 1, or 0 at
/// the directory's end.
#[repr(C)]
#[derive(Clone, Copy)]
pub struct RomtoolEntry<'a> {
    pub name: &'a [u8],
    pub node: u32,
    pub some: u32,
    pub kind: u32,
}

/// Returns no file, with an error.
pub(crate) fn no_file<'a>(image: &RomtoolImage<'a>, error: u32) -> RomtoolFile<'a>
    requires { 0 < error }
    ensures image { result.image ≡ image.now }
    ensures error { result.error ≡ error }
    ensures numbers { (result.node ≡ 0) × (result.position ≡ 0) }
{
    RomtoolFile {
        image: *image,
        error,
        node: 0,
        position: 0,
    }
}

/// Returns no entry.
pub(crate) fn no_entry<'a>() -> RomtoolEntry<'a>
    ensures name { result.name.now ≡ [] }
    ensures numbers { (result.node ≡ 0) × (result.some ≡ 0) × (result.kind ≡ 0) }
{
    RomtoolEntry {
        name: &[],
        node: 0,
        some: 0,
        kind: 0,
    }
}

/// Returns the directory or regular file of a node, at a position.
pub(crate) fn opened_at<'a>(image: &RomtoolImage<'a>, node: NodeId, at: u64) -> RomtoolFile<'a>
    requires { is_some (stands_at image.now.bytes.now
        (parts_of image.now.format image.now.accessible image.now.root image.now.references
        image.now.depth) node.0 at) ≡ true }
    ensures image { result.image ≡ image.now }
    ensures error { result.error ≡ 0 }
    ensures node { result.node ≡ node.0 }
    ensures position { result.position ≡ at }
{
    RomtoolFile {
        image: *image,
        error: 0,
        node: node.0,
        position: at,
    }
}

/// Returns the node of a file.
pub(crate) fn node_of(file: &RomtoolFile<'_>) -> OpenNode
    ensures image { result.image ≡ 0 }
    ensures node { result.node.0 ≡ file.now.node }
    ensures position { result.position ≡ file.now.position }
{
    OpenNode {
        image: 0,
        node: NodeId(file.node),
        position: file.position,
    }
}

/// Returns the same file at another position.
pub(crate) fn moved<'a>(file: &RomtoolFile<'a>, position: u64) -> RomtoolFile<'a>
    requires { is_some (stands_at file.now.image.bytes.now
        (parts_of file.now.image.format file.now.image.accessible file.now.image.root
        file.now.image.references file.now.image.depth) file.now.node position) ≡ true }
    ensures image { result.image ≡ file.now.image }
    ensures error { result.error ≡ file.now.error }
    ensures node { result.node ≡ file.now.node }
    ensures position { result.position ≡ position }
{
    RomtoolFile {
        image: file.image,
        error: file.error,
        node: file.node,
        position,
    }
}

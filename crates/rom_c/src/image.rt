//! The check, and the struct that C holds of an image.
ghost use Rattle.std.specs.Prelude.{◌≡◌, ◌≢◌, ◌≤◌, ◌⊎◌, ◌^◌, Some, length};
ghost use Rattle.rom_tree.specs.Tree.{Node, ino_of, levels, node_at, nodes, IsShallow};
ghost use Rattle.rom_tree.specs.Names.{names};
ghost use Rattle.rom_fields.specs.declared.check_error.CheckError.TheVariants.{Fault, OutOfMemory};
ghost use Rattle.romfs_image.specs.Parts.{AreParts as AreRomfsParts};
ghost use Rattle.cramfs_image.specs.Parts.{AreParts as AreCramfsParts};
ghost use Rattle.cramfs_format.specs.Superblock.{order_of};
ghost use Rattle.image_check.specs.Any.{any_view, report_of};
ghost use Rattle.image_check.specs.Parts.{AreParts, tree_of_parts, cursors_of_parts};
ghost use Rattle.formats.specs.Begins.{BeginsRomfs, BeginsCramfs};
ghost use Rattle.image_check.specs.Checked.{HasFormat, HasTree};
ghost use Rattle.image_check.specs.Checked.{IsLeastFaultUnder, Shows};
ghost use Rattle.image_check.specs.declared.any.Parts.TheVariants.{Romfs, Cramfs};
ghost use Rattle.rom_c.specs.Held.{usual, parts_of, romfs_parts, cramfs_parts, IsFormat};
ghost use Rattle.rom_c.specs.Held.{IsReported};

use cramfs_format::Order;
use cramfs_image::Parts as CramfsParts;
use image_check::laws::one_tree;
use image_check::{AnyImage, Parts, check};
use rom_fields::CheckError;
use rom_tree::Limits;
use romfs_image::Parts as RomfsParts;
use std::alloc::Global;

/// The status of an image that is open.
pub(crate) const OPEN: u32 = 1;

/// The error: the image has a fault.
const FAULT: u32 = 14;

/// The error: memory was refused.
const MEMORY: u32 = 15;

/// The format romfs.
pub(crate) const ROMFS: u32 = 1;

/// The format cramfs, little-endian.
const CRAMFS: u32 = 2;

/// The format cramfs, big-endian.
const CRAMFS_BIG: u32 = 3;

/// The offset of the root in cramfs.
const CRAMFS_ROOT: u32 = 64;

/// The struct that C holds of an image. Its bytes have to stay at their address and unchanged as
/// long as it is used. With status 0 it is closed, and has no claim about its bytes.
#[repr(C)]
#[derive(Clone, Copy)]
pub struct RomtoolImage<'a> {
    pub bytes: &'a [u8],
    pub status: u32,
    pub format: u32,
    pub fault: u32,
    pub at: u32,
    pub accessible: u32,
    pub root: u32,
    pub references: u32,
    pub depth: u32,
    ghost romfs: { status ≡ 1 → format ≡ 1
        → AreRomfsParts bytes.now (romfs_parts accessible root references depth) },
    ghost cramfs: { status ≡ 1 → format ≢ 1
        → AreCramfsParts bytes.now (cramfs_parts format accessible references depth) },
    ghost tree: { status ≡ 1
        → ∥ HasTree bytes.now usual
        (tree_of_parts bytes.now (parts_of format accessible root references depth)) ∥₁ },
    ghost shallow: { status ≡ 1
        → levels (tree_of_parts bytes.now (parts_of format accessible root references depth))
        ≤ 65 },
}

/// Returns a romfs image that a check opened.
fn opened_romfs<'a>(bytes: &'a [u8], parts: RomfsParts) -> RomtoolImage<'a>
    requires are { AreParts bytes.now (Romfs parts) }
    requires tree { HasTree bytes.now usual (tree_of_parts bytes.now (Romfs parts)) }
    requires shallow { levels (tree_of_parts bytes.now (Romfs parts)) ≤ 65 }
    requires begins { BeginsRomfs bytes.now }
    ensures status { result.status ≡ 1 }
    ensures bytes { result.bytes.now ≡ bytes.now }
    ensures format { IsFormat bytes.now result.format }
    ensures root { result.root ≡ parts.root }
    ensures references { result.references ≡ parts.references }
    ensures depth { result.depth ≡ parts.depth }
    ensures fault { (result.fault ≡ 0) × (result.at ≡ 0) }
{
    RomtoolImage {
        bytes,
        status: OPEN,
        format: ROMFS,
        fault: 0,
        at: 0,
        accessible: parts.accessible,
        root: parts.root,
        references: parts.references,
        depth: parts.depth,
    }
}

/// Returns a cramfs image that a check opened.
fn opened_cramfs<'a>(bytes: &'a [u8], parts: CramfsParts) -> RomtoolImage<'a>
    requires are { AreParts bytes.now (Cramfs parts) }
    requires tree { HasTree bytes.now usual (tree_of_parts bytes.now (Cramfs parts)) }
    requires shallow { levels (tree_of_parts bytes.now (Cramfs parts)) ≤ 65 }
    requires begins { BeginsCramfs bytes.now }
    requires order { parts.order ≡ order_of bytes.now }
    ensures status { result.status ≡ 1 }
    ensures bytes { result.bytes.now ≡ bytes.now }
    ensures format { IsFormat bytes.now result.format }
    ensures root { result.root ≡ 64 }
    ensures references { result.references ≡ parts.references }
    ensures depth { result.depth ≡ parts.depth }
    ensures fault { (result.fault ≡ 0) × (result.at ≡ 0) }
{
    match parts.order {
        Order::Little => RomtoolImage {
            bytes,
            status: OPEN,
            format: CRAMFS,
            fault: 0,
            at: 0,
            accessible: parts.accessible,
            root: CRAMFS_ROOT,
            references: parts.references,
            depth: parts.depth,
        },
        Order::Big => RomtoolImage {
            bytes,
            status: OPEN,
            format: CRAMFS_BIG,
            fault: 0,
            at: 0,
            accessible: parts.accessible,
            root: CRAMFS_ROOT,
            references: parts.references,
            depth: parts.depth,
        },
    }
}

/// Returns the image that a check opened.
fn opened<'a>(bytes: &'a [u8], found: &AnyImage<'a>) -> RomtoolImage<'a>
    requires shows { Shows bytes.now usual (any_view found.now) (report_of found.now) }
    requires format { HasFormat bytes.now found.now }
    requires shallow { IsShallow (any_view found.now).tree }
    ensures status { result.status ≡ 1 }
    ensures bytes { result.bytes.now ≡ bytes.now }
    ensures format { IsFormat bytes.now result.format }
    ensures root { result.root ≡ ino_of (any_view found.now).tree }
    ensures report { IsReported bytes.now result.references result.depth }
    ensures fault { (result.fault ≡ 0) × (result.at ≡ 0) }
{
    match found.parts() {
        Parts::Romfs(parts) => opened_romfs(bytes, parts),
        Parts::Cramfs(parts) => opened_cramfs(bytes, parts),
    }
}

/// Returns the image that a check refused: closed, with the fault, or without one if memory was
/// refused.
pub(crate) fn refused<'a>(bytes: &'a [u8], fault: u32, at: u32) -> RomtoolImage<'a>
    ensures fault { result.fault ≡ fault }
    ensures at { result.at ≡ at }
    ensures bytes { result.bytes.now ≡ bytes.now }
    ensures closed { (result.status ≡ 0) × (result.format ≡ 0) }
    ensures numbers { (result.accessible ≡ 0) × (result.root ≡ 0) × (result.references ≡ 0)
        × (result.depth ≡ 0) }
{
    RomtoolImage {
        bytes,
        status: 0,
        format: 0,
        fault,
        at,
        accessible: 0,
        root: 0,
        references: 0,
        depth: 0,
    }
}

/// Stores the image of these bytes and returns 0; or stores the reason why there is none, and
/// returns the error's number.
pub(crate) fn check_into<'a>(alloc: Global, image: &mut RomtoolImage<'a>, bytes: &'a [u8]) -> u32
    ensures bytes { image.new.bytes.now ≡ bytes.now }
    ensures open { result ≡ 0 → image.new.status ≡ 1 }
    ensures tree { result ≡ 0 → (t : Node) × HasTree bytes.now usual t }
    ensures format { result ≡ 0 → IsFormat bytes.now image.new.format }
    ensures root { result ≡ 0 → (t : Node) → HasTree bytes.now usual t
        → node_at t image.new.root ≡ Some t }
    ensures report { result ≡ 0 → IsReported bytes.now image.new.references image.new.depth }
    ensures sound { result ≡ 0 → (image.new.fault ≡ 0) × (image.new.at ≡ 0) }
    ensures closed { result ≢ 0 → (image.new.status ≡ 0) × (image.new.format ≡ 0) }
    ensures numbers { result ≢ 0 → (image.new.accessible ≡ 0) × (image.new.root ≡ 0)
        × (image.new.references ≡ 0) × (image.new.depth ≡ 0) }
    ensures refused { result ≡ 14 → (t : Node) → HasTree bytes.now usual t → ⊥ }
    ensures least { result ≡ 14
        → IsLeastFaultUnder bytes.now usual (Fault image.new.fault image.new.at) }
    ensures memory { result ≡ 15 → IsLeastFaultUnder bytes.now usual OutOfMemory }
    ensures no_fault { result ≡ 15 → (image.new.fault ≡ 0) × (image.new.at ≡ 0) }
    ensures codes { (result ≡ 0) ⊎ ((result ≡ 14) ⊎ (result ≡ 15)) }
{
    one_tree();
    let limits = Limits {
        references: 1_048_576,
        depth: 64,
    };
    match check(alloc, bytes, limits) {
        Ok(found) => {
            *image = opened(bytes, &found);
            0
        }
        Err(CheckError::Fault { number, at }) => {
            *image = refused(bytes, number, at);
            FAULT
        }
        Err(CheckError::OutOfMemory) => {
            *image = refused(bytes, 0, 0);
            MEMORY
        }
    }
}

/// Returns the numbers of an image that is open.
fn numbers(image: &RomtoolImage<'_>) -> Parts
    requires { image.now.status ≡ 1 }
    ensures numbers { result ≡ parts_of image.now.format image.now.accessible image.now.root
        image.now.references image.now.depth }
    ensures are { AreParts image.now.bytes.now result }
{
    if image.format == ROMFS {
        return Parts::Romfs(RomfsParts {
            accessible: image.accessible,
            root: image.root,
            references: image.references,
            depth: image.depth,
        });
    }
    let order = if image.format == CRAMFS_BIG {
        Order::Big
    } else {
        Order::Little
    };
    Parts::Cramfs(CramfsParts {
        order,
        accessible: image.accessible,
        references: image.references,
        depth: image.depth,
    })
}

/// States that an image has no more than 2^32 names.
fn few_names(image: &AnyImage<'_>)
    ensures { length (names (any_view image.now).tree) ≤ 2 ^ 32 }
{
    let _report = image.report();
}

/// Returns the image that is open, without reading its bytes.
pub(crate) fn image_of<'a>(image: &RomtoolImage<'a>) -> AnyImage<'a>
    requires { image.now.status ≡ 1 }
    ensures bytes { (any_view result).bytes ≡ image.now.bytes.now }
    ensures tree { (any_view result).tree ≡ tree_of_parts image.now.bytes.now
        (parts_of image.now.format image.now.accessible image.now.root image.now.references
        image.now.depth) }
    ensures cursors { (any_view result).cursor_index ≡ cursors_of_parts image.now.bytes.now
        (parts_of image.now.format image.now.accessible image.now.root image.now.references
        image.now.depth) }
    ensures shallow { IsShallow (any_view result).tree }
    ensures few { length (nodes (any_view result).tree) ≤ 2 ^ 32 }
{
    let found = AnyImage::again(image.bytes, numbers(image));
    few_names(&found);
    found
}

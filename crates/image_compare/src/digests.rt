//! The lines of all files.
ghost use Rattle.std.specs.Prelude.{◌≡◌, ◌<◌, ◌≤◌, true, Some, length, OnOk, OnErr, IfErr};
ghost use Rattle.std.specs.Io.KnownBytes.{Appends};
ghost use Rattle.rom_fields.specs.Failures.{Rose};
ghost use Rattle.rom_fields.specs.Written.{AppendsPrefix, Puts, sink};
ghost use Rattle.rom_tree.specs.Tree.{Node, is_regular, IsShallow};
ghost use Rattle.rom_tree.specs.Image.{image_node, HasNode};
ghost use Rattle.rom_tree.specs.Walks.{given_path};
ghost use Rattle.image_check.specs.Any.{any_view};
ghost use Rattle.image_compare.specs.Digests.{digest_text, node_line, relative, HasLongPath};
ghost use Rattle.image_compare.specs.Known.{AreDigests};
ghost use Rattle.image_compare.specs.declared.digests.DigestError.TheVariants.{LongPath};
ghost use Rattle.image_compare.specs.declared.digests.DigestError.TheVariants.{WriteFault};

use crate::known::Digests;
use crate::line::put_sum;
use arrayvec::ArrayVec;
use image_check::AnyImage;
use rom_fields::ByteWrite;
use rom_tree::{NoRoom, NodeId, Walk, is_regular_at};
use std::alloc::Global;
use thiserror::Error;

/// The most bytes that a path may have. No path is longer if each name has at most 255 bytes and
/// directories are at most 64 deep.
const PATH_MAX: usize = 16_384;

/// Why the digests of an image were not written whole.
#[derive(Clone, Copy, Debug, PartialEq, Eq, Error)]
pub enum DigestError {
    /// A write failed.
    #[error("a write failed")]
    WriteFault,
    /// A path has more than 16,384 bytes.
    #[error("a path of more than 16384 bytes")]
    LongPath,
}

/// A path without its first slash.
fn without_slash(path: &[u8]) -> &[u8]
    ensures { result.now ≡ relative path.now }
{
    match path {
        [] => path,
        [_, rest @ ..] => rest,
    }
}

/// Puts the line of the node that a walk returned last. `path` has room for its path.
fn put_line<'a, W: ByteWrite>(
    image: &AnyImage<'a>,
    known: &mut Digests,
    w: &mut W,
    failed: &mut bool,
    n: NodeId,
    walk: &Walk<'a>,
    path: &mut ArrayVec<u8, PATH_MAX>,
) -> Result<(), NoRoom>
    requires node { HasNode (any_view image.now) n.0 }
    requires known { AreDigests (any_view image.now) known.old }
    ensures known { AreDigests (any_view image.now) known.new }
    ensures ok { OnOk result ((x : Node) → image_node (any_view image.now) n.0 ≡ Some x
        → Puts (sink (W.output w.old) failed.old) (sink (W.output w.new) failed.new)
        (node_line (any_view image.now).bytes (given_path walk.now) x)) }
    ensures regular { OnErr result ((x : Node) → image_node (any_view image.now) n.0 ≡ Some x
        → is_regular x ≡ true) }
    ensures long { OnErr result (16384 < length (given_path walk.now)) }
    ensures output { OnErr result (W.output w.new ≡ W.output w.old) }
    ensures failed { OnErr result (failed.new ≡ failed.old) }
{
    if !is_regular_at(image, n) {
        return Ok(());
    }
    path.clear();
    walk.append_path(path)?;
    let digest = known.of(image, n);
    put_sum(w, failed, &digest, without_slash(path.as_slice()));
    Ok(())
}

/// Writes the digests of an image. For each name of a regular file, in the list's order, a line has
/// the SHA-256 of its bytes in 64 hexadecimal digits, two spaces, and its path without the first
/// slash. This is the line that `sha256sum` has for the file in a directory into which the image
/// was extracted. If the path has a backslash, a line feed or a carriage return, the line begins
/// with a backslash, and they are written as `\\`, `\n` and `\r`. The path of a file `-` is `./-`.
/// Each line ends with a line feed. Directories may be 64 deep. Bytes that files share are hashed
/// once if memory is there to keep the digest.
///
/// # Errors
///
/// `WriteFault` if a write failed, and `LongPath` if the path of a regular file has more than
/// 16,384 bytes. In both cases a prefix of the text was written.
pub fn write_digests<W: ByteWrite>(
    alloc: Global,
    image: &AnyImage<'_>,
    w: &mut W,
) -> Result<(), DigestError>
    requires { IsShallow (any_view image.now).tree }
    ensures ok { OnOk result (Appends (W.output w.old).contents (W.output w.new).contents
        (digest_text (any_view image.now).bytes (any_view image.now).tree)) }
    ensures err { OnErr result (AppendsPrefix (W.output w.old).contents (W.output w.new).contents
        (digest_text (any_view image.now).bytes (any_view image.now).tree)) }
    ensures long { IfErr result (λ e. e ≡ LongPath → HasLongPath (any_view image.now).tree) }
    ensures quiet { OnOk result ((W.output w.new).failures ≡ (W.output w.old).failures) }
    ensures rose { IfErr result (λ e. e ≡ WriteFault
        → Rose (W.output w.old).failures (W.output w.new).failures) }
    ensures still { IfErr result (λ e. e ≡ LongPath
        → (W.output w.new).failures ≡ (W.output w.old).failures) }
{
    let mut path = ArrayVec::new();
    let mut known = Digests::new(alloc, image);
    let mut failed = false;
    let mut walk = Walk::new();
    while !failed {
        let Some(node) = walk.next(image) else {
            return Ok(());
        };
        match put_line(image, &mut known, w, &mut failed, node, &walk, &mut path) {
            Ok(()) => {}
            Err(_) => return Err(DigestError::LongPath),
        }
    }
    Err(DigestError::WriteFault)
}

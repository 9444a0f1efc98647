//! Writes the bytes of one file of an image.
ghost use Rattle.std.specs.Prelude.{◌≡◌, ◌≤◌, false};
ghost use Rattle.rom_tree.specs.Tree.{IsShallow};
ghost use Rattle.image_check.specs.Any.{any_view};
ghost use Rattle.rom_commands.specs.Answers.{IsHandedOn, Prints};
ghost use Rattle.rom_commands.specs.Copying.{Copies, CopyEnds};
ghost use Rattle.rom_commands.specs.Endings.{line_of};

use crate::ending::{Ending, NoFile};
use crate::printing::closed;
use image_check::{AnyImage, check};
use image_info::cat;
use path_walk::walk;
use rom_fields::{ByteWrite, CheckError, Fault, Plain};
use rom_tree::{Limits, is_directory_at, is_regular_at};
use std::alloc::Global;
use std::io::Write;

/// Writes the bytes of the regular file to which a path leads. Symbolic links are followed.
fn copy_file<W: ByteWrite>(image: &mut AnyImage, path: &[u8], w: &mut W) -> Ending<'static>
    requires { IsShallow (any_view image.old).tree }
    ensures { Copies (any_view image.old) path.now (W.output w.old) (W.output w.new) result }
{
    let node = match walk(image, path, true) {
        Ok(node) => node,
        Err(error) => return Ending::NoFile(NoFile::Nowhere(error)),
    };
    if is_directory_at(image, node) {
        return Ending::NoFile(NoFile::Directory);
    }
    if !is_regular_at(image, node) {
        return Ending::NoFile(NoFile::Special);
    }
    match cat(image, node, w) {
        Ok(()) => Ending::Done,
        Err(_) => Ending::WriteFault,
    }
}

/// Checks an image under the usual limits, and writes the bytes of the regular file to which a path
/// leads in it. Returns `Done`, `Fault`, `NoFile`, `Memory` or `WriteFault`.
pub fn copy<W: ByteWrite>(alloc: Global, bytes: &[u8], path: &[u8], w: &mut W) -> Ending<'static>
    ensures { CopyEnds bytes.now path.now (W.output w.old) (W.output w.new) result }
{
    match check(alloc, bytes, Limits::usual()) {
        Ok(mut image) => copy_file(&mut image, path, w),
        Err(CheckError::Fault { number, at }) => Ending::Fault {
            fault: Fault { number, at },
            image: None,
        },
        Err(CheckError::OutOfMemory) => Ending::Memory,
    }
}

/// Prints to `out` the bytes of the regular file to which a path leads in an image, and flushes
/// `out`. If there are none, prints the reason to `err`: the path's error, the image's fault,
/// refused memory or a failed write.
///
/// Returns `Done`; `Fault` with the image's least fault if it has one; `NoFile` if the path leads
/// to no regular file; `Memory` if memory was refused; `WriteFault` if a write failed.
pub fn print_file<X: Write, E: ByteWrite>(
    alloc: Global,
    bytes: &[u8],
    path: &[u8],
    out: &mut Plain<X>,
    err: &mut E,
) -> Ending<'static>
    requires { (⟦<Plain<X> as ByteWrite>⟧.output out.old).failures ≡ 0 }
    ensures ends { CopyEnds bytes.now path.now (⟦<Plain<X> as ByteWrite>⟧.output out.old)
        (⟦<Plain<X> as ByteWrite>⟧.output out.new) result }
    ensures handed { IsHandedOn result false (⟦<Plain<X> as ByteWrite>⟧.output out.new) }
    ensures said { Prints (E.output err.old) (E.output err.new) (line_of result) }
{
    let ending = copy(alloc, bytes, path, out);
    closed(out, err, ending, false)
}

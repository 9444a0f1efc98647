//! The serving of lines over images.
ghost use Rattle.std.specs.Prelude.{◌≡◌, ◌≤◌, ◌<◌, ◌^◌, ℕ, List, length, map, Err, OnOk};
ghost use Rattle.rom_fields.specs.Failures.{Rose};
ghost use Rattle.rom_tree.specs.Tree.{IsShallow};
ghost use Rattle.path_walk.specs.Graft.{AreShallow};
ghost use Rattle.open_files.specs.Machine.{no_files};
ghost use Rattle.open_files.specs.Sessions.{no_sessions};
ghost use Rattle.serve_lines.specs.Served.{Serves, Finishes, Breaks, ReadsUpTo};
ghost use Rattle.serve_lines.specs.declared.error.ServeError.TheVariants.{ReadFault, WriteFault};
ghost use Rattle.serve_lines.specs.declared.error.ServeError.TheVariants.{TooManyReads};
ghost use Rattle.rom_serve.specs.Machines.{image_machine, space_machine};

use crate::one::One;
use crate::one_session::OneSession;
use crate::several_sessions::SeveralSessions;
use open_files::{Slots, Space};
use rom_fields::{ByteRead, ByteWrite};
use rom_tree::TreeImage;
use serve_lines::{ServeError, serve_lines};
use std::marker::PhantomData;

/// Answers the lines of `r` on `w` over an image, up to `quit` or to the end of the input, with 64
/// descriptors. It reads one byte with each call, at most 2^40 times. It writes each reply whole,
/// with one write for each 4,096 bytes of it, and flushes it before it reads on. Directories of the
/// image may be 64 deep. No memory is taken, except by the image itself for look-ups.
///
/// # Errors
///
/// `ReadFault` if a read failed, and `TooManyReads` if 2^40 bytes were read and the input had not
/// ended. Exactly the replies to the lines that end with a line feed were then written.
/// `WriteFault` if a write or a flush failed, or a write accepted no byte. A prefix of the replies
/// was then written, which holds the replies to all lines except the last.
pub fn serve<'a, T: TreeImage<'a>, R: ByteRead, W: ByteWrite>(
    image: T,
    r: &mut R,
    w: &mut W,
) -> Result<(), ServeError>
    requires { IsShallow (T.image image).tree }
    ensures ok { OnOk result (Serves (image_machine (T.image image)) (no_files 64)
        (R.remaining r.old) (R.remaining r.new) (W.output w.old) (W.output w.new)) }
    ensures quiet { OnOk result ((R.failures r.new ≡ R.failures r.old)
        × ((W.output w.new).failures ≡ (W.output w.old).failures)) }
    ensures read_fault { result ≡ Err ReadFault → Rose (R.failures r.old) (R.failures r.new)
        × ((y : List ℕ) × Finishes (image_machine (T.image image)) (no_files 64)
        (R.remaining r.old) (R.remaining r.new) (W.output w.old) (W.output w.new) y) }
    ensures write_fault { result ≡ Err WriteFault
        → Rose (W.output w.old).failures (W.output w.new).failures
        × Breaks (image_machine (T.image image)) (no_files 64)
        (R.remaining r.old) (R.remaining r.new) (W.output w.old) (W.output w.new) }
    ensures too_many { result ≡ Err TooManyReads → (y : List ℕ) × (length y ≡ 2 ^ 40)
        × Finishes (image_machine (T.image image)) (no_files 64)
        (R.remaining r.old) (R.remaining r.new) (W.output w.old) (W.output w.new) y }
    ensures bounded { ReadsUpTo (2 ^ 40) (R.remaining r.old) (R.remaining r.new) }
{
    serve_bounded(image, r, w, 1 << 40)
}

/// Answers lines as `serve` does, with at most `reads` reads. A read that returns no byte counts as
/// well.
///
/// # Errors
///
/// Those of `serve`, with `reads` instead of 2^40.
pub fn serve_bounded<'a, T: TreeImage<'a>, R: ByteRead, W: ByteWrite>(
    mut image: T,
    r: &mut R,
    w: &mut W,
    reads: u64,
) -> Result<(), ServeError>
    requires { IsShallow (T.image image).tree }
    ensures ok { OnOk result (Serves (image_machine (T.image image)) (no_files 64)
        (R.remaining r.old) (R.remaining r.new) (W.output w.old) (W.output w.new)) }
    ensures quiet { OnOk result ((R.failures r.new ≡ R.failures r.old)
        × ((W.output w.new).failures ≡ (W.output w.old).failures)) }
    ensures read_fault { result ≡ Err ReadFault → Rose (R.failures r.old) (R.failures r.new)
        × ((y : List ℕ) × Finishes (image_machine (T.image image)) (no_files 64)
        (R.remaining r.old) (R.remaining r.new) (W.output w.old) (W.output w.new) y) }
    ensures write_fault { result ≡ Err WriteFault
        → Rose (W.output w.old).failures (W.output w.new).failures
        × Breaks (image_machine (T.image image)) (no_files 64)
        (R.remaining r.old) (R.remaining r.new) (W.output w.old) (W.output w.new) }
    ensures too_many { result ≡ Err TooManyReads → (y : List ℕ) × (length y ≡ reads)
        × Finishes (image_machine (T.image image)) (no_files 64)
        (R.remaining r.old) (R.remaining r.new) (W.output w.old) (W.output w.new) y }
    ensures bounded { ReadsUpTo reads (R.remaining r.old) (R.remaining r.new) }
{
    let mut machine = OneSession {
        calls: One {
            image: &mut image,
            slots: Slots::new(),
        },
        borrows: PhantomData,
    };
    serve_lines(&mut machine, r, w, reads)
}

/// Answers the lines of up to eight sessions of `r` on `w`, up to the end of the input, over 1 to 8
/// images that the lines mount in one another, with 64 descriptors for each session. Otherwise it
/// is like `serve`.
///
/// # Errors
///
/// Those of `serve`.
pub fn serve_space<'a, T: TreeImage<'a>, R: ByteRead, W: ByteWrite>(
    images: Vec<T>,
    r: &mut R,
    w: &mut W,
) -> Result<(), ServeError>
    requires some { 0 < length images.items }
    requires few { length images.items ≤ 8 }
    requires shallow { AreShallow (map T.image images.items) }
    ensures ok { OnOk result (Serves (space_machine (map T.image images.items)) (no_sessions 64)
        (R.remaining r.old) (R.remaining r.new) (W.output w.old) (W.output w.new)) }
    ensures quiet { OnOk result ((R.failures r.new ≡ R.failures r.old)
        × ((W.output w.new).failures ≡ (W.output w.old).failures)) }
    ensures read_fault { result ≡ Err ReadFault → Rose (R.failures r.old) (R.failures r.new)
        × ((y : List ℕ) × Finishes (space_machine (map T.image images.items)) (no_sessions 64)
        (R.remaining r.old) (R.remaining r.new) (W.output w.old) (W.output w.new) y) }
    ensures write_fault { result ≡ Err WriteFault
        → Rose (W.output w.old).failures (W.output w.new).failures
        × Breaks (space_machine (map T.image images.items)) (no_sessions 64)
        (R.remaining r.old) (R.remaining r.new) (W.output w.old) (W.output w.new) }
    ensures too_many { result ≡ Err TooManyReads → (y : List ℕ) × (length y ≡ 2 ^ 40)
        × Finishes (space_machine (map T.image images.items)) (no_sessions 64)
        (R.remaining r.old) (R.remaining r.new) (W.output w.old) (W.output w.new) y }
    ensures bounded { ReadsUpTo (2 ^ 40) (R.remaining r.old) (R.remaining r.new) }
{
    let calls: Space<'a, T, 64> = Space::new(images);
    let mut machine = SeveralSessions {
        calls,
        borrows: PhantomData,
    };
    serve_lines(&mut machine, r, w, 1 << 40)
}

//! The path of a name: put into a text, or appended to a buffer.
ghost use Rattle.std.specs.Prelude.{◌≡◌, ◌+◌, ◌≤◌, ◌++◌, [], List, ℕ, length, IsOk, OnOk, OnErr};
ghost use Rattle.arrayvec.specs.ArrayVec.{array_vec_len};
ghost use Rattle.rom_fields.specs.Texts.{escaped};
ghost use Rattle.rom_fields.specs.Written.{Puts, sink};
ghost use Rattle.rom_tree.specs.Frames.{name_text, path_text, way_of};

use crate::frame::Frame;
use crate::types::NoRoom;
use arrayvec::ArrayVec;
use rom_fields::{ByteWrite, put, put_escaped};

/// Puts a slash and a name, escaped. Puts nothing for the root.
pub(crate) fn put_name<'a, W: ByteWrite>(w: &mut W, failed: &mut bool, name: Option<&'a [u8]>)
    ensures { Puts (sink (W.output w.old) failed.old)
        (sink (W.output w.new) failed.new) (escaped (name_text name.entry)) }
{
    if let Some(name) = name {
        put(w, failed, b"/");
        put_escaped(w, failed, name);
    }
}

/// Puts the path of the last of some frames, escaped.
pub(crate) fn put_frames<'a, W: ByteWrite>(w: &mut W, failed: &mut bool, frames: &[Frame<'a>])
    ensures { Puts (sink (W.output w.old) failed.old)
        (sink (W.output w.new) failed.new) (escaped (path_text [] frames.now)) }
{
    for frame in frames {
        put_name(w, failed, frame.name);
    }
}

/// Appends a slash and a name. Appends nothing for the root, or if they do not fit.
fn append_name<'a, const N: usize>(
    path: &mut ArrayVec<u8, N>,
    name: Option<&'a [u8]>,
) -> Result<(), NoRoom>
    ensures fits { array_vec_len path.old + length (name_text name.entry) ≤ N → IsOk result }
    ensures ok { OnOk result (path.new.items ≡ path.old.items ++ name_text name.entry) }
    ensures err { OnErr result (path.new.items ≡ path.old.items) }
{
    let Some(name) = name else {
        return Ok(());
    };
    if path.remaining_capacity() <= name.len() {
        return Err(NoRoom);
    }
    path.push(b'/');
    match path.try_extend_from_slice(name) {
        Ok(()) => Ok(()),
        Err(_) => Err(NoRoom),
    }
}

/// Appends the path of the last of some frames. If it does not fit, some bytes may be appended.
fn append_frames<'a, const N: usize>(
    path: &mut ArrayVec<u8, N>,
    frames: &[Frame<'a>],
) -> Result<(), NoRoom>
    ensures fits { array_vec_len path.old + length (path_text [] frames.now) ≤ N → IsOk result }
    ensures ok { OnOk result (path.new.items ≡ path.old.items ++ path_text [] frames.now) }
    ensures err { OnErr result ((xs : List ℕ) × (path.new.items ≡ path.old.items ++ xs)) }
{
    for frame in frames {
        append_name(path, frame.name)?;
    }
    Ok(())
}

/// Appends the path of a name in some frames. If it does not fit, some bytes may be appended.
pub(crate) fn append_way<'a, const N: usize>(
    path: &mut ArrayVec<u8, N>,
    name: Option<&'a [u8]>,
    entered: bool,
    frames: &[Frame<'a>],
) -> Result<(), NoRoom>
    ensures fits { array_vec_len path.old + length (way_of name.entry entered frames.now) ≤ N
        → IsOk result }
    ensures ok { OnOk result
        (path.new.items ≡ path.old.items ++ way_of name.entry entered frames.now) }
    ensures err { OnErr result ((xs : List ℕ) × (path.new.items ≡ path.old.items ++ xs)) }
{
    let Some(_) = name else {
        return append_name(path, Some(&[]));
    };
    append_frames(path, frames)?;
    if entered {
        return Ok(());
    }
    append_name(path, name)
}

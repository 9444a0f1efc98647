//! The paths of records.
ghost use Rattle.std.specs.Prelude.{◌≡◌, take, drop};
ghost use Rattle.rom_fields.specs.Texts.{escaped};
ghost use Rattle.rom_fields.specs.Written.{Puts, sink};
ghost use Rattle.image_extents.specs.Listed.{name_in, path_in, path_of};

use crate::extent::Record;
use rom_fields::{ByteWrite, put, put_escaped};

/// The most names on a path: those of 64 directories, and one in the last of these.
const MOST_NAMES: u32 = 65;

/// The bytes from `at` on, and no more than `len`.
pub(crate) fn bytes_at<'a>(bytes: &'a [u8], at: usize, len: usize) -> &'a [u8]
    ensures { result.now ≡ take len (drop at bytes.now) }
{
    let rest = &bytes[at.min(bytes.len())..];
    &rest[..len.min(rest.len())]
}

/// Puts the path of a record below the root with at most so many names, escaped.
fn put_names<W: ByteWrite>(
    w: &mut W,
    failed: &mut bool,
    bytes: &[u8],
    records: &[Record],
    number: usize,
    most: u32,
)
    ensures { Puts (sink (W.output w.old) failed.old) (sink (W.output w.new) failed.new)
        (escaped (path_in bytes.now records.now most number)) }
{
    if most == 0 {
        return;
    }
    if number == 0 {
        return;
    }
    if number >= records.len() {
        return;
    }
    let record = records[number];
    put_names(w, failed, bytes, records, record.directory, most - 1);
    put(w, failed, b"/");
    put_escaped(
        w,
        failed,
        bytes_at(bytes, record.name as usize, record.length as usize),
    );
}

/// Puts the path of the record of this number, escaped as in a list. It has at most 65 names.
pub fn put_path<W: ByteWrite>(
    w: &mut W,
    failed: &mut bool,
    bytes: &[u8],
    records: &[Record],
    number: usize,
)
    ensures { Puts (sink (W.output w.old) failed.old) (sink (W.output w.new) failed.new)
        (escaped (path_of bytes.now records.now number)) }
{
    if number == 0 {
        put(w, failed, b"/");
    } else {
        put_names(w, failed, bytes, records, number, MOST_NAMES);
    }
}

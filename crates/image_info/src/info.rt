//! The facts of an image, written as lines.
ghost use Rattle.std.specs.Prelude.{◌≤◌};
ghost use Rattle.rom_fields.specs.Written.{Puts, sink};
ghost use Rattle.rom_tree.specs.Tree.{IsShallow};
ghost use Rattle.image_check.specs.Any.{any_view};
ghost use Rattle.image_info.specs.Info.{report_text, tally_text, info_text};
ghost use Rattle.image_info.specs.Endings.{WritesAll};
ghost use Rattle.image_info.specs.Gaps.{IsChecked};

use crate::by_format::{count_gaps, put_superblock};
use crate::line::put_number;
use crate::tally::{Tally, count_names};
use image_check::AnyImage;
use rom_fields::ByteWrite;
use rom_tree::Report;
use std::alloc::Global;

/// The reason why the facts of an image were not written whole.
#[derive(Clone, Copy, Debug, PartialEq, Eq)]
pub enum InfoError {
    /// Memory was refused, and nothing was written.
    OutOfMemory,
    /// A write failed. A prefix of the text was written.
    WriteFault,
}

/// Puts the lines of what a check reported.
fn put_report<W: ByteWrite>(w: &mut W, failed: &mut bool, report: Report)
    ensures { Puts (sink (W.output w.old) failed.old) (sink (W.output w.new) failed.new)
        (report_text report) }
{
    put_number(w, failed, b"references ", report.references as u64);
    put_number(w, failed, b"depth ", report.depth as u64);
}

/// Puts the lines of the counts.
fn put_tally<W: ByteWrite>(w: &mut W, failed: &mut bool, tally: Tally)
    ensures { Puts (sink (W.output w.old) failed.old) (sink (W.output w.new) failed.new)
        (tally_text tally) }
{
    put_number(w, failed, b"files ", tally.files);
    put_number(w, failed, b"folders ", tally.directories);
    put_number(w, failed, b"links ", tally.links);
    put_number(w, failed, b"others ", tally.others);
    put_number(w, failed, b"contents ", tally.contents);
}

/// Writes the facts of a checked image. Each line has a key, a space, a value and a line feed:
///
/// - `format`: romfs, cramfs or cramfs-be;
/// - `size`: the number of bytes that the image states or, if it states none, of its accessible
///   bytes;
/// - `file`: the number of bytes of the image's file, as the caller passes it;
/// - `volume`: the volume's name, escaped as paths are in a list;
/// - `flags`, only for cramfs: the flags of the superblock;
/// - `sum`: the checksum word of romfs or the CRC of cramfs, as it is stored;
/// - `references` and `depth`: those of a check's report;
/// - `files`, `folders`, `links` and `others`: the numbers of names in the tree, including the
///   root's, that lead to regular files, directories, symbolic links and other nodes;
/// - `contents`: the number of bytes of all regular files, each counted once;
/// - `gaps`: the number of the `size` bytes that nothing uses: no superblock, record with its name,
///   list, table or contents.
///
/// `flags` and `sum` are `0x` and eight hexadecimal digits, and other numbers are decimal. A check
/// must have returned the image. Its directories may be 64 deep.
///
/// # Errors
///
/// `OutOfMemory` if memory is refused: then nothing was written. `WriteFault` if a write failed:
/// then a prefix of the text was written.
pub fn write_info<W: ByteWrite>(
    alloc: Global,
    image: &AnyImage<'_>,
    file: u64,
    w: &mut W,
) -> Result<(), InfoError>
    requires shallow { IsShallow (any_view image.now).tree }
    requires checked { IsChecked image.now }
    ensures { WritesAll (W.output w.old) (W.output w.new) (info_text file image.now) result }
{
    let report = image.report();
    let Ok(tally) = count_names(alloc, image) else {
        return Err(InfoError::OutOfMemory);
    };
    let Ok(gaps) = count_gaps(alloc, image) else {
        return Err(InfoError::OutOfMemory);
    };
    let mut failed = false;
    put_superblock(w, &mut failed, file, image);
    put_report(w, &mut failed, report);
    put_tally(w, &mut failed, tally);
    put_number(w, &mut failed, b"gaps ", gaps as u64);
    if failed {
        Err(InfoError::WriteFault)
    } else {
        Ok(())
    }
}

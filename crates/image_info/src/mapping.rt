//! The map of an image.
ghost use Rattle.std.specs.Prelude.{◌≡◌, ◌≤◌, ◌+◌, ◌^◌, length, OnOk, OnErr};
ghost use Rattle.std.specs.Io.KnownBytes.{Appends};
ghost use Rattle.rom_fields.specs.Failures.{Counts};
ghost use Rattle.rom_fields.specs.Written.{AppendsPrefix};
ghost use Rattle.rom_tree.specs.Tree.{IsShallow};
ghost use Rattle.image_info.specs.Map.{map_text};

use crate::map_line::put_lines;
use rom_fields::{ByteWrite, Failed};
use rom_tree::{TreeImage, Walk};

/// Writes the map of an image whose first byte has the address `base`. It has, for each name of a
/// regular file in the list's order, a line for each run of bytes that follow one another in the
/// image: `ADDRESS LENGTH OFFSET PATH`. ADDRESS is hexadecimal, `0x` and eight digits, or sixteen
/// digits from 2^32 on. OFFSET is the number of the file's byte with which the run begins. An empty
/// file has the line `- 0 0 PATH`. PATH is that of a list. Each line ends with a line feed.
/// Directories may be 64 deep.
///
/// # Errors
///
/// `Failed` if a write failed. Then a prefix of the map was written.
pub fn map<'a, T: TreeImage<'a>, W: ByteWrite>(
    image: &T,
    base: u64,
    w: &mut W,
) -> Result<(), Failed>
    requires depth { IsShallow (T.image image.now).tree }
    requires fits { base + length (T.image image.now).bytes ≤ 2 ^ 64 }
    ensures ok { OnOk result (Appends (W.output w.old).contents (W.output w.new).contents
        (map_text base (T.image image.now).tree)) }
    ensures err { OnErr result (AppendsPrefix (W.output w.old).contents (W.output w.new).contents
        (map_text base (T.image image.now).tree)) }
    ensures count { Counts (W.output w.old).failures (W.output w.new).failures result }
{
    let mut failed = false;
    let mut walk = Walk::new();
    while !failed {
        let Some(node) = walk.next(image) else {
            return Ok(());
        };
        put_lines(image, w, &mut failed, base, node, &walk);
    }
    Err(Failed)
}

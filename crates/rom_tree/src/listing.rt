//! The list of a tree.
ghost use Rattle.std.specs.Prelude.{◌≤◌, OnOk, OnErr};
ghost use Rattle.std.specs.Io.KnownBytes.{Appends};
ghost use Rattle.rom_fields.specs.Failures.{Counts};
ghost use Rattle.rom_fields.specs.Written.{AppendsPrefix};
ghost use Rattle.rom_tree.specs.Tree.{IsShallow};
ghost use Rattle.rom_tree.specs.Listing.{list_text};

use crate::frame::Walk;
use crate::image::TreeImage;
use crate::line::put_line;
use crate::types::ListError;
use rom_fields::ByteWrite;

/// Writes the list of the image's tree. It has one line for each name, in preorder from the root
/// on: `INO KIND MODE UID GID SIZE MAJOR MINOR PATH`. KIND is a letter: d directory, f regular
/// file, l symbolic link, b block device, c character device, s socket, p fifo. MODE has four octal
/// digits, and the other numbers are decimal. PATH is `/` for the root; otherwise it has each name
/// on the way, escaped, after a slash. A space and the link's text, escaped, follow the path of a
/// symbolic link. Each line ends with a line feed. Directories may be 64 deep.
///
/// # Errors
///
/// `WriteFault` if a write failed. Then a prefix of the list was written.
pub fn list<'a, T: TreeImage<'a>, W: ByteWrite>(image: &T, w: &mut W) -> Result<(), ListError>
    requires { IsShallow (T.image image.now).tree }
    ensures ok { OnOk result (Appends (W.output w.old).contents (W.output w.new).contents
        (list_text (T.image image.now).bytes (T.image image.now).tree)) }
    ensures err { OnErr result (AppendsPrefix (W.output w.old).contents (W.output w.new).contents
        (list_text (T.image image.now).bytes (T.image image.now).tree)) }
    ensures count { Counts (W.output w.old).failures (W.output w.new).failures result }
{
    let mut failed = false;
    let mut walk = Walk::new();
    while !failed {
        let Some(node) = walk.next(image) else {
            return Ok(());
        };
        put_line(image, w, &mut failed, node, &walk);
    }
    Err(ListError::WriteFault)
}

//! The writing of an image's manifest.
ghost use Rattle.std.specs.Prelude.{◌≡◌};
ghost use Rattle.manifest.specs.Printed.{lines_text, manifest_text};
ghost use Rattle.rom_fields.specs.Failures.{Counts};
ghost use Rattle.rom_fields.specs.Written.{Puts, WritesText, sink};
ghost use Rattle.image_manifest.specs.Lines.{member_lines};
ghost use Rattle.image_manifest.specs.Members.{AreMembers};

use crate::line::put_member;
use crate::naming::Member;
use crate::rules::FileRules;
use manifest::put_volume;
use rom_fields::{ByteWrite, Failed};
use rom_tree::TreeImage;

/// Puts the lines of an image's names.
fn put_members<'a, T: TreeImage<'a>, W: ByteWrite>(
    image: &T,
    w: &mut W,
    failed: &mut bool,
    rules: FileRules<'_>,
    members: &[Member<'a>],
)
    requires { AreMembers (T.image image.now) members.now }
    ensures { Puts (sink (W.output w.old) failed.old) (sink (W.output w.new) failed.new)
        (lines_text (member_lines (T.image image.now) rules.entry)) }
{
    for index in 0..members.len() {
        put_member(image, w, failed, rules, members, index, members[index]);
    }
}

/// Writes the manifest of an image that has these members: a line that names the volume, if it has
/// a name, and then a line for each member. A line has what the image stores of the node: kind,
/// mode, owner, and the numbers of a device, also if a build in some format refuses them.
///
/// - The line of a regular file has the alignment of the rules if the file needs pages of its own
///   to be executed in place, otherwise 4. Its source is the file's path behind the directory's.
/// - A further name of a file that is not a directory has a `hard` line with the first name's path.
///
/// It does not flush.
///
/// # Errors
///
/// `Failed` if a write failed. Then a prefix of the manifest was written.
pub fn write_manifest<'a, T: TreeImage<'a>, W: ByteWrite>(
    image: &T,
    members: &[Member<'a>],
    volume: &[u8],
    rules: FileRules<'_>,
    w: &mut W,
) -> Result<(), Failed>
    requires { AreMembers (T.image image.now) members.now }
    ensures text { WritesText (W.output w.old).contents (W.output w.new).contents result
        (manifest_text volume.now (member_lines (T.image image.now) rules.entry)) }
    ensures count { Counts (W.output w.old).failures (W.output w.new).failures result }
    ensures unflushed { (W.output w.new).flushes ≡ (W.output w.old).flushes }
{
    let mut failed = false;
    put_volume(w, &mut failed, volume);
    put_members(image, w, &mut failed, rules, members);
    if failed { Err(Failed) } else { Ok(()) }
}

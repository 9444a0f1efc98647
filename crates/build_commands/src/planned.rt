//! The paths of a manifest, and what Linux would misread in them.
ghost use Rattle.std.specs.Prelude.{◌≡◌, ℕ, List, reverse};
ghost use Rattle.std.specs.Option.{option_map};
ghost use Rattle.manifest.specs.Lines.{led};
ghost use Rattle.plan_rows.specs.Files.{IsOf};
ghost use Rattle.plan_rows.specs.Keyed.{behind};
ghost use Rattle.plan_rows.specs.Rows.{inode_view};
ghost use Rattle.build_commands.specs.Planned.{cramfs_by, cramfs_device, cramfs_path, romfs_by};
ghost use Rattle.build_commands.specs.Planned.{planned, planned_place, romfs_path, text_by};
ghost use Rattle.build_commands.specs.Planned.{AreFirst};

use crate::kept::kept_of;
use linux_misreads::{
    CramfsMisreads, Known, Place, RomfsMisreads, Seen, cramfs_misreads, device_number, old_device,
    romfs_misreads, romfs_root,
};
use manifest::{Line, Manifest};
use memchr::memrchr;
use plan_rows::{Bytes, Inode, PathTargets, inode_of};
use std::collections::BTreeMap;

/// Returns the last component of a path; that of the root is empty.
fn last_name<'a>(path: &'a [u8]) -> &'a [u8]
    ensures { result.now ≡ behind 47 path.now path.now }
{
    match memrchr(b'/', path) {
        None => path,
        Some(last) => &path[last + 1..],
    }
}

/// Returns the line that makes the file to which a path leads.
fn own_line<'m>(manifest: &'m Manifest, files: &PathTargets, path: &[u8]) -> Option<&'m Line>
    ensures { (sizes : List ℕ) → IsOf manifest.now.lines sizes files.now
        → option_map (λ l. l.now) result ≡ led (reverse manifest.now.lines) path.now }
{
    let Some(index) = files.line(path) else {
        return None;
    };
    match manifest.lines().get(index) {
        None => None,
        Some(line) => Some(line),
    }
}

/// Returns a file of a plan, of which Linux makes a device of this number.
pub(crate) fn seen_of(inode: &Inode<'_>, device: u64) -> Seen
    ensures { result ≡ planned device (inode_view inode.now) }
{
    Seen {
        kind: inode.kind,
        mode: inode.mode,
        uid: inode.uid,
        gid: inode.gid,
        size: inode.size,
        major: inode.major,
        minor: inode.minor,
        device,
    }
}

/// Returns the text of a link, and nothing for other files.
fn text_of<'a>(inode: &Inode<'a>) -> &'a [u8]
    ensures { result.now ≡ text_by (inode_view inode.now).fill }
{
    match inode.bytes {
        Bytes::Text(text) => text,
        Bytes::Nothing | Bytes::Source(_) => &[],
    }
}

/// Returns where the bytes of a file of this size begin behind the romfs header with its name.
fn place_behind(name: &[u8], size: u64) -> Option<Place>
    ensures { result ≡ planned_place name.now size }
{
    if size == 0 {
        return None;
    }
    Some(Place {
        start: (16 + (name.len() + 1 + 15) / 16 * 16) as u64,
        read: romfs_root(name) as u64,
    })
}

/// Returns what Linux misreads in a path to a file of romfs, which has its first name at `own`.
fn romfs_path(path: &[u8], own: &[u8], inode: &Inode<'_>) -> RomfsMisreads
    ensures { result ≡ romfs_path path.now own.now (inode_view inode.now) }
{
    let seen = seen_of(inode, device_number(inode.major, inode.minor));
    let place = place_behind(last_name(own), inode.size);
    romfs_misreads(last_name(path), text_of(inode), seen, place)
}

/// Returns what Linux misreads in the path of a line in romfs.
pub(crate) fn romfs_line(manifest: &Manifest, files: &PathTargets, line: &Line) -> RomfsMisreads
    ensures { (sizes : List ℕ) → IsOf manifest.now.lines sizes files.now
        → result ≡ romfs_by manifest.now.lines sizes line.now.path
        (led (reverse manifest.now.lines) line.now.path) }
{
    let path = line.path.as_bytes();
    match own_line(manifest, files, path) {
        None => RomfsMisreads {
            name_cut: false,
            name_too_long: false,
            device: false,
            link_cut: false,
            other_place: false,
        },
        Some(own) => {
            let inode = inode_of(own, files);
            romfs_path(path, own.path.as_bytes(), &inode)
        }
    }
}

/// Returns the number that Linux makes of the 16 bits of a device in cramfs.
fn cramfs_device(inode: &Inode<'_>) -> u64
    ensures { result ≡ cramfs_device (inode_view inode.now) }
{
    old_device(inode.major % 256 * 256 + inode.minor % 256)
}

/// Returns what Linux misreads in a path to a file of cramfs. It keeps `kept` of the first file
/// with the same contents, if the file has any.
fn cramfs_path(path: &[u8], inode: &Inode<'_>, kept: Option<Known>) -> CramfsMisreads
    ensures { result ≡ cramfs_path path.now (inode_view inode.now) kept }
{
    let name = last_name(path);
    let seen = seen_of(inode, cramfs_device(inode));
    let room = (name.len() + 3) / 4 * 4;
    cramfs_misreads(name, text_of(inode), seen, room, kept)
}

/// Returns what Linux misreads in the path of a line in cramfs. `first` has what it keeps of the
/// first file with the contents of each source.
pub(crate) fn cramfs_line(
    manifest: &Manifest,
    files: &PathTargets,
    first: &BTreeMap<usize, Known>,
    line: &Line,
) -> CramfsMisreads
    ensures { (sizes : List ℕ) → IsOf manifest.now.lines sizes files.now
        → AreFirst manifest.now.lines sizes first.now
        → result ≡ cramfs_by manifest.now.lines sizes line.now.path
        (led (reverse manifest.now.lines) line.now.path) }
{
    let path = line.path.as_bytes();
    match own_line(manifest, files, path) {
        None => CramfsMisreads {
            last_block: false,
            shared_table: false,
            device: false,
            name_padded: false,
            link_cut: false,
            root_mode: false,
        },
        Some(own) => {
            let inode = inode_of(own, files);
            cramfs_path(path, &inode, kept_of(first, &inode))
        }
    }
}

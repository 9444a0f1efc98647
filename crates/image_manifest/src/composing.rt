//! The path of a member.
ghost use Rattle.std.specs.Prelude.{◌≡◌, ◌+◌, ◌<◌, ◌≤◌, ◌++◌, length};
ghost use Rattle.arrayvec.specs.ArrayVec.{array_vec_len};
ghost use Rattle.image_manifest.specs.Composed.{path_at, way_at, ways_of};

use crate::naming::{Member, PATH_MAX};
use arrayvec::ArrayVec;

/// Appends the path of the member at an index; the root's is empty.
fn append_way(members: &[Member<'_>], index: usize, path: &mut ArrayVec<u8, PATH_MAX>)
    requires within { index < length members.now }
    requires room { array_vec_len path.old + length (way_at (ways_of members.now) index) ≤ 4095 }
    ensures { path.new.items ≡ path.old.items ++ way_at (ways_of members.now) index }
{
    let member = members[index];
    let Some(parent) = member.parent else {
        return;
    };
    if parent < index {
        append_way(members, parent, path);
    }
    path.push(b'/');
    let _ = path.try_extend_from_slice(member.name);
}

/// Replaces what the buffer has by the path of the member at an index. A directory that is at no
/// earlier index counts as the root.
pub fn path_of(members: &[Member<'_>], index: usize, path: &mut ArrayVec<u8, PATH_MAX>)
    requires within { index < length members.now }
    requires short { length (path_at members.now index) ≤ 4095 }
    ensures { path.new.items ≡ path_at members.now index }
{
    path.clear();
    append_way(members, index, path);
    if path.is_empty() {
        path.push(b'/');
    }
}

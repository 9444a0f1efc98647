//! The directories of an image, and the paths of names in them.
ghost use Rattle.std.specs.Prelude.{◌≡◌, ℕ, ◌+◌, ◌<◌, ◌≤◌, ◌++◌, ◌∷◌, List, length, slice_get};
ghost use Rattle.std.specs.Prelude.{slice_index};
ghost use Rattle.arrayvec.specs.ArrayVec.{array_vec_len};
ghost use Rattle.rom_tree.specs.Names.{path_below};
ghost use Rattle.image_compare.specs.Directories.{AreWays, IsFront, way_at};

use arrayvec::ArrayVec;

/// The most bytes that a path may have. No path is longer if each name has at most 255 bytes and
/// directories are at most 64 deep.
pub(crate) const PATH_MAX: usize = 16_384;

/// A directory of an image: the index of the directory that it is in, its name, and the length of
/// its path. The root's path counts as empty.
#[derive(Clone, Copy)]
pub(crate) struct Directory<'a> {
    pub(crate) parent: usize,
    pub(crate) name: &'a [u8],
    pub(crate) len: usize,
}

/// Returns the directory at an index.
fn directory_at<'a>(directories: &[Directory<'a>], at: usize) -> Option<Directory<'a>>
    ensures { result ≡ slice_get directories.now at }
{
    directories.get(at).copied()
}

/// Returns the length of the path of the directory at an index, or 0 if there is none.
pub(crate) fn len_at(directories: &[Directory<'_>], at: usize) -> usize
    requires { (ws : List (List ℕ)) × AreWays directories.now ws }
    ensures size { (ws : List (List ℕ)) → AreWays directories.now ws
        → result ≡ length (way_at ws at) }
    ensures short { result ≤ 16384 }
{
    match directory_at(directories, at) {
        Some(directory) => directory.len,
        None => 0,
    }
}

/// Returns the index of the directory that a directory other than the root is in.
fn parent_at(directories: &[Directory<'_>], at: usize) -> usize
    requires known { (ws : List (List ℕ)) × AreWays directories.now ws }
    requires below { 0 < at }
    ensures earlier { result < at }
    ensures front { (ws : List (List ℕ)) → AreWays directories.now ws
        → IsFront (way_at ws result) (way_at ws at) }
{
    match directory_at(directories, at) {
        Some(directory) => directory.parent,
        None => 0,
    }
}

/// Returns the index of the last directory on the way to both of two directories.
pub(crate) fn meeting(directories: &[Directory<'_>], one: usize, other: usize) -> usize
    requires { (ws : List (List ℕ)) × AreWays directories.now ws }
    ensures one { (ws : List (List ℕ)) → AreWays directories.now ws
        → IsFront (way_at ws result) (way_at ws one) }
    ensures other { (ws : List (List ℕ)) → AreWays directories.now ws
        → IsFront (way_at ws result) (way_at ws other) }
{
    let (mut above, mut beside) = (one, other);
    while above != beside {
        if above > beside {
            above = parent_at(directories, above);
        } else {
            beside = parent_at(directories, beside);
        }
    }
    above
}

/// Returns a byte of the path of a name in a directory.
pub(crate) fn byte_of(directories: &[Directory<'_>], directory: usize, name: &[u8], at: usize) -> u8
    requires { (ws : List (List ℕ)) × AreWays directories.now ws
        × (at < length (path_below (way_at ws directory) name.now)) }
    ensures { (ws : List (List ℕ)) → AreWays directories.now ws
        → result ≡ slice_index (path_below (way_at ws directory) name.now) at }
{
    let len = len_at(directories, directory);
    if at < len {
        let above = directories[directory];
        return byte_of(directories, above.parent, above.name, at);
    }
    if at == len {
        return b'/';
    }
    name[at - len - 1]
}

/// Appends a slash and a name.
fn append_name(name: &[u8], path: &mut ArrayVec<u8, PATH_MAX>)
    requires { array_vec_len path.old + 1 + length name.now ≤ 16384 }
    ensures { path.new.items ≡ path.old.items ++ 47 ∷ name.now }
{
    path.push(b'/');
    let _ = path.try_extend_from_slice(name);
}

/// Appends the path of a directory, which is empty for the root.
fn append_way(directories: &[Directory<'_>], directory: usize, path: &mut ArrayVec<u8, PATH_MAX>)
    requires { (ws : List (List ℕ)) × AreWays directories.now ws
        × (array_vec_len path.old + length (way_at ws directory) ≤ 16384) }
    ensures { (ws : List (List ℕ)) → AreWays directories.now ws
        → path.new.items ≡ path.old.items ++ way_at ws directory }
{
    if len_at(directories, directory) == 0 {
        return;
    }
    let above = directories[directory];
    append_way(directories, above.parent, path);
    append_name(above.name, path);
}

/// Appends the path of a name in a directory.
pub(crate) fn append_path(
    directories: &[Directory<'_>],
    directory: usize,
    name: &[u8],
    path: &mut ArrayVec<u8, PATH_MAX>,
)
    requires { (ws : List (List ℕ)) × AreWays directories.now ws
        × (array_vec_len path.old + length (path_below (way_at ws directory) name.now) ≤ 16384) }
    ensures { (ws : List (List ℕ)) → AreWays directories.now ws
        → path.new.items ≡ path.old.items ++ path_below (way_at ws directory) name.now }
{
    append_way(directories, directory, path);
    append_name(name, path);
}

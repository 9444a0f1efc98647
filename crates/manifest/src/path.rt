//! Paths: whether a text is one, and the directory that it is in.
ghost use Rattle.std.specs.Prelude.{◌≡◌, true, not};
ghost use Rattle.std.specs.List.{list_any};
ghost use Rattle.std.specs.Option.{is_some};
ghost use Rattle.manifest.specs.Texts.{pieces};
ghost use Rattle.manifest.specs.Paths.{is_bad_name, is_bad_path, names_of, parent_of};

use crate::text::{cut, is_bad};
use memchr::memrchr;

/// The most bytes that a path or the text of a symbolic link may have.
pub const PATH_MAX: usize = 4095;

/// The most bytes that a name may have.
pub const NAME_MAX: usize = 255;

/// Returns whether a text is not a name in a path.
#[tactic(auto, unfolding(crate::specs::Paths::is_bad_name))]
fn is_bad_name(name: &[u8]) -> bool
    ensures { result ≡ is_bad_name name.now }
{
    if name.is_empty() || name == b".".as_slice() || name == b"..".as_slice() {
        return true;
    }
    name.len() > NAME_MAX
}

/// Returns whether one of the pieces between slashes is not a name.
fn has_bad_name(names: &[u8]) -> bool
    ensures { result ≡ list_any is_bad_name (pieces 47 names.now) }
{
    let mut rest = Some(names);
    while let Some(text) = rest {
        let (name, more) = cut(text, b'/');
        if is_bad_name(name) {
            return true;
        }
        rest = more;
    }
    false
}

/// Returns whether a text is not a path, or is `/` while `root` is false.
#[tactic(auto, unfolding(crate::specs::Paths::names_of))]
pub fn is_bad_path(path: &[u8], root: bool) -> bool
    ensures { result ≡ is_bad_path root (names_of path.now) }
{
    if is_bad(path, PATH_MAX) {
        return true;
    }
    match path {
        [] => true,
        [first, ..] if *first != b'/' => true,
        [_] => !root,
        [_, names @ ..] => has_bad_name(names),
    }
}

/// Returns the directory that a path's last name is in, or the empty text for the root.
pub fn parent(path: &[u8]) -> &[u8]
    requires { is_some (names_of path.now) ≡ true }
    ensures { result.now ≡ parent_of (names_of path.now) }
{
    match memrchr(b'/', path) {
        None => path,
        Some(last) => &path[..last],
    }
}

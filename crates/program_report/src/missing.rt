//! Whether an image has an interpreter or a library.
ghost use Rattle.std.specs.Prelude.{◌≡◌, ◌++◌, ◌∷◌, [], ◌<◌, ◌==◌, length};
ghost use Rattle.std.specs.Prelude.{MatchBool, MatchOption, option_map, ◌||◌};
ghost use Rattle.std.specs.List.{list_any, position};
ghost use Rattle.rom_tree.specs.Tree.{IsShallow};
ghost use Rattle.path_walk.specs.Components.{begins_with_slash};
ghost use Rattle.program_report.specs.Needs.{has_file, has_interpreter, has_library, in_part};
ghost use Rattle.program_report.specs.Needs.{in_parts, is_file_at, on_run_path, parts};
ghost use Rattle.program_report.specs.Needs.{unless, usual_directories};

use arrayvec::ArrayVec;
use path_walk::walk;
use rom_tree::{TreeImage, is_regular_at};

/// The most bytes of a path.
pub(crate) const PATH_MAX: usize = 4_095;

/// The directories of libraries of ld.so, and those of Debian for each architecture, with a colon
/// between two.
const USUAL: &[u8] = b"/lib:/usr/lib:/lib64:/usr/lib64:/lib32:/usr/lib32:/usr/local/lib:\
/lib/aarch64-linux-gnu:/usr/lib/aarch64-linux-gnu:\
/lib/arm-linux-gnueabi:/usr/lib/arm-linux-gnueabi:\
/lib/arm-linux-gnueabihf:/usr/lib/arm-linux-gnueabihf:\
/lib/i386-linux-gnu:/usr/lib/i386-linux-gnu:\
/lib/mips64el-linux-gnuabi64:/usr/lib/mips64el-linux-gnuabi64:\
/lib/mipsel-linux-gnu:/usr/lib/mipsel-linux-gnu:\
/lib/powerpc64le-linux-gnu:/usr/lib/powerpc64le-linux-gnu:\
/lib/riscv64-linux-gnu:/usr/lib/riscv64-linux-gnu:\
/lib/s390x-linux-gnu:/usr/lib/s390x-linux-gnu:\
/lib/x86_64-linux-gnu:/usr/lib/x86_64-linux-gnu";

/// Returns whether a path leads to a regular file, at the end of links, too.
fn is_file_at<'i, T: TreeImage<'i>>(image: &mut T, path: &[u8]) -> bool
    requires { IsShallow (T.image image.old).tree }
    ensures is { result ≡ is_file_at (T.image image.old) path.now }
    ensures stays { T.image image.new ≡ T.image image.old }
{
    match walk(image, path, true) {
        Ok(node) => is_regular_at(&*image, node),
        Err(_) => false,
    }
}

/// Puts the path of a name in a directory together. Returns whether it is not longer than a path
/// may be.
fn join(path: &mut ArrayVec<u8, PATH_MAX>, directory: &[u8], name: &[u8]) -> bool
    ensures { MatchBool result (path.new.items ≡ directory.now ++ 47 ∷ name.now)
        (4095 < length (directory.now ++ 47 ∷ name.now)) }
{
    path.clear();
    path.try_extend_from_slice(directory).is_ok()
        && path.try_push(b'/').is_ok()
        && path.try_extend_from_slice(name).is_ok()
}

/// Returns whether a directory has a regular file of a name.
fn has_file<'i, T: TreeImage<'i>>(
    image: &mut T,
    path: &mut ArrayVec<u8, PATH_MAX>,
    name: &[u8],
    directory: &[u8],
) -> bool
    requires { IsShallow (T.image image.old).tree }
    ensures is { result ≡ has_file (T.image image.old) name.now directory.now }
    ensures stays { T.image image.new ≡ T.image image.old }
{
    if !join(path, directory, name) {
        return false;
    }
    is_file_at(image, path.as_slice())
}

/// Returns whether a text begins with a slash.
fn begins_with_slash(text: &[u8]) -> bool
    ensures { result ≡ begins_with_slash text.now }
{
    match text {
        [first, ..] => *first == b'/',
        [] => false,
    }
}

/// Returns whether a part of a run path is a directory that has a file of a name.
fn in_part<'i, T: TreeImage<'i>>(
    image: &mut T,
    path: &mut ArrayVec<u8, PATH_MAX>,
    name: &[u8],
    part: &[u8],
) -> bool
    requires { IsShallow (T.image image.old).tree }
    ensures is { result ≡ in_part (T.image image.old) name.now part.now }
    ensures stays { T.image image.new ≡ T.image image.old }
{
    if !begins_with_slash(part) {
        return false;
    }
    has_file(image, path, name, part)
}

/// Returns where the first colon is.
fn colon_in(path: &[u8]) -> Option<usize>
    ensures { result ≡ position (λ c. c == 58) path.now }
{
    path.iter().position(|byte| *byte == b':')
}

/// Divides a run path at its first colon.
fn first_part(path: &[u8]) -> Option<(&[u8], &[u8])>
    ensures { MatchOption result (parts path.now ≡ path.now ∷ [])
        (λ p. (parts path.now ≡ p.0.now ∷ parts p.1.now)
        × (length p.1.now < length path.now)) }
{
    match colon_in(path) {
        Some(end) => Some((&path[..end], &path[end + 1..])),
        None => None,
    }
}

/// Returns whether a directory of a run path has a file of a name.
fn in_parts<'i, T: TreeImage<'i>>(
    image: &mut T,
    buffer: &mut ArrayVec<u8, PATH_MAX>,
    name: &[u8],
    path: &[u8],
) -> bool
    requires { IsShallow (T.image image.old).tree }
    ensures is { result ≡ in_parts (T.image image.old) name.now path.now }
    ensures stays { T.image image.new ≡ T.image image.old }
{
    let mut rest = path;
    while let Some((part, after)) = first_part(rest) {
        if in_part(image, buffer, name, part) {
            return true;
        }
        rest = after;
    }
    in_part(image, buffer, name, rest)
}

/// Returns whether a text has a byte.
fn has_byte(text: &[u8], byte: u8) -> bool
    ensures { result ≡ list_any (λ c. c == byte) text.now }
{
    text.iter().any(|c| *c == byte)
}

/// Returns whether a directory of a run path has a file of a name, or where they are is not told.
fn on_run_path<'i, T: TreeImage<'i>>(
    image: &mut T,
    buffer: &mut ArrayVec<u8, PATH_MAX>,
    name: &[u8],
    path: Option<&[u8]>,
) -> bool
    requires { IsShallow (T.image image.old).tree }
    ensures is { result ≡ on_run_path (T.image image.old) name.now
        (option_map (λ t. t.now) path.entry) }
    ensures stays { T.image image.new ≡ T.image image.old }
{
    let Some(path) = path else {
        return false;
    };
    if path.len() > PATH_MAX || has_byte(path, b'$') {
        return true;
    }
    in_parts(image, buffer, name, path)
}

/// Returns whether a library of a name without a slash is there, or where it is looked for is not
/// told.
fn in_directories<'i, T: TreeImage<'i>>(image: &mut T, path: Option<&[u8]>, name: &[u8]) -> bool
    requires { IsShallow (T.image image.old).tree }
    ensures is { result ≡ (on_run_path (T.image image.old) name.now
        (option_map (λ t. t.now) path.entry)
        || in_parts (T.image image.old) name.now usual_directories) }
    ensures stays { T.image image.new ≡ T.image image.old }
{
    let mut buffer: ArrayVec<u8, PATH_MAX> = ArrayVec::new();
    if on_run_path(image, &mut buffer, name, path) {
        return true;
    }
    in_parts(image, &mut buffer, name, USUAL)
}

/// Returns whether a library is there, or where it is looked for is not told.
#[tactic(auto, unfolding(crate::specs::Needs::has_library))]
fn has_library<'i, T: TreeImage<'i>>(image: &mut T, path: Option<&[u8]>, name: &[u8]) -> bool
    requires { IsShallow (T.image image.old).tree }
    ensures is { result ≡ has_library (T.image image.old) (option_map (λ t. t.now) path.entry)
        name.now }
    ensures stays { T.image image.new ≡ T.image image.old }
{
    if begins_with_slash(name) {
        return is_file_at(image, name);
    }
    if has_byte(name, b'/') {
        return true;
    }
    in_directories(image, path, name)
}

/// Returns whether an interpreter is there, or its path depends on the working directory.
fn has_interpreter<'i, T: TreeImage<'i>>(image: &mut T, path: &[u8]) -> bool
    requires { IsShallow (T.image image.old).tree }
    ensures is { result ≡ has_interpreter (T.image image.old) path.now }
    ensures stays { T.image image.new ≡ T.image image.old }
{
    if begins_with_slash(path) {
        return is_file_at(image, path);
    }
    true
}

/// Returns the library that is needed, if it is not there.
pub(crate) fn missing_library<'a, 'i, T: TreeImage<'i>>(
    image: &mut T,
    path: Option<&[u8]>,
    name: Option<&'a [u8]>,
) -> Option<&'a [u8]>
    requires { IsShallow (T.image image.old).tree }
    ensures is { option_map (λ t. t.now) result
        ≡ unless (has_library (T.image image.old) (option_map (λ t. t.now) path.entry))
        (option_map (λ t. t.now) name.entry) }
    ensures stays { T.image image.new ≡ T.image image.old }
{
    let name = name?;
    if has_library(image, path, name) {
        return None;
    }
    Some(name)
}

/// Returns the interpreter that is needed, if it is not there.
pub(crate) fn missing_interpreter<'a, 'i, T: TreeImage<'i>>(
    image: &mut T,
    path: Option<&'a [u8]>,
) -> Option<&'a [u8]>
    requires { IsShallow (T.image image.old).tree }
    ensures is { option_map (λ t. t.now) result
        ≡ unless (has_interpreter (T.image image.old)) (option_map (λ t. t.now) path.entry) }
    ensures stays { T.image image.new ≡ T.image image.old }
{
    let path = path?;
    if has_interpreter(image, path) {
        return None;
    }
    Some(path)
}

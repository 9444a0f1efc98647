//! The words of the lines.
ghost use Rattle.std.specs.Prelude.{◌≡◌};
ghost use Rattle.serve_lines.specs.Commands.{fd_word as named_fd, other_word as named_other};
ghost use Rattle.serve_lines.specs.Commands.{path_word as named_path, word_of as named};

/// A call with only a path.
#[derive(Clone, Copy, Debug, PartialEq, Eq)]
pub enum PathCall {
    Lookup,
    Stat,
    Lstat,
    Readlink,
    Open,
}

/// A call with only a descriptor.
#[derive(Clone, Copy, Debug, PartialEq, Eq)]
pub enum FdCall {
    Fstat,
    Readdir,
    Rewind,
    Close,
}

/// The word of a line, which is its first field.
#[derive(Clone, Copy, Debug, PartialEq, Eq)]
pub(crate) enum Word {
    Path(PathCall),
    Fd(FdCall),
    Read,
    Lend,
    Seek,
    Map,
    Quit,
    Mount,
    Umount,
}

/// Returns the call of a first field, if it is one with only a path.
fn path_word(text: &[u8]) -> Option<PathCall>
    ensures { result ≡ named_path text.now }
{
    if text == b"lookup".as_slice() {
        return Some(PathCall::Lookup);
    }
    if text == b"stat".as_slice() {
        return Some(PathCall::Stat);
    }
    if text == b"lstat".as_slice() {
        return Some(PathCall::Lstat);
    }
    if text == b"readlink".as_slice() {
        return Some(PathCall::Readlink);
    }
    if text == b"open".as_slice() {
        return Some(PathCall::Open);
    }
    None
}

/// Returns the call of a first field, if it is one with only a descriptor.
fn fd_word(text: &[u8]) -> Option<FdCall>
    ensures { result ≡ named_fd text.now }
{
    if text == b"fstat".as_slice() {
        return Some(FdCall::Fstat);
    }
    if text == b"readdir".as_slice() {
        return Some(FdCall::Readdir);
    }
    if text == b"rewind".as_slice() {
        return Some(FdCall::Rewind);
    }
    if text == b"close".as_slice() {
        return Some(FdCall::Close);
    }
    None
}

/// Returns the word of a first field, if it is one of the others.
fn other_word(text: &[u8], mounts: bool) -> Option<Word>
    ensures { result ≡ named_other mounts text.now }
{
    if text == b"read".as_slice() {
        return Some(Word::Read);
    }
    if text == b"lend".as_slice() {
        return Some(Word::Lend);
    }
    if text == b"seek".as_slice() {
        return Some(Word::Seek);
    }
    if text == b"map".as_slice() {
        return Some(Word::Map);
    }
    if text == b"quit".as_slice() {
        return Some(Word::Quit);
    }
    if mounts && text == b"mount".as_slice() {
        return Some(Word::Mount);
    }
    if mounts && text == b"umount".as_slice() {
        return Some(Word::Umount);
    }
    None
}

/// Returns the word of a first field, if it is one. `mounts` is true if `mount` and `umount` are
/// words.
pub(crate) fn word_of(text: &[u8], mounts: bool) -> Option<Word>
    ensures { result ≡ named mounts text.now }
{
    if let Some(call) = path_word(text) {
        return Some(Word::Path(call));
    }
    if let Some(call) = fd_word(text) {
        return Some(Word::Fd(call));
    }
    other_word(text, mounts)
}

//! Paths as they are in lines.
ghost use Rattle.std.specs.Prelude.{◌≡◌, ◌≤◌, length};
ghost use Rattle.serve_lines.specs.Commands.{path_of};

use arrayvec::ArrayVec;
use percent_encoding::percent_decode;

/// A path of a line, decoded.
pub type Path = ArrayVec<u8, 8192>;

/// A path as it is in a line, with its escapes.
#[derive(Clone, Copy)]
pub struct PathText<'l> {
    text: &'l [u8],
    ghost short: { length text.now ≤ 8191 },
}

impl<'l> PathText<'l> {
    ghost use Rattle.serve_lines.specs.PathTexts.{text_of};

    /// Returns the path of a field, as it is in its line.
    pub fn new(text: &'l [u8]) -> PathText<'l>
        requires { length text.now ≤ 8191 }
        ensures { text_of result ≡ text.entry.now }
    {
        PathText { text }
    }

    /// Returns the decoded path. Each `%` with two hexadecimal digits behind it is one byte, and
    /// the field `-` is the empty path.
    pub fn decoded(self) -> Path
        ensures { result.items ≡ path_of (text_of self.entry) }
    {
        let mut path: Path = ArrayVec::new();
        if self.text == b"-".as_slice() {
            return path;
        }
        for b in percent_decode(self.text) {
            path.push(b);
        }
        path
    }
}

//! What opens files by their names.
ghost use Rattle.std.specs.Prelude.{◌≡◌, ℕ, List, [], Option, IfOk};
ghost use Rattle.std.specs.Io.{ReadsAtMost};
ghost use Rattle.program_streams.specs.Streams.{ReadsFrom};
ghost use Rattle.file_sources.specs.Told.{Told, Tells, told_by, contents_of};

use std::io;

/// What opens files by their names, and reads them at any offset. It is the only way to their
/// bytes: what its reads tell is in its log.
pub trait Opener: Drop {
    /// The name of a file.
    type Name;

    /// The state that a file has to have when it is opened.
    type State;

    /// A file that is open.
    type File: Drop;

    // How a name is spelled.
    ghost spelled: { Self.Name → List ℕ };

    // The name by which a file was opened.
    ghost name_of: { Self.File → List ℕ };

    // What the file of each name holds, if that is known.
    ghost contents: { Self → Option (List ℕ → List ℕ) };

    // This may be the log, which has what reads told, in order.
    ghost IsLog: { Self → List Told → Type 0 };

    /// Opens the file of a name, if it has this state.
    ///
    /// # Errors
    ///
    /// Those of the opener, for example that there is no such file, or that it has another state.
    fn open(&mut self, name: &Self::Name, state: &Self::State) -> io::Result<Self::File>
        ensures file { IfOk result (λ f. name_of f ≡ spelled name.now) }
        ensures contents { contents self.new ≡ contents self.old }
        ensures log { Tells (IsLog self.old) (IsLog self.new) [] };

    /// Puts bytes of an open file, from a position on, into a prefix of `buf`, and returns their
    /// number. It is 0 at the end.
    ///
    /// # Errors
    ///
    /// Those of the opener.
    fn read_at(&mut self, file: &Self::File, at: u64, buf: &mut [u8]) -> io::Result<usize>
        ensures bound { ReadsAtMost result buf.new }
        ensures bytes { ReadsFrom (contents_of (contents self.old) (name_of file.now)) at result
            buf.new }
        ensures contents { contents self.new ≡ contents self.old }
        ensures log { Tells (IsLog self.old) (IsLog self.new)
            (told_by (name_of file.now) at result buf.new) };

    /// Notes that nothing more is read.
    fn end(&mut self)
        ensures contents { contents self.new ≡ contents self.old }
        ensures log { (log : List Told) → IsLog self.old log → IsLog self.new log };
}

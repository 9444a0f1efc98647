//! The sources of the contents of files.
ghost use Rattle.std.specs.Prelude.{◌≡◌, ◌<◌, ℕ, List, Option, Some, length};
ghost use Rattle.std.specs.Io.{ReadsAtMost};
ghost use Rattle.image_stream.specs.Answers.{Answer, Logs, answer_of};
ghost use Rattle.image_stream.specs.Sources.{IfKnown, ReadsAt, Reads, after_read_of};

/// A read of a source failed.
#[derive(Clone, Copy, PartialEq, Eq)]
pub struct SourceFailed;

/// The contents of files, which can be read at any offset. Failed reads are counted.
pub trait Sources {
    // The contents of all files, if they are known.
    ghost known: { Self → Option (List (List ℕ)) };

    // The number of files.
    ghost files: { Self → ℕ };

    // The names of all files, if they have names.
    ghost names: { Self → List (List ℕ) };

    // The number of failed reads, and the file of the last one that failed.
    ghost reads: { Self → Reads };

    // This may be the log, which has what reads answered, in order. Sources that keep no log accept
    // any list.
    ghost IsLog: { Self → List Answer → Type 0 };

    /// Returns the number of files.
    fn count(&self) -> usize
        ensures number { result ≡ files self.now }
        ensures known { IfKnown (known self.now) (λ cs. length cs ≡ files self.now) };

    /// Puts the next bytes of a file, from offset `at` on, into a prefix of `buf`, and returns
    /// their number. It is 0 at the end of the file and behind it.
    fn read_at(&mut self, file: usize, at: u64, buf: &mut [u8]) -> Result<usize, SourceFailed>
        requires { file < files self.old }
        ensures bound { ReadsAtMost result buf.new }
        ensures bytes { ReadsAt (known self.old) file at result buf.new }
        ensures known { known self.new ≡ known self.old }
        ensures files { files self.new ≡ files self.old }
        ensures names { names self.new ≡ names self.old }
        ensures count { reads self.new ≡ after_read_of file (reads self.old) result }
        ensures log { Logs (IsLog self.old) (IsLog self.new)
            (answer_of file at result buf.new) };
}

//! The trait of open files that answer calls: those of one image, or of several.
ghost use Rattle.std.specs.Prelude.{◌≡◌, ◌<◌, ℕ, length, take};
ghost use Rattle.std.specs.Io.{ReadsAtMost};
ghost use Rattle.open_files.specs.Calls.{Calls, answer, give, viewed};
ghost use Rattle.serve_lines.specs.Commands.{on_path, on_fd, lend, map_part};
ghost use Rattle.serve_lines.specs.Replies.{reply_text};
ghost use Rattle.rom_serve.specs.Obeyed.{says, obeyed};

use open_files::{CallError, Fd};
use serve_lines::{FdCall, PathCall, Reply};

/// Open files, with a table for each session. Each call answers as `calls` does. A call whose
/// answer is about a node returns a reply, since the reply has the number of the node's image if
/// several images are served.
pub(crate) trait OpenCalls<'a>: Drop {
    ghost State: { Type 0 };

    // The open files and the mounts.
    ghost state: { Self → State };

    // The calls of each session.
    ghost calls: { Self → ℕ → Calls State };

    /// Returns the reply to a call with only a path.
    fn path_reply(&mut self, session: u32, call: PathCall, path: &[u8]) -> Reply<'a>
        requires { session < 8 }
        ensures reply { obeyed (calls self.old session) (state self.old) (on_path call path.now)
            ≡ says (reply_text result) (state self.new) }
        ensures stays { calls self.new ≡ calls self.old };

    /// Returns the reply to a call with only a descriptor.
    fn fd_reply(&mut self, session: u32, call: FdCall, fd: Fd) -> Reply<'a>
        requires { session < 8 }
        ensures reply { obeyed (calls self.old session) (state self.old) (on_fd call fd.0)
            ≡ says (reply_text result) (state self.new) }
        ensures stays { calls self.new ≡ calls self.old };

    fn read(&mut self, session: u32, fd: Fd, buf: &mut [u8]) -> Result<usize, CallError>
        requires { session < 8 }
        ensures reply { (calls self.old session).read_bytes (state self.old) fd.0 (length buf.old)
            ≡ answer (viewed (λ n. take n buf.new) result) (state self.new) }
        ensures bound { ReadsAtMost result buf.new }
        ensures stays { calls self.new ≡ calls self.old };

    fn lend_reply(&mut self, session: u32, fd: Fd, max: u64) -> Reply<'a>
        requires { session < 8 }
        ensures reply { obeyed (calls self.old session) (state self.old) (lend fd.0 max)
            ≡ says (reply_text result) (state self.new) }
        ensures stays { calls self.new ≡ calls self.old };

    fn map_reply(&mut self, session: u32, fd: Fd, off: u64, len: u64) -> Reply<'a>
        requires { session < 8 }
        ensures reply { obeyed (calls self.old session) (state self.old) (map_part fd.0 off len)
            ≡ says (reply_text result) (state self.new) }
        ensures stays { calls self.new ≡ calls self.old };

    fn seek(&mut self, session: u32, fd: Fd, position: u64) -> Result<(), CallError>
        requires { session < 8 }
        ensures reply { (calls self.old session).seek_to (state self.old) fd.0 position
            ≡ answer result (state self.new) }
        ensures stays { calls self.new ≡ calls self.old };

    fn close_all(&mut self, session: u32)
        requires { session < 8 }
        ensures reply { (calls self.old session).close_all (state self.old)
            ≡ give tt (state self.new) }
        ensures stays { calls self.new ≡ calls self.old };

    fn mount(&mut self, session: u32, image: u32, path: &[u8]) -> Result<(), CallError>
        requires { session < 8 }
        ensures reply { (calls self.old session).mount_at (state self.old) image path.now
            ≡ answer result (state self.new) }
        ensures stays { calls self.new ≡ calls self.old };

    fn umount(&mut self, session: u32, image: u32) -> Result<(), CallError>
        requires { session < 8 }
        ensures reply { (calls self.old session).unmount (state self.old) image
            ≡ answer result (state self.new) }
        ensures stays { calls self.new ≡ calls self.old };
}

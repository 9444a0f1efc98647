//! Commands that are obeyed over open files of any kind.
ghost use Rattle.std.specs.Prelude.{◌≡◌, ◌<◌, ◌≤◌, length, take};
ghost use Rattle.rom_fields.specs.Written.{Puts, sink};
ghost use Rattle.serve_lines.specs.Commands.{read, quit, line_of};
ghost use Rattle.serve_lines.specs.Reading.{call_by, is_small};
ghost use Rattle.serve_lines.specs.Replies.{reply_text};
ghost use Rattle.rom_serve.specs.Machines.{is_quit_call, is_quit as is_quit_line};
ghost use Rattle.rom_serve.specs.Obeyed.{says, obeyed, answered};

use crate::calls::OpenCalls;
use crate::replies::done_reply;
use open_files::Fd;
use rom_fields::ByteWrite;
use serve_lines::{Command, Reply, put_reply, read_line};

/// Closes all that a session has open, and returns the reply.
fn quit_reply<'a, C: OpenCalls<'a>>(calls: &mut C, session: u32) -> Reply<'a>
    requires { session < 8 }
    ensures reply { obeyed (C.calls calls.old session) (C.state calls.old) quit
        ≡ says (reply_text result) (C.state calls.new) }
    ensures stays { C.calls calls.new ≡ C.calls calls.old }
{
    calls.close_all(session);
    Reply::Done
}

/// Reads as many bytes as the buffer has room for, and puts the reply.
fn put_read<'a, C: OpenCalls<'a>, W: ByteWrite>(
    calls: &mut C,
    session: u32,
    fd: Fd,
    buf: &mut [u8],
    w: &mut W,
    failed: &mut bool,
)
    requires { session < 8 }
    ensures text { Puts (sink (W.output w.old) failed.old) (sink (W.output w.new) failed.new)
        (obeyed (C.calls calls.old session) (C.state calls.old) (read fd.0 (length buf.old))).text }
    ensures step { C.state calls.new
        ≡ (obeyed (C.calls calls.old session) (C.state calls.old)
        (read fd.0 (length buf.old))).state }
    ensures stays { C.calls calls.new ≡ C.calls calls.old }
{
    match calls.read(session, fd, buf) {
        Ok(n) => put_reply(w, failed, Reply::Bytes(front(buf, n))),
        Err(error) => put_reply(w, failed, Reply::Refused(error)),
    }
}

/// Returns the first `n` bytes of a buffer.
fn front(buf: &[u8], n: usize) -> &[u8]
    requires { n ≤ length buf.now }
    ensures { result.now ≡ take n buf.now }
{
    &buf[..n]
}

/// Obeys a command, and puts the reply.
fn put_obeyed<'a, C: OpenCalls<'a>, W: ByteWrite>(
    calls: &mut C,
    session: u32,
    command: Command<'_>,
    w: &mut W,
    failed: &mut bool,
)
    requires session { session < 8 }
    requires small { is_small command }
    ensures text { Puts (sink (W.output w.old) failed.old) (sink (W.output w.new) failed.new)
        (obeyed (C.calls calls.old session) (C.state calls.old) (call_by command.entry)).text }
    ensures step { C.state calls.new
        ≡ (obeyed (C.calls calls.old session) (C.state calls.old) (call_by command.entry)).state }
    ensures stays { C.calls calls.new ≡ C.calls calls.old }
{
    match command {
        Command::Path(call, path) => {
            let path = path.decoded();
            put_reply(w, failed, calls.path_reply(session, call, path.as_slice()));
        }
        Command::Fd(call, fd) => put_reply(w, failed, calls.fd_reply(session, call, fd)),
        Command::Read(fd, len) => {
            let mut room = [0u8; 4096];
            put_read(calls, session, fd, &mut room[..len as usize], w, failed);
        }
        Command::Lend(fd, max) => {
            put_reply(w, failed, calls.lend_reply(session, fd, u64::from(max)));
        }
        Command::Seek(fd, position) => {
            put_reply(
                w,
                failed,
                done_reply(calls.seek(session, fd, u64::from(position))),
            );
        }
        Command::Map(fd, off, len) => {
            let reply = calls.map_reply(session, fd, u64::from(off), u64::from(len));
            put_reply(w, failed, reply);
        }
        Command::Quit => put_reply(w, failed, quit_reply(calls, session)),
        Command::Mount(image, path) => {
            let path = path.decoded();
            put_reply(
                w,
                failed,
                done_reply(calls.mount(session, image, path.as_slice())),
            );
        }
        Command::Umount(image) => {
            put_reply(w, failed, done_reply(calls.umount(session, image)));
        }
    }
}

/// Returns whether a command is `quit`.
fn is_quit(command: &Command<'_>) -> bool
    ensures { result ≡ is_quit_call (call_by command.now) }
{
    matches!(command, Command::Quit)
}

/// Puts the reply to a line without its session, and returns whether the line is `quit`. `mounts`
/// is true if `mount` and `umount` are words.
pub(crate) fn put_answer<'a, C: OpenCalls<'a>, W: ByteWrite>(
    calls: &mut C,
    session: u32,
    line: &[u8],
    mounts: bool,
    w: &mut W,
    failed: &mut bool,
) -> bool
    requires { session < 8 }
    ensures last { result ≡ is_quit_line (line_of mounts line.now) }
    ensures text { Puts (sink (W.output w.old) failed.old) (sink (W.output w.new) failed.new)
        (answered (C.calls calls.old session) (C.state calls.old) (line_of mounts line.now)).text }
    ensures step { C.state calls.new
        ≡ (answered (C.calls calls.old session) (C.state calls.old)
        (line_of mounts line.now)).state }
    ensures stays { C.calls calls.new ≡ C.calls calls.old }
{
    match read_line(line, mounts) {
        Err(bad) => {
            put_reply(w, failed, Reply::Bad(bad));
            false
        }
        Ok(command) => {
            let last = is_quit(&command);
            put_obeyed(calls, session, command, w, failed);
            last
        }
    }
}

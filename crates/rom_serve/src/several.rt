//! The open files of several images.
ghost use Rattle.std.specs.Prelude.{◌≡◌, List, Some, option_map};
ghost use Rattle.path_walk.specs.declared.mount.Mount.{Mount};
ghost use Rattle.path_walk.specs.Graft.{MountedNode};
ghost use Rattle.open_files.specs.Calls.{Of, Named, viewed};
ghost use Rattle.open_files.specs.Machine.{Table};
ghost use Rattle.open_files.specs.Sessions.{Sessions};
ghost use Rattle.open_files.specs.Slots.{labelled, lent_by, named_by};
ghost use Rattle.open_files.specs.SeenSpace.{state as state_of, calls as calls_of};
ghost use Rattle.serve_lines.specs.Replies.{reply_text};
ghost use Rattle.rom_serve.specs.Obeyed.{result_text, of_node, of_stat, of_piece, of_entry};

use crate::calls::OpenCalls;
use crate::replies::{descriptor_reply, done_reply};
use open_files::{CallError, Fd, Space};
use rom_tree::{Entry, NodeId, Piece, Stat, TreeImage};
use serve_lines::{FdCall, PathCall, Reply};

// The replies for the results of calls on several images, with the number of the image.

#[tactic(auto, unfolding(serve_lines::specs::Replies::reply_text))]
fn node_reply(r: Result<(u32, NodeId), CallError>) -> Reply<'static>
    ensures { reply_text result
        ≡ result_text of_node (viewed (labelled (λ i. Some i) (λ n. n.0)) r) }
{
    match r {
        Ok((image, node)) => Reply::Node(Some(image), node),
        Err(error) => Reply::Refused(error),
    }
}

#[tactic(auto, unfolding(serve_lines::specs::Replies::reply_text))]
fn stat_reply(r: Result<(u32, Stat), CallError>) -> Reply<'static>
    ensures { reply_text result
        ≡ result_text of_stat (viewed (labelled (λ i. Some i) (λ s. s)) r) }
{
    match r {
        Ok((image, stat)) => Reply::Stat(Some(image), stat),
        Err(error) => Reply::Refused(error),
    }
}

#[tactic(auto, unfolding(serve_lines::specs::Replies::reply_text))]
fn piece_reply<'a>(r: Result<(u32, Piece<'a>), CallError>) -> Reply<'a>
    ensures { reply_text result
        ≡ result_text of_piece (viewed (labelled (λ i. Some i) lent_by) r.entry) }
{
    match r {
        Ok((image, piece)) => Reply::Piece(Some(image), piece),
        Err(error) => Reply::Refused(error),
    }
}

#[tactic(auto, unfolding(serve_lines::specs::Replies::reply_text))]
fn entry_reply<'a>(r: Result<Option<(u32, Entry<'a>)>, CallError>) -> Reply<'a>
    ensures { reply_text result
        ≡ result_text of_entry
        (viewed (option_map {U = Of Named} (labelled (λ i. Some i) named_by)) r.entry) }
{
    match r {
        Ok(Some((image, entry))) => Reply::Entry(Some(image), entry),
        Ok(None) => Reply::End,
        Err(error) => Reply::Refused(error),
    }
}

/// Several images, with 64 descriptors for each session.
impl<'a, T: TreeImage<'a>> OpenCalls<'a> for Space<'a, T, 64> {
    ghost State = { Sessions (List Mount) (Table MountedNode) };

    ghost state = { λ s. state_of s };

    ghost calls = { λ s k. calls_of s k };

    fn path_reply(&mut self, session: u32, call: PathCall, path: &[u8]) -> Reply<'a> {
        match call {
            PathCall::Lookup => node_reply(self.lookup(session, path)),
            PathCall::Stat => stat_reply(self.stat(session, path)),
            PathCall::Lstat => stat_reply(self.lstat(session, path)),
            PathCall::Readlink => piece_reply(self.readlink(session, path)),
            PathCall::Open => descriptor_reply(self.open(session, path)),
        }
    }

    fn fd_reply(&mut self, session: u32, call: FdCall, fd: Fd) -> Reply<'a> {
        match call {
            FdCall::Fstat => stat_reply(self.fstat(session, fd)),
            FdCall::Readdir => entry_reply(self.readdir(session, fd)),
            FdCall::Rewind => done_reply(self.rewind(session, fd)),
            FdCall::Close => done_reply(self.close(session, fd)),
        }
    }

    fn read(&mut self, session: u32, fd: Fd, buf: &mut [u8]) -> Result<usize, CallError> {
        Space::read(self, session, fd, buf)
    }

    fn lend_reply(&mut self, session: u32, fd: Fd, max: u64) -> Reply<'a> {
        piece_reply(self.lend(session, fd, max))
    }

    fn map_reply(&mut self, session: u32, fd: Fd, off: u64, len: u64) -> Reply<'a> {
        piece_reply(self.map(session, fd, off, len))
    }

    fn seek(&mut self, session: u32, fd: Fd, position: u64) -> Result<(), CallError> {
        Space::seek(self, session, fd, position)
    }

    fn close_all(&mut self, session: u32) {
        Space::close_all(self, session)
    }

    fn mount(&mut self, session: u32, image: u32, path: &[u8]) -> Result<(), CallError> {
        Space::mount(self, session, image, path)
    }

    fn umount(&mut self, session: u32, image: u32) -> Result<(), CallError> {
        Space::umount(self, session, image)
    }
}

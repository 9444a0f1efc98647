//! The open files of one image.
ghost use Rattle.std.specs.Prelude.{◌≡◌, ◌≤◌, option_map};
ghost use Rattle.rom_tree.specs.Tree.{Node, IsShallow};
ghost use Rattle.open_files.specs.Calls.{Of, Named, viewed};
ghost use Rattle.open_files.specs.Machine.{Table, image_calls};
ghost use Rattle.open_files.specs.Slots.{AreSound, table_in, unlabelled, lent_by, named_by};
ghost use Rattle.serve_lines.specs.Replies.{reply_text};
ghost use Rattle.rom_serve.specs.Obeyed.{result_text, of_node, of_stat, of_piece, of_entry};

use crate::calls::OpenCalls;
use crate::replies::{descriptor_reply, done_reply};
use open_files::{CallError, Fd, Slots, one_image};
use rom_tree::{Entry, NodeId, Piece, Stat, TreeImage, Viewed};
use serve_lines::{FdCall, PathCall, Reply};

// The replies for the results of calls on one image. They name no image.

#[tactic(auto, unfolding(serve_lines::specs::Replies::reply_text))]
fn node_reply(r: Result<NodeId, CallError>) -> Reply<'static>
    ensures { reply_text result ≡ result_text of_node (viewed (unlabelled (λ n. n.0)) r) }
{
    match r {
        Ok(node) => Reply::Node(None, node),
        Err(error) => Reply::Refused(error),
    }
}

#[tactic(auto, unfolding(serve_lines::specs::Replies::reply_text))]
fn stat_reply(r: Result<Stat, CallError>) -> Reply<'static>
    ensures { reply_text result ≡ result_text of_stat (viewed (unlabelled (λ s. s)) r) }
{
    match r {
        Ok(stat) => Reply::Stat(None, stat),
        Err(error) => Reply::Refused(error),
    }
}

#[tactic(auto, unfolding(serve_lines::specs::Replies::reply_text))]
fn piece_reply<'a>(r: Result<Piece<'a>, CallError>) -> Reply<'a>
    ensures { reply_text result ≡ result_text of_piece (viewed (unlabelled lent_by) r.entry) }
{
    match r {
        Ok(piece) => Reply::Piece(None, piece),
        Err(error) => Reply::Refused(error),
    }
}

#[tactic(auto, unfolding(serve_lines::specs::Replies::reply_text))]
fn entry_reply<'a>(r: Result<Option<Entry<'a>>, CallError>) -> Reply<'a>
    ensures { reply_text result
        ≡ result_text of_entry (viewed (option_map {U = Of Named} (unlabelled named_by)) r.entry) }
{
    match r {
        Ok(Some(entry)) => Reply::Entry(None, entry),
        Ok(None) => Reply::End,
        Err(error) => Reply::Refused(error),
    }
}

/// One image with 64 descriptors, for any session. Nothing is ever mounted.
#[derive(Drop)]
pub(crate) struct One<'s, T: Viewed> {
    pub(crate) image: &'s mut T,
    pub(crate) slots: Slots<64>,
    ghost sound: { AreSound (T.image image.now) slots },
    ghost deep: { IsShallow (T.image image.now).tree },
}

impl<'s, 'a, T: TreeImage<'a>> OpenCalls<'a> for One<'s, T> {
    ghost State = { Table Node };

    ghost state = { λ s. table_in (T.image s.image.now) s.slots };

    ghost calls = { λ s k. image_calls 64 (T.image s.image.now) };

    fn path_reply(&mut self, _session: u32, call: PathCall, path: &[u8]) -> Reply<'a> {
        match call {
            PathCall::Lookup => node_reply(one_image::lookup(self.image, path)),
            PathCall::Stat => stat_reply(one_image::stat(self.image, path)),
            PathCall::Lstat => stat_reply(one_image::lstat(self.image, path)),
            PathCall::Readlink => piece_reply(one_image::readlink(self.image, path)),
            PathCall::Open => descriptor_reply(one_image::open(self.image, &mut self.slots, path)),
        }
    }

    fn fd_reply(&mut self, _session: u32, call: FdCall, fd: Fd) -> Reply<'a> {
        let slots = &mut self.slots;
        match call {
            FdCall::Fstat => stat_reply(one_image::fstat(self.image, slots, fd)),
            FdCall::Readdir => entry_reply(one_image::readdir(self.image, slots, fd)),
            FdCall::Rewind => done_reply(one_image::rewind(self.image, slots, fd)),
            FdCall::Close => done_reply(one_image::close(self.image, slots, fd)),
        }
    }

    fn read(&mut self, _session: u32, fd: Fd, buf: &mut [u8]) -> Result<usize, CallError> {
        one_image::read(self.image, &mut self.slots, fd, buf)
    }

    fn lend_reply(&mut self, _session: u32, fd: Fd, max: u64) -> Reply<'a> {
        piece_reply(one_image::lend(self.image, &mut self.slots, fd, max))
    }

    fn map_reply(&mut self, _session: u32, fd: Fd, off: u64, len: u64) -> Reply<'a> {
        piece_reply(one_image::map(self.image, &self.slots, fd, off, len))
    }

    fn seek(&mut self, _session: u32, fd: Fd, position: u64) -> Result<(), CallError> {
        one_image::seek(self.image, &mut self.slots, fd, position)
    }

    fn close_all(&mut self, _session: u32) {
        one_image::close_all(self.image, &mut self.slots)
    }

    fn mount(&mut self, _session: u32, _image: u32, _path: &[u8]) -> Result<(), CallError> {
        Err(CallError::Enodev)
    }

    fn umount(&mut self, _session: u32, _image: u32) -> Result<(), CallError> {
        Err(CallError::Enodev)
    }
}

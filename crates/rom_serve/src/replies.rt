//! The replies for results of calls that name no image.
ghost use Rattle.std.specs.Prelude.{◌≡◌};
ghost use Rattle.open_files.specs.Calls.{viewed};
ghost use Rattle.serve_lines.specs.Replies.{reply_text};
ghost use Rattle.serve_lines.specs.Texts.{descriptor_text};
ghost use Rattle.rom_serve.specs.Obeyed.{result_text, of_done};

use open_files::{CallError, Fd};
use serve_lines::Reply;

#[tactic(auto, unfolding(serve_lines::specs::Replies::reply_text))]
pub(crate) fn descriptor_reply(r: Result<Fd, CallError>) -> Reply<'static>
    ensures { reply_text result ≡ result_text descriptor_text (viewed (λ d. d.0) r) }
{
    match r {
        Ok(fd) => Reply::Descriptor(fd),
        Err(error) => Reply::Refused(error),
    }
}

#[tactic(auto, unfolding(serve_lines::specs::Replies::reply_text))]
pub(crate) fn done_reply(r: Result<(), CallError>) -> Reply<'static>
    ensures { reply_text result ≡ result_text of_done r }
{
    match r {
        Ok(()) => Reply::Done,
        Err(error) => Reply::Refused(error),
    }
}

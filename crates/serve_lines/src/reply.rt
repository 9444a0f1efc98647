//! Replies and their texts.
ghost use Rattle.std.specs.Prelude.{◌≡◌};
ghost use Rattle.rom_fields.specs.Written.{Puts, sink};
ghost use Rattle.serve_lines.specs.Texts.{bad_text, image_text, piece_text};
ghost use Rattle.serve_lines.specs.Replies.{reply_text};

use crate::bad::Bad;
use crate::hex_digits::put_hex;
use open_files::{CallError, Fd};
use rom_fields::{ByteWrite, put, put_decimal, put_escaped, put_long_decimal};
use rom_tree::{Entry, NodeId, Piece, Stat, put_stat};

/// A reply to a line. If several images are served, the reply about a node has the number of the
/// node's image.
#[derive(Clone, Copy)]
pub enum Reply<'r> {
    Done,
    Descriptor(Fd),
    Node(Option<u32>, NodeId),
    Stat(Option<u32>, Stat),
    Piece(Option<u32>, Piece<'r>),
    Bytes(&'r [u8]),
    Entry(Option<u32>, Entry<'r>),
    End,
    Refused(CallError),
    Bad(Bad),
}

/// Returns the text of the reply to a line that is not a command.
fn bad_line(bad: Bad) -> &'static [u8]
    ensures { result.now ≡ bad_text bad }
{
    match bad {
        Bad::Command => b"bad command\n",
        Bad::Line => b"bad line\n",
        Bad::Number => b"bad number\n",
        Bad::Session => b"bad session\n",
    }
}

/// Puts the number of an image and a colon, if there is one.
fn put_image<W: ByteWrite>(w: &mut W, failed: &mut bool, image: Option<u32>)
    ensures { Puts (sink (W.output w.old) failed.old) (sink (W.output w.new) failed.new)
        (image_text image) }
{
    if let Some(image) = image {
        put_decimal(w, failed, image);
        put(w, failed, b":");
    }
}

/// Puts a piece of an image: its PLACE, its length, and its bytes as hexadecimal digits.
fn put_piece<'r, W: ByteWrite>(w: &mut W, failed: &mut bool, image: Option<u32>, piece: Piece<'r>)
    ensures { Puts (sink (W.output w.old) failed.old) (sink (W.output w.new) failed.new)
        (piece_text image piece.entry.place piece.entry.bytes.now) }
{
    put(w, failed, b"ok ");
    put_image(w, failed, image);
    put_decimal(w, failed, piece.place);
    put(w, failed, b" ");
    put_long_decimal(w, failed, piece.bytes.len() as u64);
    put(w, failed, b" ");
    put_hex(w, failed, piece.bytes);
    put(w, failed, b"\n");
}

/// Puts the text of a reply, which is a line.
pub fn put_reply<'r, W: ByteWrite>(w: &mut W, failed: &mut bool, reply: Reply<'r>)
    ensures { Puts (sink (W.output w.old) failed.old) (sink (W.output w.new) failed.new)
        (reply_text reply.entry) }
{
    match reply {
        Reply::Done => put(w, failed, b"ok\n"),
        Reply::Descriptor(fd) => {
            put(w, failed, b"ok ");
            put_decimal(w, failed, fd.0);
            put(w, failed, b"\n");
        }
        Reply::Node(image, node) => {
            put(w, failed, b"ok ");
            put_image(w, failed, image);
            put_decimal(w, failed, node.0);
            put(w, failed, b"\n");
        }
        Reply::Stat(image, stat) => {
            put(w, failed, b"ok ");
            put_image(w, failed, image);
            put_stat(w, failed, stat);
            put(w, failed, b"\n");
        }
        Reply::Piece(image, piece) => put_piece(w, failed, image, piece),
        Reply::Bytes(bytes) => {
            put(w, failed, b"ok ");
            put_long_decimal(w, failed, bytes.len() as u64);
            put(w, failed, b" ");
            put_hex(w, failed, bytes);
            put(w, failed, b"\n");
        }
        Reply::Entry(image, entry) => {
            put(w, failed, b"ok ");
            put_escaped(w, failed, entry.name);
            put(w, failed, b" ");
            put_image(w, failed, image);
            put_decimal(w, failed, entry.node.0);
            put(w, failed, b"\n");
        }
        Reply::End => put(w, failed, b"ok end\n"),
        Reply::Refused(error) => {
            put(w, failed, b"err ");
            put(w, failed, error.name().as_bytes());
            put(w, failed, b"\n");
        }
        Reply::Bad(bad) => put(w, failed, bad_line(bad)),
    }
}

//! A small buffer in front of a writer. It sends a reply in one write.
ghost use Rattle.std.specs.Prelude.{◌≡◌, ◌≤◌, ◌+◌, ◌++◌, [], ℕ, List, Option, None, true, length};
ghost use Rattle.std.specs.Prelude.{drop, OnOk, IsOk};
ghost use Rattle.std.specs.Io.{WritesAtMost};
ghost use Rattle.std.specs.Io.KnownBytes.{Appends, Keeps, WriteAppends, append_known};
ghost use Rattle.rom_fields.specs.Failures.{after_read, after_write, after_flush};
ghost use Rattle.rom_fields.specs.Written.{output_of};
ghost use Rattle.serve_lines.specs.Starts.{begins_with};
ghost use base.Fml.{GName};

use arrayvec::ArrayVec;
use rom_fields::{ByteWrite, Failed};
use std::marker::{Brand, PhantomData};

/// The most bytes that a buffer holds back.
pub(crate) const HELD: usize = 4096;

/// Two values that are fixed while a reply is written: the reference through which the writer is
/// reached, and what the writer held at first. A call that passes `Brand` chooses them.
pub(crate) trait Lent {
    ghost start: { Option (List ℕ) };

    ghost loan: { GName };
}

impl Lent for Brand {
    ghost start = { None };

    ghost loan = { 0 };
}

/// Passes on what is held from byte `sent` on, and empties the buffer. After an error, `sent` is
/// behind the bytes that the writer accepted.
fn hand_on<W: ByteWrite>(
    w: &mut W,
    held: &mut ArrayVec<u8, HELD>,
    sent: &mut usize,
) -> Result<(), Failed>
    requires { sent.old ≤ length held.old.items }
    ensures within { sent.new ≤ length held.new.items }
    ensures text { (front : List ℕ)
        × Appends (W.output w.old).contents (W.output w.new).contents front
        × (drop sent.old held.old.items ≡ front ++ drop sent.new held.new.items) }
    ensures empty { OnOk result ((held.new.items ≡ []) × (sent.new ≡ 0)) }
    ensures count { (W.output w.new).failures ≡ after_read (W.output w.old).failures result }
    ensures unflushed { (W.output w.new).flushes ≡ (W.output w.old).flushes }
{
    while *sent < held.len() {
        match w.write(&held.as_slice()[*sent..]) {
            Ok(0) => return Err(Failed),
            Ok(n) => *sent += n,
            Err(Failed) => return Err(Failed),
        }
    }
    held.clear();
    *sent = 0;
    Ok(())
}

/// Does the same, and flushes the writer.
fn hand_on_all<W: ByteWrite>(
    w: &mut W,
    held: &mut ArrayVec<u8, HELD>,
    sent: &mut usize,
) -> Result<(), Failed>
    requires { sent.old ≤ length held.old.items }
    ensures within { sent.new ≤ length held.new.items }
    ensures text { (front : List ℕ)
        × Appends (W.output w.old).contents (W.output w.new).contents front
        × (drop sent.old held.old.items ≡ front ++ drop sent.new held.new.items) }
    ensures empty { OnOk result (drop sent.new held.new.items ≡ []) }
    ensures count { (W.output w.new).failures ≡ after_read (W.output w.old).failures result }
    ensures flushed { (W.output w.new).flushes ≡ after_flush (W.output w.old).flushes result }
{
    match hand_on(w, held, sent) {
        Ok(()) => w.flush(),
        Err(Failed) => Err(Failed),
    }
}

/// Makes room for `room` more bytes, which are at most as many as the buffer can hold.
fn make_room<W: ByteWrite>(
    w: &mut W,
    held: &mut ArrayVec<u8, HELD>,
    sent: &mut usize,
    room: usize,
) -> Result<(), Failed>
    requires within { sent.old ≤ length held.old.items }
    requires fits { room ≤ 4096 }
    ensures within { sent.new ≤ length held.new.items }
    ensures text { (front : List ℕ)
        × Appends (W.output w.old).contents (W.output w.new).contents front
        × (drop sent.old held.old.items ≡ front ++ drop sent.new held.new.items) }
    ensures room { OnOk result (length held.new.items + room ≤ 4096) }
    ensures count { (W.output w.new).failures ≡ after_read (W.output w.old).failures result }
    ensures unflushed { (W.output w.new).flushes ≡ (W.output w.old).flushes }
{
    if room <= HELD - held.len() {
        return Ok(());
    }
    hand_on(w, held, sent)
}

/// A writer by its reference.
#[derive(Drop)]
pub(crate) struct Reached<'w, W> {
    pub(crate) w: &'w mut W,
}

/// A writer that puts texts into a buffer first. It passes them on if the buffer has no room, and
/// at a flush. The writer behind it holds what it held at first, and more.
#[derive(Drop)]
pub(crate) struct Buffered<'w, W: ByteWrite, K: Lent> {
    pub(crate) reached: Reached<'w, W>,
    pub(crate) held: ArrayVec<u8, HELD>,
    pub(crate) sent: usize,
    pub(crate) lent: PhantomData<K>,
    ghost loan: { reached.w.ghost_name ≡ K.loan },
    ghost starts: { begins_with K.start (W.output reached.w.now).contents ≡ true },
    ghost within: { sent ≤ length held.items },
}

impl<'w, W: ByteWrite, K: Lent> ByteWrite for Buffered<'w, W, K> {
    ghost output = { λ s. output_of
        (append_known (W.output s.reached.w.now).contents (drop s.sent s.held.items))
        (W.output s.reached.w.now).failures (W.output s.reached.w.now).flushes };

    fn write(&mut self, b: &[u8]) -> Result<usize, Failed> {
        let part = &b[..b.len().min(HELD)];
        let reached = &mut self.reached;
        match make_room(reached.w, &mut self.held, &mut self.sent, part.len()) {
            Ok(()) => {}
            Err(Failed) => return Err(Failed),
        }
        match self.held.try_extend_from_slice(part) {
            Ok(()) => Ok(part.len()),
            Err(_) => Err(Failed),
        }
    }

    fn flush(&mut self) -> Result<(), Failed>
        ensures bytes { Keeps
            (append_known (W.output self.old.reached.w.now).contents
            (drop self.old.sent self.old.held.items))
            (append_known (W.output self.new.reached.w.now).contents
            (drop self.new.sent self.new.held.items)) }
        ensures count { (W.output self.new.reached.w.now).failures
            ≡ after_read (W.output self.old.reached.w.now).failures result }
        ensures flushed { (W.output self.new.reached.w.now).flushes
            ≡ after_flush (W.output self.old.reached.w.now).flushes result }
        ensures empty { OnOk result (drop self.new.sent self.new.held.items ≡ []) }
    {
        let reached = &mut self.reached;
        hand_on_all(reached.w, &mut self.held, &mut self.sent)
    }
}

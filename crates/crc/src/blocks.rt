//! The remainder after a long piece of bytes, which is first reduced to its last 300 bytes.
//!
//! Each byte may be added (xor) to the bytes 145, 183, 211 and 300 later and then be left out
//! (`specs/History.antt`). So the sums of the bytes before it are added to each byte, and only the
//! last 300 are divided bit by bit.
ghost use Rattle.std.specs.Prelude.{◌≡◌, ◌+◌, ◌≤◌, length, take, drop, replicate};
ghost use Rattle.std.specs.Int.Bits.{bit_xor};
ghost use Rattle.crc.specs.Crc.{after_bytes};
ghost use Rattle.crc.specs.History.{added, after_history, StandsFor, TakesIn};

use crate::bits::with_bytes;

/// The number of bytes that are kept, to be added to later ones.
const HISTORY: usize = 300;

/// The offset of the last 145 bytes of the history.
const LAST_145: usize = HISTORY - 145;

/// The offset of its last 183 bytes.
const LAST_183: usize = HISTORY - 183;

/// The offset of its last 211 bytes.
const LAST_211: usize = HISTORY - 211;

/// The number of bytes that are taken in at a time.
const BLOCK: usize = 4_096;

/// The history that stands for a remainder: its first four bytes are the remainder's, so they are
/// added to the four bytes that are 300 later.
fn start(c: u32, history: &mut [u8])
    requires { history.old ≡ replicate 300 0 }
    ensures { StandsFor history.new c }
{
    history[..4].copy_from_slice(&c.to_le_bytes());
}

/// Puts the bytes behind the history in `buf`. To each are added those that are 145, 183, 211 and
/// 300 bytes before it.
fn gather(bytes: &[u8], buf: &mut [u8])
    requires { length bytes.now + 300 ≤ length buf.old }
    ensures { TakesIn (take 300 buf.old) (take 300 (drop (length bytes.now) buf.new)) bytes.now }
{
    for i in 0..bytes.len() {
        let earlier = buf[i + LAST_145] ^ buf[i + LAST_183] ^ buf[i + LAST_211] ^ buf[i];
        buf[i + HISTORY] = bytes[i] ^ earlier;
    }
}

/// Takes the bytes into the history, which is at the front of `buf`.
fn take_in(bytes: &[u8], buf: &mut [u8])
    requires { length bytes.now + 300 ≤ length buf.old }
    ensures { TakesIn (take 300 buf.old) (take 300 buf.new) bytes.now }
{
    gather(bytes, buf);
    buf.copy_within(bytes.len()..bytes.len() + HISTORY, 0);
}

/// Adds the bytes of `from` to the first of `bytes`.
fn add(from: &[u8], bytes: &mut [u8])
    requires { length from.now ≤ length bytes.old }
    ensures { after_bytes 0 bytes.new
        ≡ bit_xor (after_bytes 0 bytes.old) (added from.now (length bytes.old)) }
{
    for i in 0..from.len() {
        bytes[i] ^= from[i];
    }
}

/// The remainder after the last 300 bytes, with the history added to them.
fn finish(history: &[u8], last: &[u8]) -> u32
    requires history { length history.now ≡ 300 }
    requires last { length last.now ≡ 300 }
    ensures { result ≡ after_history history.now last.now }
{
    let mut space: [u8; HISTORY] = [0; HISTORY];
    let bytes = space.as_mut_slice();
    bytes.copy_from_slice(last);
    add(&history[LAST_145..], bytes);
    add(&history[LAST_183..], bytes);
    add(&history[LAST_211..], bytes);
    add(history, bytes);
    with_bytes(0, bytes)
}

/// The remainder after these bytes, 300 or more.
pub(crate) fn with_blocks(c: u32, bytes: &[u8]) -> u32
    requires { 300 ≤ length bytes.now }
    ensures { result ≡ after_bytes c bytes.now }
{
    let mut space: [u8; HISTORY + BLOCK] = [0; HISTORY + BLOCK];
    let buf = space.as_mut_slice();
    start(c, &mut buf[..HISTORY]);
    let mut at = 0;
    while bytes.len() - at > HISTORY {
        let count = (bytes.len() - at - HISTORY).min(BLOCK);
        take_in(&bytes[at..at + count], buf);
        at += count;
    }
    finish(&buf[..HISTORY], &bytes[at..])
}

//! Bytes that are read into memory up to a length.
ghost use Rattle.std.specs.Prelude.{◌≡◌, ◌≢◌, ◌+◌, ◌-◌, ◌<◌, ◌≤◌, ◌++◌, IfErr, IfOk, IfSome, OnOk};
ghost use Rattle.std.specs.Prelude.{OnErr, min, length, take, vec_len, vec_capacity};
ghost use Rattle.std.specs.IoError.{error_kind};
ghost use Rattle.std.specs.Io.{StartsWith, appended_bytes};
ghost use Rattle.std.specs.Io.KnownBytes.{Keeps, Consumes, IsAtEnd};

use crate::signals::read_again;
use std::io::{self, ErrorKind, Read};

/// The most bytes that one call reads.
const PART: usize = 32 << 10;

/// Makes room for an eighth more, if none is left.
fn make_room(bytes: &mut Vec<u8>) -> io::Result<()>
    ensures items { bytes.new.items ≡ bytes.old.items }
    ensures len { vec_len bytes.new ≡ vec_len bytes.old }
    ensures room { OnOk result (vec_len bytes.new < vec_capacity bytes.new) }
    ensures kind { IfErr result (λ e. error_kind e ≡ ErrorKind.OutOfMemory) }
{
    let capacity = bytes.capacity();
    if bytes.len() == capacity {
        bytes.reserve_exact(PART.max(capacity / 8))?;
    }
    Ok(())
}

/// Reads at most `most` bytes into the front of a part of memory.
fn read_part<R: Read>(reader: &mut R, part: &mut [u8], most: usize) -> io::Result<usize>
    requires { most ≤ length part.old }
    ensures most { IfOk result (λ n. n ≤ most) }
    ensures ok { IfOk result (λ n. Consumes (R.remaining reader.old) (R.remaining reader.new)
        (take n part.new)) }
    ensures end { IfOk result (λ n. n ≡ 0 → 0 < most → IsAtEnd (R.remaining reader.new)) }
    ensures err { OnErr result (Keeps (R.remaining reader.old) (R.remaining reader.new)) }
    ensures retried { IfErr result (λ e. error_kind e ≢ ErrorKind.Interrupted) }
{
    read_again(reader, &mut part[..most])
}

/// Returns the lesser of `room` and `most`.
fn asked_of(room: usize, most: u64) -> usize
    ensures { result ≡ min room most }
{
    if (room as u64) < most {
        room
    } else {
        most as usize
    }
}

/// Reads at most `most` bytes on, through a part of memory, and returns their number.
fn read_some<R: Read>(
    reader: &mut R,
    bytes: &mut Vec<u8>,
    part: &mut [u8],
    most: u64,
) -> io::Result<usize>
    requires some { 0 < most }
    requires room { 0 < length part.old }
    ensures appends { StartsWith bytes.new.items bytes.old.items }
    ensures count { IfOk result (λ n. vec_len bytes.new ≡ vec_len bytes.old + n) }
    ensures most { IfOk result (λ n. n ≤ most) }
    ensures err { OnErr result (bytes.new.items ≡ bytes.old.items) }
    ensures bytes { Consumes (R.remaining reader.old) (R.remaining reader.new)
        (appended_bytes bytes.old.items bytes.new.items) }
    ensures end { IfOk result (λ n. n ≡ 0 → IsAtEnd (R.remaining reader.new)) }
    ensures retried { IfErr result (λ e. error_kind e ≢ ErrorKind.Interrupted) }
{
    make_room(bytes)?;
    let room = (bytes.capacity() - bytes.len()).min(part.len());
    let n = read_part(reader, part, asked_of(room, most))?;
    let Ok(()) = bytes.extend_from_slice(&part[..n]) else {
        unreachable!()
    };
    Ok(n)
}

/// Reads on until there are `until` bytes, or the reader ends.
fn read_on<R: Read>(
    reader: &mut R,
    bytes: &mut Vec<u8>,
    part: &mut [u8],
    until: u64,
) -> io::Result<()>
    requires { 0 < length part.old }
    ensures appends { StartsWith bytes.new.items bytes.old.items }
    ensures most { vec_len bytes.new - vec_len bytes.old ≤ until - vec_len bytes.old }
    ensures none_lost { Consumes (R.remaining reader.old) (R.remaining reader.new)
        (appended_bytes bytes.old.items bytes.new.items) }
    ensures bytes { OnOk result (IfSome (R.remaining reader.old)
        (λ xs. bytes.new.items ≡ bytes.old.items ++ take (until - vec_len bytes.old) xs)) }
    ensures retried { IfErr result (λ e. error_kind e ≢ ErrorKind.Interrupted) }
{
    while (bytes.len() as u64) < until {
        let left = until - bytes.len() as u64;
        if read_some(reader, bytes, part, left)? == 0 {
            return Ok(());
        }
    }
    Ok(())
}

/// Reads on until there are `until` bytes, or the reader ends. It allocates memory only once if
/// there are at most `expected` bytes in all. In each ending, the bytes that were read are after
/// the earlier ones, and the reader continues after them.
///
/// # Errors
///
/// Those of the reader, `OutOfMemory`, and `TimedOut` after 2^64 - 1 interrupted calls.
pub fn read_until<R: Read>(
    reader: &mut R,
    bytes: &mut Vec<u8>,
    until: u64,
    expected: u64,
) -> io::Result<()>
    ensures appends { StartsWith bytes.new.items bytes.old.items }
    ensures most { vec_len bytes.new - vec_len bytes.old ≤ until - vec_len bytes.old }
    ensures none_lost { Consumes (R.remaining reader.old) (R.remaining reader.new)
        (appended_bytes bytes.old.items bytes.new.items) }
    ensures bytes { OnOk result (IfSome (R.remaining reader.old)
        (λ xs. bytes.new.items ≡ bytes.old.items ++ take (until - vec_len bytes.old) xs)) }
    ensures retried { IfErr result (λ e. error_kind e ≢ ErrorKind.Interrupted) }
{
    let missing = expected.min(until).saturating_sub(bytes.len() as u64);
    bytes.reserve_exact(usize::try_from(missing).unwrap_or(usize::MAX))?;
    let mut part = [0u8; PART];
    read_on(reader, bytes, &mut part, until)
}

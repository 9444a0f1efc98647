//! The lines of several sessions.
ghost use Rattle.std.specs.Prelude.{◌≡◌, ◌-◌, ◌≤◌, drop, Some, None, MatchOption};
ghost use Rattle.serve_lines.specs.Served.{Machine};
ghost use Rattle.rom_serve.specs.Machines.{lines_among, session_digit};

use crate::calls::OpenCalls;
use crate::commands::put_answer;
use rom_fields::{ByteWrite, put};
use serve_lines::{Bad, LineMachine, Reply, put_reply};
use std::marker::PhantomData;

/// Returns the digit by which a line names its session, and the part behind the space after it.
fn session_of(line: &[u8]) -> Option<(u8, &[u8])>
    ensures names { MatchOption result (session_digit line.now ≡ None)
        (λ p. session_digit line.now ≡ Some (p.0 - 48)) }
    ensures digit { MatchOption result (Unit {0}) (λ p. (48 ≤ p.0) × (p.0 ≤ 55)) }
    ensures rest { MatchOption result (Unit {0}) (λ p. p.1.now ≡ drop 2 line.now) }
{
    if line.len() < 2 {
        return None;
    }
    let digit = line[0];
    if digit < b'0' {
        return None;
    }
    if digit > b'7' {
        return None;
    }
    if line[1] != b' ' {
        return None;
    }
    Some((digit, &line[2..]))
}

/// Open files of several sessions that answer lines. No line ends the serving.
#[derive(Drop)]
pub(crate) struct SeveralSessions<'a, C: OpenCalls<'a>> {
    pub(crate) calls: C,
    pub(crate) borrows: PhantomData<&'a [u8]>,
}

impl<'a, C: OpenCalls<'a>> LineMachine for SeveralSessions<'a, C> {
    ghost State = { C.State };

    ghost state = { λ s. C.state s.calls };

    ghost machine = { λ s. lines_among (C.calls s.calls) };

    fn answer<W: ByteWrite>(&mut self, line: &[u8], w: &mut W, failed: &mut bool) -> bool {
        if line.len() > 8191 {
            put_reply(w, failed, Reply::Bad(Bad::Line));
            return false;
        }
        match session_of(line) {
            None => put_reply(w, failed, Reply::Bad(Bad::Session)),
            Some((digit, rest)) => {
                put(w, failed, &[digit, b' ']);
                put_answer(
                    &mut self.calls,
                    (digit - b'0') as u32,
                    rest,
                    true,
                    w,
                    failed,
                );
            }
        }
        false
    }
}

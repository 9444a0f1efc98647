//! The lines of one table of open files.
ghost use Rattle.std.specs.Prelude.{◌≡◌};
ghost use Rattle.serve_lines.specs.Served.{Machine};
ghost use Rattle.rom_serve.specs.Machines.{lines_alone};

use crate::calls::OpenCalls;
use crate::commands::put_answer;
use rom_fields::ByteWrite;
use serve_lines::LineMachine;
use std::marker::PhantomData;

/// Open files that answer lines. `quit` ends the serving.
#[derive(Drop)]
pub(crate) struct OneSession<'a, C: OpenCalls<'a>> {
    pub(crate) calls: C,
    pub(crate) borrows: PhantomData<&'a [u8]>,
}

impl<'a, C: OpenCalls<'a>> LineMachine for OneSession<'a, C> {
    ghost State = { C.State };

    ghost state = { λ s. C.state s.calls };

    ghost machine = { λ s. lines_alone (C.calls s.calls 0) };

    fn answer<W: ByteWrite>(&mut self, line: &[u8], w: &mut W, failed: &mut bool) -> bool {
        put_answer(&mut self.calls, 0, line, false, w, failed)
    }
}

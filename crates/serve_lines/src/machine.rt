//! The trait of machines that answer lines.
ghost use Rattle.std.specs.Prelude.{◌≡◌};
ghost use Rattle.rom_fields.specs.Written.{Puts, sink};
ghost use Rattle.serve_lines.specs.Served.{Machine};

use rom_fields::ByteWrite;

/// A machine that answers lines, which come without their line feeds.
pub trait LineMachine {
    ghost State: { Type 0 };

    ghost state: { Self → State };

    // The reply to each line, and the state after it.
    ghost machine: { Self → Machine State };

    /// Puts the reply to a line into a sink, and returns whether the line ends the serving.
    fn answer<W: ByteWrite>(&mut self, line: &[u8], w: &mut W, failed: &mut bool) -> bool
        ensures last { result ≡ (machine self.old).ends line.now }
        ensures text { Puts (sink (W.output w.old) failed.old) (sink (W.output w.new) failed.new)
            ((machine self.old).reply (state self.old) line.now) }
        ensures step { state self.new ≡ (machine self.old).next (state self.old) line.now }
        ensures stays { machine self.new ≡ machine self.old };
}

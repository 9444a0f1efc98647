//! Sources that change or fail.
ghost use Rattle.std.specs.Prelude.{◌≡◌, ◌≤◌, length};

use layout_plan::{SourceFailed, Sources};
use rom_fields::Contents;

/// What is wrong with sources after some reads.
#[derive(Debug, Clone, Copy, PartialEq, Eq)]
pub enum Fault {
    /// Each read fails.
    Unreadable,
    /// The first byte of each file differs.
    Changed,
}

/// Files in memory that report nothing of their contents and have a fault after this number of
/// reads.
#[derive(Drop)]
pub struct Spoiled<'c> {
    contents: &'c Contents<'c>,
    fault: Fault,
    sound: u64,
    failures: u64,
    failed: Option<usize>,
}

impl<'c> Spoiled<'c> {
    /// These files, which can be read correctly this number of times.
    pub fn new(contents: &'c Contents<'c>, fault: Fault, sound: u64) -> Spoiled<'c>
        ensures { result.contents.now ≡ contents.now }
    {
        Spoiled {
            contents,
            fault,
            sound,
            failures: 0,
            failed: None,
        }
    }
}

/// The bytes of a file from `at` on, as many as fit.
fn copied(content: &[u8], at: u64, buf: &mut [u8]) -> usize
    ensures { result ≤ length buf.new }
{
    let len = content.len() as u64;
    if len <= at {
        return 0;
    }
    let rest = &content[at as usize..];
    let n = rest.len().min(buf.len());
    buf[..n].copy_from_slice(&rest[..n]);
    n
}

impl<'c> Sources for Spoiled<'c> {
    ghost use Rattle.std.specs.Prelude.{None, [], length, ⊤};

    ghost known = { λ _. None };

    ghost files = { λ s. length s.contents.now };

    ghost names = { λ _. [] };

    ghost reads = { λ s. record { failures = s.failures; failed = s.failed } };

    ghost IsLog = { λ _ _. ⊤ };

    fn count(&self) -> usize {
        self.contents.len()
    }

    fn read_at(&mut self, file: usize, at: u64, buf: &mut [u8]) -> Result<usize, SourceFailed> {
        let is_sound = self.sound > 0;
        self.sound = self.sound.saturating_sub(1);
        if !is_sound && self.fault == Fault::Unreadable {
            self.failures = self.failures.saturating_add(1);
            self.failed = Some(file);
            return Err(SourceFailed);
        }
        let n = copied(self.contents.get(file).unwrap_or(b""), at, buf);
        if !is_sound && at == 0 && n > 0 {
            buf[0] ^= 1;
        }
        Ok(n)
    }
}

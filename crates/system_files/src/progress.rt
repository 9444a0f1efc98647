//! The progress of a long build.
use std::fmt::Write;
use std::io::IsTerminal;

/// The number of bytes to read from which on a build is long.
const LONG: u64 = 64 << 20;

/// Shows the done part of a long build on standard error, if this is a terminal.
#[derive(Drop)]
pub struct Progress<'a> {
    rt: &'a HostRuntime,
    is_shown: bool,
    whole: u64,
    done: u64,
    percent: u64,
}

impl<'a> Progress<'a> {
    /// Returns the progress of a build that reads this number of bytes in all, before the first
    /// read.
    pub fn new(rt: &'a HostRuntime, bytes: u64) -> Progress<'a> {
        Progress {
            rt,
            is_shown: bytes >= LONG && rt.stderr().is_terminal(),
            whole: bytes,
            done: 0,
            percent: 0,
        }
    }

    /// Adds a number of bytes that were read.
    pub fn add(&mut self, bytes: usize) {
        self.done = self.done.saturating_add(bytes as u64);
        let percent = self
            .done
            .saturating_mul(100)
            .checked_div(self.whole)
            .unwrap_or(100);
        if self.is_shown && percent > self.percent && percent < 100 {
            self.percent = percent;
            let _ = eprint!(self.rt; "\r{percent} %");
        }
    }

    /// Shows nothing more, and erases what was shown.
    pub fn end(&mut self) {
        if self.is_shown && self.percent > 0 {
            let _ = eprint!(self.rt; "\r      \r");
        }
        self.is_shown = false;
    }
}

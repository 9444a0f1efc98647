//! A writer into memory.
ghost use Rattle.std.specs.Prelude.{◌≡◌, ◌+◌, ◌++◌, [], ◌≤◌, length, take, drop, Some};
ghost use Rattle.rom_fields.specs.Failures.{one_more};
ghost use Rattle.rom_fields.specs.Written.{output_of};

use crate::bytes::{ByteWrite, Failed};
use crate::rewrite::Rewrite;
use std::alloc::Global;

/// A writer into memory. A write fails if memory is refused.
#[derive(Drop)]
pub struct Memory {
    bytes: Vec<u8>,
    failures: u64,
    flushes: u64,
}

impl Memory {
    /// Returns a writer that holds no byte. It allocates no memory.
    pub fn new(alloc: Global) -> Memory
        ensures empty { result.bytes.items ≡ [] }
        ensures failures { result.failures ≡ 0 }
    {
        Memory {
            bytes: Vec::new(alloc),
            failures: 0,
            flushes: 0,
        }
    }

    /// Returns the bytes.
    pub fn into_bytes(self) -> Vec<u8>
        ensures { result ≡ self.bytes }
    {
        self.bytes
    }

    /// Counts a failure.
    fn fail(&mut self) -> Failed
        ensures failures { self.new.failures ≡ one_more self.old.failures }
        ensures flushes { self.new.flushes ≡ self.old.flushes }
        ensures bytes { self.new.bytes ≡ self.old.bytes }
    {
        self.failures = self.failures.saturating_add(1);
        Failed
    }

    /// Replaces bytes from an offset on.
    fn put_at(&mut self, offset: usize, b: &[u8])
        requires { offset + length b.now ≤ length self.old.bytes.items }
        ensures bytes { self.new.bytes.items ≡ take offset self.old.bytes.items
            ++ (b.now ++ drop (offset + length b.now) self.old.bytes.items) }
        ensures failures { self.new.failures ≡ self.old.failures }
    {
        let end = offset + b.len();
        self.bytes.as_mut_slice()[offset..end].copy_from_slice(b);
    }
}

impl ByteWrite for Memory {
    ghost output = { λ s. output_of (Some s.bytes.items) s.failures s.flushes };

    fn write(&mut self, b: &[u8]) -> Result<usize, Failed> {
        match self.bytes.extend_from_slice(b) {
            Ok(()) => Ok(b.len()),
            Err(_) => Err(self.fail()),
        }
    }

    fn flush(&mut self) -> Result<(), Failed> {
        self.flushes = self.flushes.saturating_add(1);
        Ok(())
    }
}

impl Rewrite for Memory {
    fn rewrite(&mut self, back: u64, b: &[u8]) -> Result<(), Failed> {
        let len = self.bytes.len() as u64;
        if back > len {
            return Err(self.fail());
        }
        self.put_at((len - back) as usize, b);
        Ok(())
    }
}

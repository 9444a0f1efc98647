//! The segments of a file, and where in the file an address is.
ghost use Rattle.std.specs.Prelude.{◌≡◌, ◌+◌, ◌≤◌, IfSome, length};
ghost use Rattle.elf_format.specs.Header.{IsHeader};
ghost use Rattle.elf_format.specs.Needs.{bytes_of, has_address, is_segment, place_of, segment};

use crate::header::Header;
use crate::program::Program;

impl Program {
    /// Returns whether it is of this type, with all of its bytes in the file.
    pub(crate) fn is_segment(&self, b: &[u8], kind: u32) -> bool
        ensures { result ≡ is_segment kind b.now self.now }
    {
        let len = b.len() as u64;
        self.kind == kind && self.offset <= len && self.file_size <= len - self.offset
    }

    /// Returns its bytes.
    pub(crate) fn bytes<'a>(&self, b: &'a [u8]) -> &'a [u8]
        requires { self.now.offset + self.now.file_size ≤ length b.now }
        ensures { result.now ≡ bytes_of b.now self.now }
    {
        let rest = &b[self.offset as usize..];
        &rest[..self.file_size as usize]
    }

    /// Returns whether it is loaded, with the byte of this address.
    fn has_address(&self, b: &[u8], address: u64) -> bool
        ensures { result ≡ has_address address b.now self.now }
    {
        self.is_segment(b, 1) && self.address <= address && address - self.address < self.file_size
    }
}

impl Header {
    /// Returns the first program header of a type with all of its bytes in the file.
    pub(crate) fn segment(&self, b: &[u8], kind: u32) -> Option<Program>
        requires { IsHeader b.now self.now }
        ensures is { result ≡ segment kind b.now self.now }
        ensures within { IfSome result (λ p. p.offset + p.file_size ≤ length b.now) }
    {
        for index in 0..self.count {
            let program = self.program(b, index);
            if program.is_segment(b, kind) {
                return Some(program);
            }
        }
        None
    }

    /// Returns the offset in the file of the byte of an address.
    pub(crate) fn place_of(&self, b: &[u8], address: u64) -> Option<usize>
        requires { IsHeader b.now self.now }
        ensures is { result ≡ place_of address b.now self.now }
        ensures within { IfSome result (λ n. n ≤ length b.now) }
    {
        for index in 0..self.count {
            let program = self.program(b, index);
            if program.has_address(b, address) {
                return Some((program.offset + (address - program.address)) as usize);
            }
        }
        None
    }
}

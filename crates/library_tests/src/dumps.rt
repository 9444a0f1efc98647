//! A dump in memory, which can be read at any place, or only from its beginning on.
use image_compare::Dump;
use rom_commands::{Status, Verified, verify_dump};
use rom_fields::Plain;
use std::alloc::Global;
use std::io;
use std::test::Fail;

/// A dump.
#[derive(Clone, Copy)]
struct Flash<'a> {
    bytes: &'a [u8],
    /// Whether it can be read at any place.
    is_random: bool,
}

impl<'a> Dump for Flash<'a> {
    ghost use Rattle.std.specs.Prelude.{Some};

    type Reader = &'a [u8];

    ghost stored = { λ s. Some s.bytes.now };

    fn open(self, offset: u64) -> io::Result<(&'a [u8], u64)> {
        let at = if !self.is_random {
            0
        } else if offset < self.bytes.len() as u64 {
            offset as usize
        } else {
            self.bytes.len()
        };
        Ok((&self.bytes[at..], offset - at as u64))
    }
}

/// What is printed of a comparison with a dump from this byte on, the status, and the difference.
fn verified(
    alloc: Global,
    dump: Flash<'_>,
    offset: u64,
) -> Result<(Vec<u8>, Status, Option<usize>), Fail> {
    let mut out = Plain::new(Vec::new(alloc));
    let mut err = Plain::new(Vec::new(alloc));
    match verify_dump(b"image", dump, offset, &mut out, &mut err) {
        Ok(Verified { ending, difference }) => {
            Ok((out.into_inner(), ending.status(), difference))
        }
        Err(_) => Err(Fail::new("a dump in memory is read")),
    }
}

#[test]
fn dump_from_an_offset_on(rt: HostRuntime) -> Result<(), Fail> {
    for is_random in [true, false] {
        for (bytes, offset, text, difference) in [
            ("..image.", 2, "ok 5\n", None),
            ("..imaXe.", 2, "differ 3\n", Some(3)),
            ("..ima", 2, "differ 3\n", Some(3)),
            ("image", 9, "differ 0\n", Some(0)),
        ] {
            let bytes = bytes.as_bytes();
            let dump = Flash { bytes, is_random };
            let (out, status, found) = verified(rt.alloc(), dump, offset)?;
            assert!(rt; out.as_slice() == text.as_bytes());
            assert!(rt; found == difference);
            assert!(rt; (status == Status::Done) == difference.is_none());
        }
    }
    Ok(())
}

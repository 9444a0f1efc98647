//! A check that is made after an image was written, and keeps what it found.
use image_build::{Contents, Format, LastCheck, Padding, Plan, PlanImage, Slices, Sources, plan};
use image_check::{Limits, check};
use manifest::parse;
use rom_fields::{ByteWrite, Plain};
use std::alloc::Global;
use std::test::Fail;

/// A check, and what it found, once it was made.
#[derive(Drop)]
struct Late {
    is_good: bool,
    found: Option<bool>,
}

impl LastCheck for Late {
    ghost use Rattle.std.specs.Prelude.{◌≡◌, Some, true, false};

    type Error = ();

    ghost passed = { λ late _. late.found ≡ Some true };

    ghost fails = { λ _ late _. late.found ≡ Some false };

    fn check<W: ByteWrite>(&mut self, _: &W) -> Result<(), ()> {
        self.found = Some(self.is_good);
        if self.is_good { Ok(()) } else { Err(()) }
    }
}

/// Returns the plan of the image of a manifest with one source, of five bytes.
fn planned(alloc: Global) -> Result<Plan, Fail> {
    let manifest = parse(alloc, b"file /a 0644 0 0 4 a.txt\n")?;
    if manifest.sources().len() != 1 {
        return Err(Fail::new("one source"));
    }
    match plan(alloc, &manifest, &[5], Format::Romfs) {
        Ok(plan) => Ok(plan),
        Err(_) => Err(Fail::new("a manifest that fits")),
    }
}

/// Writes an image and three bytes after it, through a buffer of enough words. Returns whether that
/// is done, and what the last check found; or nothing if the sources are not those of the plan.
fn written<W: ByteWrite>(
    plan: &Plan,
    contents: &Contents<'_>,
    last: Late,
    buffer: &mut [u8],
    w: &mut W,
) -> Option<(bool, Option<bool>)> {
    let sources = Slices::new(contents);
    if sources.count() != plan.sizes().len() || buffer.len() < 4096 || buffer.len() % 4 != 0 {
        return None;
    }
    let padding = Padding { len: 3, byte: 255 };
    let mut image = PlanImage {
        plan,
        sources,
        padding,
        last,
        buffer,
    };
    let is_done = image.write_through(w).is_ok();
    let PlanImage {
        plan: _,
        sources: _,
        padding: _,
        last,
        buffer: _,
    } = image;
    Some((is_done, last.found))
}

/// All is written before the check, and only a check that passes says that it is done.
#[test]
fn the_last_check_decides(rt: HostRuntime) -> Result<(), Fail> {
    let plan = planned(rt.alloc())?;
    let mut contents = Contents::new(rt.alloc());
    contents.add(b"hello")?;
    for is_good in [true, false] {
        let last = Late {
            is_good,
            found: None,
        };
        let mut w = Plain::new(Vec::new(rt.alloc()));
        let mut buffer = [0u8; 4096];
        let told = written(&plan, &contents, last, &mut buffer, &mut w);
        assert!(rt; told == Some((is_good, Some(is_good))));
        let bytes: Vec<u8> = w.into_inner();
        assert!(rt; bytes.ends_with(b"\xff\xff\xff"));
        assert!(rt; check(rt.alloc(), &bytes, Limits::usual()).is_ok());
    }
    Ok(())
}

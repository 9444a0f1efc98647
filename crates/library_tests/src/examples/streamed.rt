//! Streams an image to a writer, from sources that are read in parts.
use image_build::{Contents, Format, Plan, Slices, Sources, StreamError, plan, stream};
use image_check::{Limits, check};
use manifest::parse;
use rom_fields::{ByteWrite, Plain};
use std::alloc::Global;
use std::test::Fail;

/// Returns the plan of the image of a manifest with one source, of five bytes.
fn planned(alloc: Global) -> Result<Plan, Fail> {
    let manifest = parse(alloc, b"file /a 0644 0 0 4 a.txt\n")?;
    if manifest.sources().len() != 1 {
        return Err(Fail::new("one source"));
    }
    match plan(alloc, &manifest, &[5], Format::Cramfs) {
        Ok(plan) => Ok(plan),
        Err(_) => Err(Fail::new("a manifest that fits")),
    }
}

/// Streams a plan from memory; returns nothing if the number of sources is not the plan's.
fn streamed<W: ByteWrite>(
    plan: &Plan,
    contents: &Contents<'_>,
    w: &mut W,
) -> Option<Result<(), StreamError>> {
    let mut sources = Slices::new(contents);
    if sources.count() != plan.sizes().len() {
        return None;
    }
    Some(stream(plan, &mut sources, w))
}

#[test]
fn what_is_streamed_is_accepted(rt: HostRuntime) -> Result<(), Fail> {
    let mut contents = Contents::new(rt.alloc());
    contents.add(b"hello")?;
    let mut w = Plain::new(Vec::new(rt.alloc()));
    assert!(rt; streamed(&planned(rt.alloc())?, &contents, &mut w) == Some(Ok(())));
    let image: Vec<u8> = w.into_inner();
    assert!(rt; check(rt.alloc(), &image, Limits::usual()).is_ok());
    Ok(())
}

//! Contents, plans and images of manifests, for the tests.
ghost use Rattle.std.specs.Prelude.{◌≡◌, IfOk};
ghost use Rattle.formats.specs.Format.{format_of};

use image_build::{Contents, Format, Plan, build_cramfs, build_cramfs_big, build_romfs, plan};
use manifest::parse;
use std::alloc::Global;
use std::test::Fail;

/// The formats of images.
pub const FORMATS: [Format; 3] = [Format::Romfs, Format::Cramfs, Format::CramfsBig];

/// Files in memory with these contents.
pub fn contents_of<'c>(alloc: Global, all: &[&'c [u8]]) -> Result<Contents<'c>, Fail> {
    let mut contents = Contents::new(alloc);
    for content in all {
        contents.add(content)?;
    }
    Ok(contents)
}

/// The plan of a manifest that fits, for sources of these sizes.
pub fn planned(alloc: Global, text: &[u8], sizes: &[u64], format: Format) -> Result<Plan, Fail>
    ensures { IfOk result (λ p. p.format ≡ format_of format) }
{
    let manifest = parse(alloc, text)?;
    if manifest.sources().len() != sizes.len() {
        return Err(Fail::new("as many sizes as sources"));
    }
    match plan(alloc, &manifest, sizes, format) {
        Ok(plan) => Ok(plan),
        Err(_) => Err(Fail::new("a manifest that fits")),
    }
}

/// The image of a manifest with these contents, if it fits.
pub fn built(
    alloc: Global,
    text: &[u8],
    contents: &Contents<'_>,
    format: Format,
) -> Option<Vec<u8>> {
    match format {
        Format::Romfs => build_romfs(alloc, text, contents).ok(),
        Format::Cramfs => build_cramfs(alloc, text, contents).ok(),
        Format::CramfsBig => build_cramfs_big(alloc, text, contents).ok(),
    }
}

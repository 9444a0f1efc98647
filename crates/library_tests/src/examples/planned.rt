//! Reads a manifest, and plans its image.
use layout_plan::{Format, plan};
use manifest::parse;
use std::test::Fail;

#[test]
fn a_manifest_is_planned(rt: HostRuntime) -> Result<(), Fail> {
    let manifest = parse(rt.alloc(), b"file /a 0644 0 0 4 a.txt\n")?;
    let sizes = [5];
    if manifest.sources().len() != sizes.len() {
        return Err(Fail::new("as many sizes as sources"));
    }
    match plan(rt.alloc(), &manifest, &sizes, Format::Romfs) {
        Ok(plan) => assert!(rt; plan.image_len() == 1024),
        Err(_) => return Err(Fail::new("a manifest that fits")),
    }
    Ok(())
}

//! Walks a path.
use image_check::{Limits, check};
use path_walk::{NodeId, WalkError, walk};
use rom_commands::hello;
use std::test::Fail;

#[test]
fn a_path_leads_to_a_node(rt: HostRuntime) -> Result<(), Fail> {
    let bytes = hello();
    let mut image = check(rt.alloc(), &bytes, Limits::usual())?;
    assert!(rt; walk(&mut image, b"/a", true) == Ok(NodeId(96)));
    assert!(rt; walk(&mut image, b"/b", true) == Err(WalkError::Enoent));
    Ok(())
}

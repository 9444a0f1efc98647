//! Checks under limits that are not the usual ones.
use crate::images::HELLO;
use image_check::check;
use rom_tree::{CheckError, Limits, Report, TreeImage};
use std::alloc::Global;

/// The report on the image of three references and one level, or its fault.
fn checked(alloc: Global, references: u32, depth: u32) -> Result<Report, CheckError> {
    let image = check(alloc, HELLO, Limits { references, depth })?;
    Ok(image.report())
}

/// The fault of this number at this offset.
fn fault(number: u32, at: u32) -> Result<Report, CheckError> {
    Err(CheckError::Fault { number, at })
}

#[test]
fn references_and_depth(rt: HostRuntime) {
    let within = Report {
        references: 3,
        depth: 1,
    };
    assert!(rt; checked(rt.alloc(), 3, 64) == Ok(within));
    assert!(rt; checked(rt.alloc(), 2, 64) == fault(1, 0));
    assert!(rt; checked(rt.alloc(), 3, 0) == fault(21, 96));
}

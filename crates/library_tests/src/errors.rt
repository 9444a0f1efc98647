//! The texts of errors.
use image_build::{BuildError, PlanError, StreamError};
use manifest::ManifestError;
use open_files::CallError;
use path_walk::WalkError;
use rom_fields::CheckError;
use rom_serve::ServeError;
use rom_tree::ListError;
use std::alloc::{AllocError, Global};
use std::fmt::Display;
use std::test::Fail;

/// Whether an error is shown as this text.
fn is_shown<E: Display>(alloc: Global, error: &E, text: &str) -> Result<bool, AllocError> {
    Ok(error.to_string(alloc)?.as_str() == text)
}

#[test]
fn errors_of_reading(rt: HostRuntime) -> Result<(), Fail> {
    let fault = CheckError::Fault { number: 12, at: 96 };
    assert!(rt; is_shown(rt.alloc(), &fault, "12 HeaderSum at 96")?);
    assert!(rt; is_shown(rt.alloc(), &WalkError::Eloop, "3 ELOOP")?);
    assert!(rt; is_shown(rt.alloc(), &CallError::Ebadf, "6 EBADF")?);
    assert!(rt; is_shown(rt.alloc(), &ListError::WriteFault, "a write failed")?);
    assert!(rt; is_shown(rt.alloc(), &ServeError::TooManyReads, "too many reads")?);
    Ok(())
}

#[test]
fn errors_of_building(rt: HostRuntime) -> Result<(), Fail> {
    let bad = ManifestError::Bad { line: 2, number: 5 };
    assert!(rt; is_shown(rt.alloc(), &bad, "5 Exists at line 2")?);
    let refused = PlanError::Refused { line: 2, number: 3 };
    assert!(rt; is_shown(rt.alloc(), &refused, "3 NameTooLong at line 2")?);
    let misfit = BuildError::Plan { line: 0, number: 2 };
    assert!(rt; is_shown(rt.alloc(), &misfit, "plan: 2 TooLarge at line 0")?);
    let failed = StreamError::SourceFault { file: 1 };
    assert!(rt; is_shown(rt.alloc(), &failed, "a read of file 1 failed")?);
    Ok(())
}

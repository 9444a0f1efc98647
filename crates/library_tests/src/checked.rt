//! The result of a check.
ghost use Rattle.std.specs.Prelude.{IfOk};
ghost use Rattle.image_check.specs.Any.{any_view};
ghost use Rattle.rom_tree.specs.Tree.{IsShallow};

use image_check::{AnyImage, check};
use rom_tree::{CheckError, Limits};
use std::alloc::Global;

/// Checks these bytes under the usual limits. It promises less than `check`, so that proofs about
/// it are faster.
pub fn sound(alloc: Global, bytes: &[u8]) -> Result<AnyImage<'_>, CheckError>
    ensures { IfOk result (λ v. IsShallow (any_view v).tree) }
{
    check(alloc, bytes, Limits::usual())
}

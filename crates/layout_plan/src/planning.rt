//! The plan of a manifest.
ghost use Rattle.std.specs.Prelude.{◌≡◌, length, map, IfOk, IfErr};
ghost use Rattle.layout_plan.specs.Refusals.{IsRefusal};
ghost use Rattle.manifest.specs.Lines.{sources_of};
ghost use Rattle.formats.specs.Format.{format_of};
ghost use Rattle.plan_rows.specs.Misfits.{misfit_fault, misfits_of};
ghost use Rattle.manifest_layout.specs.Plans.{IsPlanOf};

use crate::error::PlanError;
use crate::laid::{place, sections};
use manifest::{Manifest, Name};
use manifest_layout::{Format, Plan};
use plan_rows::misfit::TOO_LARGE;
use plan_rows::{Misfit, PathTargets, least_of_lines, root, rows};
use rom_fields::OutOfMemory;
use std::alloc::Global;

/// Returns a copy of a volume's name.
fn volume_of(alloc: Global, m: &Manifest) -> Result<Name, OutOfMemory>
    ensures { IfOk result (λ name. name ≡ m.now.volume) }
{
    let name = m.volume().to_vec(alloc)?;
    Ok(name.into())
}

/// Returns a copy of the sizes.
fn copied(alloc: Global, sizes: &[u64]) -> Result<Vec<u64>, OutOfMemory>
    ensures { IfOk result (λ copy. copy.items ≡ sizes.now) }
{
    let copy = sizes.to_vec(alloc)?;
    Ok(copy)
}

/// Returns the offsets of all that the image of a manifest holds in this format, if its sources
/// have these sizes, one for each. No content is read. It takes time in n log n for n lines.
///
/// # Errors
///
/// `Refused` exactly if the manifest does not fit the format, with the least misfit, unless memory
/// was refused first; `OutOfMemory` if memory was refused.
pub fn plan(alloc: Global, m: &Manifest, sizes: &[u64], format: Format) -> Result<Plan, PlanError>
    requires { length sizes.now ≡ length (sources_of m.now.lines) }
    ensures ok { IfOk result (IsPlanOf (format_of format) m.now sizes.now) }
    ensures err { IfErr result (IsRefusal (format_of format) m.now sizes.now) }
{
    let files = PathTargets::new(alloc, m, sizes)?;
    if let Some(misfit) = least_of_lines(format, m, &files) {
        return Err(PlanError::Refused {
            line: misfit.line,
            number: misfit.number,
        });
    }
    let root = root(m, &files);
    let rows = rows(alloc, m, &files)?;
    let Some(laid) = place(alloc, format, m.volume(), &root, &rows)? else {
        return Err(PlanError::Refused {
            line: 0,
            number: TOO_LARGE,
        });
    };
    let sections = sections(alloc, format, m.volume(), &laid.items)?;
    let volume = volume_of(alloc, m)?;
    let sizes = copied(alloc, sizes)?;
    Ok(Plan::new(format, volume, laid, sections, sizes))
}

/// Returns the misfits of the lines of a manifest in this format, if its sources have these sizes,
/// one for each: of each line that does not fit, the least one, in the order of the lines. The
/// whole and the volume's name are not judged.
///
/// # Errors
///
/// `OutOfMemory`.
pub fn misfits(
    alloc: Global,
    m: &Manifest,
    sizes: &[u64],
    format: Format,
) -> Result<Vec<Misfit>, OutOfMemory>
    requires { length sizes.now ≡ length (sources_of m.now.lines) }
    ensures { IfOk result (λ v. map misfit_fault v.items
        ≡ misfits_of (format_of format) m.now sizes.now m.now.lines) }
{
    let files = PathTargets::new(alloc, m, sizes)?;
    plan_rows::misfits(alloc, format, m, &files)
}

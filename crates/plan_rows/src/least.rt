//! The misfits of the lines of a manifest, and the least one.
ghost use Rattle.std.specs.Prelude.{◌≡◌, List, ℕ, IfOk, Some, length, map};
ghost use Rattle.std.specs.Option.{option_map};
ghost use Rattle.manifest.specs.Grammar.{IsManifest};
ghost use Rattle.manifest_layout.specs.Tests as tests;
ghost use Rattle.manifest_layout.specs.Misfit.{HasLineMisfit};
ghost use Rattle.plan_rows.specs.Files.{IsOf};
ghost use Rattle.formats.specs.Format.{format_of};
ghost use Rattle.plan_rows.specs.Misfits.{misfit_fault, misfits_of};
ghost use Rattle.record_forest.specs.Faults.{IsLeastFaultOf};
ghost use Rattle.record_forest.specs.Lesser.{lesser_of_both};

use crate::PathTargets;
use crate::lines::{is_long_volume, number_of_line};
use crate::misfit::{Misfit, NAME_TOO_LONG};
use manifest::Manifest;
use manifest_layout::Format;
use rom_fields::OutOfMemory;
use std::alloc::Global;

/// Returns the misfit of the first line that does not fit, if there is one.
fn first_of_lines(format: Format, m: &Manifest, files: &PathTargets) -> Option<Misfit>
    ensures first { (sizes : List ℕ) → IsOf m.now.lines sizes files.now
        → option_map misfit_fault result
        ≡ tests.of_lines (format_of format) m.now sizes m.now.lines }
    ensures of_text { IsManifest m.now }
{
    let all = m.lines();
    for line in all {
        if let Some(number) = number_of_line(format, files, line) {
            return Some(Misfit {
                line: line.number,
                number,
            });
        }
    }
    None
}

/// Returns the misfit of the volume's name, if it is too long.
fn of_volume(format: Format, m: &Manifest) -> Option<Misfit>
    ensures { option_map misfit_fault result ≡ tests.volume_by
        (tests.is_long_volume (format_of format) (length m.now.volume)) m.now.volume_line }
{
    if is_long_volume(format, m.volume().len()) {
        Some(Misfit {
            line: m.volume_line(),
            number: NAME_TOO_LONG,
        })
    } else {
        None
    }
}

/// Returns the lesser of two misfits, by line and then by number.
fn lesser(one: Misfit, other: Misfit) -> Misfit
    ensures { Some (misfit_fault result)
        ≡ lesser_of_both (Some (misfit_fault one)) (Some (misfit_fault other)) }
{
    let before = one.line < other.line;
    let beside = one.line == other.line && one.number <= other.number;
    if before || beside { one } else { other }
}

/// Returns the lesser of two misfits, or the only one, or none.
fn lesser_of_both(one: Option<Misfit>, other: Option<Misfit>) -> Option<Misfit>
    ensures { option_map misfit_fault result
        ≡ lesser_of_both (option_map misfit_fault one) (option_map misfit_fault other) }
{
    match (one, other) {
        (None, None) => None,
        (None, Some(misfit)) => Some(misfit),
        (Some(misfit), None) => Some(misfit),
        (Some(one), Some(other)) => Some(lesser(one, other)),
    }
}

/// Returns the least misfit of a manifest's lines and its volume, by line and then by number, if
/// there is one. The sources have the sizes with which `files` was made. The manifest is that of
/// some text.
pub fn least_of_lines(format: Format, m: &Manifest, files: &PathTargets) -> Option<Misfit>
    ensures of_text { IsManifest m.now }
    ensures least { (sizes : List ℕ) → IsOf m.now.lines sizes files.now
        → IsLeastFaultOf (HasLineMisfit (format_of format) m.now sizes)
        (option_map misfit_fault result) }
{
    lesser_of_both(first_of_lines(format, m, files), of_volume(format, m))
}

/// Returns the misfits of the lines of a manifest, in their order: of each line that does not fit,
/// the least one. The sources have the sizes with which `files` was made.
///
/// # Errors
///
/// `OutOfMemory`.
pub fn misfits(
    alloc: Global,
    format: Format,
    m: &Manifest,
    files: &PathTargets,
) -> Result<Vec<Misfit>, OutOfMemory>
    ensures { IfOk result (λ v. (sizes : List ℕ) → IsOf m.now.lines sizes files.now
        → map misfit_fault v.items
        ≡ misfits_of (format_of format) m.now sizes m.now.lines) }
{
    let mut found = Vec::new(alloc);
    let all = m.lines();
    for line in all {
        if let Some(number) = number_of_line(format, files, line) {
            found.push(Misfit {
                line: line.number,
                number,
            })?;
        }
    }
    Ok(found)
}

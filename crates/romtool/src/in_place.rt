//! Which programs of a planned image Linux would execute in place.
use crate::origin::Origin;
use crate::watched::States;
use build_commands::programs::{Programs, Spot, programs_of, spots_of};
use manifest_layout::Plan;
use program_report::{Verdict, verdict_at};
use rom_fields::OutOfMemory;
use std::alloc::{AllocError, AllocFailed};
use system_files::{Refusal, Stamp, program_in};

/// The most bytes of a program.
pub const MOST: u64 = 1 << 32;

/// Why it is not known which programs would be executed in place.
#[derive(Drop)]
pub enum Unknown {
    /// Memory was refused.
    Memory,
    /// The source of this number could not be read.
    Source(usize, Refusal),
}

impl From<AllocError> for Unknown {
    fn from(_: AllocError) -> Unknown {
        Unknown::Memory
    }
}

impl From<OutOfMemory> for Unknown {
    fn from(_: OutOfMemory) -> Unknown {
        Unknown::Memory
    }
}

impl<T: Drop> From<AllocFailed<T>> for Unknown {
    fn from(_: AllocFailed<T>) -> Unknown {
        Unknown::Memory
    }
}

/// Returns what Linux does with a program whose contents begin at an offset of the image.
fn verdict_of(is_romfs: bool, place: u32, bytes: &[u8]) -> Option<Verdict> {
    if bytes.len() as u64 > MOST {
        return None;
    }
    verdict_at(is_romfs, u64::from(place), bytes)
}

/// Returns whether the source of this name may be a program, by what a scan noted, if any.
pub fn may_be_program(states: Option<&States>, name: &str) -> bool {
    states.is_none_or(|states| states.may_be_program(name))
}

/// Returns the verdict on each source that is a program. The sources have these names, states and
/// spots. If a scan noted which of them are programs, only these are opened.
fn verdicts_of(
    rt: &HostRuntime,
    is_romfs: bool,
    states: Option<&States>,
    names: &[&str],
    stamps: &[Stamp],
    spots: &[Spot],
) -> Result<Vec<Option<Verdict>>, Unknown> {
    let mut verdicts = Vec::new(rt.alloc());
    for (file, ((name, stamp), spot)) in names.iter().zip(stamps).zip(spots).enumerate() {
        if !may_be_program(states, name) {
            verdicts.push(None)?;
            continue;
        }
        let verdict = match program_in(rt, name, stamp, MOST) {
            Ok(Some(bytes)) => verdict_of(is_romfs, spot.place, &bytes),
            Ok(None) => None,
            Err(e) if e.is_memory() => return Err(Unknown::Memory),
            Err(e) => return Err(Unknown::Source(file, e)),
        };
        verdicts.push(verdict)?;
    }
    Ok(verdicts)
}

/// Returns the programs of a planned image, if the image is at the front of a page of the flash.
/// The sources have these names and states.
pub fn programs_planned(
    rt: &HostRuntime,
    plan: &Plan,
    origin: Origin<'_>,
    names: &[&str],
    stamps: &[Stamp],
) -> Result<Programs, Unknown> {
    let alloc = rt.alloc();
    let spots = spots_of(alloc, plan, names.len())?;
    let is_romfs = plan.format().order().is_none();
    let verdicts = verdicts_of(rt, is_romfs, origin.states(), names, stamps, &spots)?;
    Ok(programs_of(alloc, origin.manifest.lines(), &spots, &verdicts)?)
}

//! The programs of a planned image, and which of them Linux would not execute in place.
ghost use Rattle.std.specs.Prelude.{◌≡◌, ◌<◌, ℕ, IfOk, OnOk, length, option_map};
ghost use Rattle.std.specs.Prelude.{slice_get, slice_index_or, unwrap_or};
ghost use Rattle.build_commands.specs.Programs as programs;
ghost use Rattle.build_commands.specs.Programs.{is_shared, none, nowhere, programs_in, spot_in};
ghost use Rattle.build_commands.specs.Programs.{verdict_of, with_pages, with_spot, with_unplaced};
ghost use Rattle.build_commands.specs.Programs.{with_verdict};
ghost use Rattle.build_commands.specs.declared.programs.Spot as spot;
ghost use Rattle.manifest_layout.specs.Views.{section_view};

use manifest::{Line, Word};
use manifest_layout::{Body, Plan, Section};
use program_pages::ProgramPages;
use program_report::{Reason, Verdict};
use rom_fields::OutOfMemory;
use std::alloc::Global;

/// The number of bytes of a page.
const PAGE: u32 = 4096;

/// Where the contents of a source are in a planned image, and what follows them.
#[derive(Clone, Copy)]
pub struct Spot {
    /// The offset of their first byte; 0 for an empty source.
    pub place: u32,
    /// Whether other data are in their last page.
    pub is_shared: bool,
}

/// The spot of a source without contents.
const NOWHERE: Spot = Spot {
    place: 0,
    is_shared: false,
};

/// A program that would not be executed in place: the line that names its source, its path, and
/// why.
#[derive(Drop)]
pub struct Unplaced {
    pub line: u64,
    pub path: Vec<u8>,
    pub reason: Reason,
}

/// The programs and libraries of an image. A number that does not fit is 2^64 - 1.
#[derive(Drop)]
pub struct Programs {
    /// How many there are.
    pub count: u64,
    /// How many of their pages are in place.
    pub in_place: u64,
    /// How many of their pages are copied into memory.
    pub copied: u64,
    /// How many of them have a last page that is copied because other data are in it as well.
    pub shared: u64,
    /// Those that are not executed in place, in the order of their lines.
    pub unplaced: Vec<Unplaced>,
}

/// Whether what follows a section is in its last page.
fn is_shared(section: Section, next: Option<Section>) -> bool
    ensures { result ≡ is_shared (section_view section) (option_map section_view next) }
{
    let end = u64::from(section.place) + u64::from(section.len);
    match next {
        Some(next) => {
            end % u64::from(PAGE) != 0 && u64::from(next.place / PAGE) == end / u64::from(PAGE)
        }
        None => false,
    }
}

/// Notes the spot of the source whose contents a section has.
fn note(spots: &mut Vec<Spot>, section: Section, next: Option<Section>)
    ensures { spots.new.items
        ≡ with_spot spots.old.items (section_view section) (option_map section_view next) }
{
    if let Body::Content { file } = section.body
        && file < spots.len()
    {
        spots[file] = Spot {
            place: section.place,
            is_shared: is_shared(section, next),
        };
    }
}

/// Returns the spots of the contents of `count` sources in a planned image.
///
/// # Errors
///
/// `OutOfMemory`.
pub fn spots_of(alloc: Global, plan: &Plan, count: usize) -> Result<Vec<Spot>, OutOfMemory>
    ensures { IfOk result (λ v. (length v.items ≡ count) × ((file : ℕ) (d : spot.Spot)
        → file < count → slice_index_or v.items file d ≡ spot_in file plan.now.sections)) }
{
    let mut spots = Vec::new(alloc);
    spots.resize(count, NOWHERE)?;
    for index in 0..plan.sections() {
        if let Some(section) = plan.section(index) {
            note(&mut spots, section, plan.section(index + 1));
        }
    }
    Ok(spots)
}

impl Programs {
    /// No programs.
    fn none(alloc: Global) -> Programs
        ensures { programs.programs result ≡ none }
    {
        Programs {
            count: 0,
            in_place: 0,
            copied: 0,
            shared: 0,
            unplaced: Vec::new(alloc),
        }
    }

    /// Counts a program that is executed in place.
    fn add_pages(&mut self, spot: Spot, pages: ProgramPages)
        ensures { programs.programs self.new
            ≡ with_pages (programs.programs self.old) spot pages }
    {
        let placed = if spot.is_shared {
            pages.in_place
        } else {
            pages.fixed
        };
        let all = pages.in_place.saturating_add(pages.copied);
        let is_shared = spot.is_shared && pages.in_place < pages.fixed;
        self.count = self.count.saturating_add(1);
        self.in_place = self.in_place.saturating_add(placed);
        self.copied = self.copied.saturating_add(all.saturating_sub(placed));
        self.shared = self.shared.saturating_add(u64::from(is_shared));
    }

    /// Counts a program that is not.
    fn add_unplaced(
        &mut self,
        alloc: Global,
        line: &Line,
        reason: Reason,
        pages: u64,
    ) -> Result<(), OutOfMemory>
        ensures { OnOk result (programs.programs self.new
            ≡ with_unplaced (programs.programs self.old) line.now reason pages) }
    {
        self.unplaced.push(Unplaced {
            line: line.number,
            path: line.path.as_bytes().to_vec(alloc)?,
            reason,
        })?;
        self.count = self.count.saturating_add(1);
        self.copied = self.copied.saturating_add(pages);
        Ok(())
    }

    /// Counts the source of a line, if it is a program.
    fn add(
        &mut self,
        alloc: Global,
        line: &Line,
        spot: Spot,
        verdict: Option<Verdict>,
    ) -> Result<(), OutOfMemory>
        ensures { OnOk result (programs.programs self.new
            ≡ with_verdict (programs.programs self.old) line.now spot verdict) }
    {
        match verdict {
            None => {}
            Some(Verdict::InPlace(pages)) => self.add_pages(spot, pages),
            Some(Verdict::Not { reason, pages }) => {
                self.add_unplaced(alloc, line, reason, pages)?;
            }
        }
        Ok(())
    }
}

/// The verdict on a source, if there is one.
fn verdict_at(verdicts: &[Option<Verdict>], file: usize) -> Option<Verdict>
    ensures { result ≡ verdict_of (slice_get verdicts.now file) }
{
    match verdicts.get(file) {
        Some(verdict) => *verdict,
        None => None,
    }
}

/// The spot of a source.
fn spot_at(spots: &[Spot], file: usize) -> Spot
    ensures { result ≡ unwrap_or (slice_get spots.now file) nowhere }
{
    match spots.get(file) {
        Some(spot) => *spot,
        None => NOWHERE,
    }
}

/// Returns the programs of a planned image. Each source of these lines has a spot, and a verdict if
/// it is a program.
///
/// # Errors
///
/// `OutOfMemory`.
pub fn programs_of(
    alloc: Global,
    lines: &[Line],
    spots: &[Spot],
    verdicts: &[Option<Verdict>],
) -> Result<Programs, OutOfMemory>
    ensures { IfOk result (λ p. programs.programs p
        ≡ programs_in spots.now verdicts.now lines.now) }
{
    let mut programs = Programs::none(alloc);
    let mut file = 0usize;
    for line in lines {
        if matches!(line.word, Word::File) {
            let (spot, verdict) = (spot_at(spots, file), verdict_at(verdicts, file));
            programs.add(alloc, line, spot, verdict)?;
            file += 1;
        }
    }
    Ok(programs)
}

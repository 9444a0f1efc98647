//! The warnings of a build, by number: what Linux would misread in a planned image, how often, and
//! where first. Those from 1 on are the numbers of `romtool linux`.
ghost use Rattle.std.specs.Prelude.{◌≡◌, ◌+◌, ◌^◌, ◌<◌, ◌≤◌, ℕ, List, IfOk, length, map};
ghost use Rattle.formats.specs.Format.{format_of};
ghost use Rattle.manifest.specs.Lines.{sources_of};
ghost use Rattle.plan_rows.specs.Files.{IsOf};
ghost use Rattle.build_commands.specs.Foreseen.{counted, cramfs_told, nothing_told, of_image, told};
ghost use Rattle.build_commands.specs.Foreseen.{last_blocks as last_blocks_in};
ghost use Rattle.build_commands.specs.Foreseen.{lesser as lesser_told, romfs_told, told_in};
ghost use Rattle.build_commands.specs.Foreseen.{IsLeastOf};
ghost use Rattle.build_commands.specs.Planned.{AreFirst};
ghost use Rattle.build_commands.specs.Warnings.{name_of_warning};

use crate::kept::first_files;
use crate::limits::Misread;
use crate::planned::{cramfs_line, romfs_line};
use formats::Format;
use linux_misreads::{Known, is_root_missed};
use manifest::{Line, Manifest};
use plan_rows::PathTargets;
use rom_fields::OutOfMemory;
use std::alloc::Global;
use std::collections::BTreeMap;

/// The number of warnings that exist; 0 is a manifest without a line that makes a file.
const NUMBERS: usize = 11;

/// Returns the name of the warning of this number, or `Unknown` if no warning has it.
pub fn warning_name(number: u32) -> &'static str
    ensures { result.now ≡ name_of_warning number }
{
    match number {
        0 => "Empty",
        1 => "LastBlock",
        2 => "SharedTable",
        3 => "NameCut",
        4 => "NameTooLong",
        5 => "Volume",
        6 => "Device",
        7 => "NamePadded",
        8 => "LinkCut",
        9 => "RootMode",
        10 => "OtherPlace",
        _ => "Unknown",
    }
}

/// A warning: its count, and where it first occurs.
#[derive(Clone, Copy)]
pub struct Warning<'a> {
    /// The number of lines of the manifest to which it applies.
    pub count: u64,
    /// The first of these lines; 0 is the whole image.
    pub line: u64,
    /// The path of that line.
    pub path: &'a [u8],
}

impl<'a> Warning<'a> {
    /// Returns a warning that does not occur.
    fn none() -> Warning<'a>
        ensures { told result ≡ nothing_told }
    {
        Warning {
            count: 0,
            line: 0,
            path: b"/",
        }
    }

    /// Returns the warning with one line more, if it applies to that.
    fn with(self, applies: bool, line: &'a Line) -> Warning<'a>
        requires { self.count + 1 < 2 ^ 64 }
        ensures { told result ≡ counted (told self.entry) applies line.now }
    {
        if !applies {
            return self;
        }
        if self.count == 0 {
            return Warning {
                count: 1,
                line: line.number,
                path: line.path.as_bytes(),
            };
        }
        Warning {
            count: self.count + 1,
            line: self.line,
            path: self.path,
        }
    }

    /// Returns the warning of the whole image or of its volume, if it applies.
    fn of_image(applies: bool, line: u64) -> Warning<'a>
        ensures { told result ≡ of_image applies line }
    {
        Warning {
            count: if applies { 1 } else { 0 },
            line: if applies { line } else { 0 },
            path: b"/",
        }
    }
}

/// The warnings of a planned image, by number.
#[derive(Drop)]
pub struct Warnings<'a> {
    found: [Warning<'a>; NUMBERS],
}

/// Returns the warnings for the image of a manifest in romfs.
fn romfs_warnings<'m>(manifest: &'m Manifest, files: &PathTargets) -> [Warning<'m>; NUMBERS]
    ensures { (sizes : List ℕ) → IsOf manifest.now.lines sizes files.now
        → map told result ≡ romfs_told manifest.now sizes }
{
    let none = Warning::none();
    let (mut cut, mut long, mut device, mut link, mut place) = (none, none, none, none, none);
    let all = manifest.lines();
    for line in all {
        let found = romfs_line(manifest, files, line);
        cut = cut.with(found.name_cut, line);
        long = long.with(found.name_too_long, line);
        device = device.with(found.device, line);
        link = link.with(found.link_cut, line);
        place = place.with(found.other_place, line);
    }
    let empty = Warning::of_image(all.is_empty(), 0);
    let volume = Warning::of_image(is_root_missed(manifest.volume()), manifest.volume_line());
    [
        empty, none, none, cut, long, volume, device, none, link, none, place,
    ]
}

/// Returns the warnings for the image of a manifest in cramfs. `first` has what Linux keeps of the
/// first file with the contents of each source.
fn cramfs_warnings<'m>(
    manifest: &'m Manifest,
    files: &PathTargets,
    first: &BTreeMap<usize, Known>,
) -> [Warning<'m>; NUMBERS]
    ensures { (sizes : List ℕ) → IsOf manifest.now.lines sizes files.now
        → AreFirst manifest.now.lines sizes first.now
        → map told result ≡ cramfs_told manifest.now sizes }
{
    let none = Warning::none();
    let (mut block, mut table, mut device) = (none, none, none);
    let (mut padded, mut link, mut mode) = (none, none, none);
    let all = manifest.lines();
    for line in all {
        let found = cramfs_line(manifest, files, first, line);
        block = block.with(found.last_block, line);
        table = table.with(found.shared_table, line);
        device = device.with(found.device, line);
        padded = padded.with(found.name_padded, line);
        link = link.with(found.link_cut, line);
        mode = mode.with(found.root_mode, line);
    }
    let empty = Warning::of_image(all.is_empty(), 0);
    [
        empty, block, table, none, none, none, device, padded, link, mode, none,
    ]
}

/// Returns the warnings for the image of a manifest in a format, if its sources have these sizes.
///
/// # Errors
///
/// `OutOfMemory` if memory was refused.
pub fn foreseen<'m>(
    alloc: Global,
    format: Format,
    manifest: &'m Manifest,
    sizes: &[u64],
) -> Result<Warnings<'m>, OutOfMemory>
    requires { length sizes.now ≡ length (sources_of manifest.now.lines) }
    ensures { IfOk result (λ w. map told w.found
        ≡ told_in (format_of format) manifest.now sizes.now) }
{
    let files = PathTargets::new(alloc, manifest, sizes)?;
    let found = match format {
        Format::Romfs => romfs_warnings(manifest, &files),
        Format::Cramfs | Format::CramfsBig => {
            let first = first_files(alloc, manifest, &files)?;
            cramfs_warnings(manifest, &files, &first)
        }
    };
    Ok(Warnings { found })
}

/// Returns the lines of a manifest whose files end with a whole block in cramfs (`LastBlock`), in
/// their order.
///
/// # Errors
///
/// `OutOfMemory` if memory was refused.
pub fn last_blocks<'m>(
    alloc: Global,
    manifest: &'m Manifest,
    sizes: &[u64],
) -> Result<Vec<&'m Line>, OutOfMemory>
    requires { length sizes.now ≡ length (sources_of manifest.now.lines) }
    ensures { IfOk result (λ found. map (λ l. l.now) found.items
        ≡ last_blocks_in manifest.now sizes.now) }
{
    let files = PathTargets::new(alloc, manifest, sizes)?;
    let first = first_files(alloc, manifest, &files)?;
    let mut found = Vec::new(alloc);
    let all = manifest.lines();
    for line in all {
        if cramfs_line(manifest, &files, &first, line).last_block {
            found.push(line)?;
        }
    }
    Ok(found)
}

/// Returns the lesser of what was found and a warning with a greater number, if it occurs.
fn lesser(least: Option<Misread>, warning: &Warning<'_>, number: u32) -> Option<Misread>
    ensures { result ≡ lesser_told least (told warning.now) number }
{
    let line = warning.line;
    if warning.count == 0 {
        return least;
    }
    match least {
        Some(first) => {
            if line < first.line {
                Some(Misread { line, number })
            } else {
                Some(first)
            }
        }
        None => Some(Misread { line, number }),
    }
}

/// Returns the least of these warnings, each at its number, that occurs.
fn least_of(found: &[Warning<'_>]) -> Option<Misread>
    requires { length found.now ≤ 11 }
    ensures { IsLeastOf (map told found.now) result }
{
    let mut least: Option<Misread> = None;
    let mut number = 0;
    for warning in found {
        least = lesser(least, warning, number);
        number += 1;
    }
    least
}

impl<'a> Warnings<'a> {
    /// Returns the warnings, each at its number. One that does not occur has the count 0.
    pub fn all(&self) -> &[Warning<'a>]
        ensures { result.now ≡ self.now.found }
    {
        &self.found
    }

    /// Returns the least warning that occurs, compared by line and then by number.
    pub fn least(&self) -> Option<Misread>
        ensures { IsLeastOf (map told self.now.found) result }
    {
        least_of(&self.found)
    }
}

//! The sources of an image: their names and states.
ghost use Rattle.std.specs.Prelude.{◌≡◌, length, map, IfOk};
ghost use Rattle.build_commands.specs.Sources.{joined};

use crate::origin::Origin;
use crate::several::Several;
use crate::stop::{Line, Stop};
use crate::words::Words;
use build_commands::joined_name;
use manifest::Name;
use rom_commands::Ending;
use std::alloc::{AllocError, AllocFailed, Global};
use std::str;
use system_files::{Reason, Refusal, Stamp, stamp_of, stamp_unlinked};

/// The most missing sources that are explained one by one, beside the first.
const MOST_SAID: u64 = 19;

/// Why sources cannot be used.
#[derive(Drop)]
pub enum Unusable {
    OutOfMemory,
    /// The source of this number, from 0 on, cannot be read.
    Missing(usize, Refusal),
}

impl<T: Drop> From<AllocFailed<T>> for Unusable {
    fn from(_: AllocFailed<T>) -> Unusable {
        Unusable::OutOfMemory
    }
}

impl From<AllocError> for Unusable {
    fn from(_: AllocError) -> Unusable {
        Unusable::OutOfMemory
    }
}

/// Returns the names of the sources in a directory.
pub fn joined_names(
    alloc: Global,
    directory: &str,
    sources: &[Name],
) -> Result<Vec<Vec<u8>>, AllocError>
    ensures { IfOk result (λ names. map (λ n. n.items) names.items
        ≡ map (joined directory.now) sources.now) }
{
    let mut names = Vec::new(alloc);
    for source in sources {
        names.push(joined_name(alloc, directory.as_bytes(), source.as_bytes())?)?;
    }
    Ok(names)
}

/// The state of the source of this name.
fn stamp_by(rt: &HostRuntime, origin: Origin<'_>, name: &str) -> Result<Stamp, Refusal> {
    if origin.no_follow {
        stamp_unlinked(rt, name)
    } else {
        stamp_of(rt, name)
    }
}

/// Why the source of this number cannot be read, if it cannot.
fn why_missing(rt: &HostRuntime, origin: Origin<'_>, number: usize) -> Option<Refusal> {
    let Ok(name) = str::from_utf8(origin.source(number)) else {
        return Some(Refusal::Reason(Reason::NoText));
    };
    stamp_by(rt, origin, name).err()
}

/// Adds which later sources cannot be read either: some of them one by one, and then how many more.
fn explain_others(rt: &HostRuntime, words: &mut Words, origin: Origin<'_>, first: usize) {
    if !words.are_asked() {
        return;
    }
    let mut several = Several::new(MOST_SAID);
    for number in first.saturating_add(1)..origin.count() {
        if let Some(why) = why_missing(rt, origin, number)
            && several.says()
        {
            words.add_refused_source(origin, number, why);
        }
    }
    if let Some(more) = several.more()
        && let Ok(what) = format!(in rt.alloc(); "{more} more sources cannot be read")
    {
        words.add(origin.name.as_bytes(), &what);
    }
}

/// Stops since the source of this number cannot be read, and explains why, and which later ones
/// cannot be read either. Those before it can be read.
fn missing(
    rt: &HostRuntime,
    origin: Origin<'_>,
    number: usize,
    why: Refusal,
    mut words: Words,
) -> Stop {
    let line = if why.is_memory() {
        Line::Of(Ending::Memory)
    } else {
        words.add_refused_source(origin, number, why);
        match origin.source(number).to_vec(rt.alloc()) {
            Ok(name) => Line::File(name),
            Err(_) => return Stop::Memory,
        }
    };
    explain_others(rt, &mut words, origin, number);
    Stop::Told(line, words)
}

/// Returns why a build stops whose sources cannot be used: the first one that cannot be read, and
/// words about all of them.
pub fn unusable_sources(rt: &HostRuntime, origin: Origin<'_>, why: Unusable, words: Words) -> Stop {
    let (number, why) = match why {
        Unusable::OutOfMemory => return Stop::Memory,
        Unusable::Missing(number, why) => (number, why),
    };
    if matches!(why, Refusal::Reason(Reason::NoText)) {
        // the names were looked at, and no file before this one
        for before in 0..number {
            if let Some(why) = why_missing(rt, origin, before) {
                return missing(rt, origin, before, why, words);
            }
        }
    }
    missing(rt, origin, number, why, words)
}

/// Returns the names of the sources as texts, since only a UTF-8 name can be opened.
///
/// # Errors
///
/// `Missing` for the first name that is no UTF-8; `OutOfMemory`.
pub fn names_of<'m>(alloc: Global, sources: &'m [Name]) -> Result<Vec<&'m str>, Unusable>
    ensures { IfOk result (λ names. map (λ n. n.now) names.items ≡ sources.now) }
{
    let mut names = Vec::new(alloc);
    for source in sources {
        let Ok(name) = str::from_utf8(source.as_bytes()) else {
            return Err(Unusable::Missing(names.len(), Reason::NoText.into()));
        };
        names.push(name)?;
    }
    Ok(names)
}

/// Returns the same for names that were joined with a directory.
///
/// # Errors
///
/// `Missing` for the first name that is no UTF-8; `OutOfMemory`.
pub fn texts_of<'m>(alloc: Global, joined: &'m [Vec<u8>]) -> Result<Vec<&'m str>, Unusable>
    ensures { IfOk result (λ names. map (λ n. n.now) names.items
        ≡ map (λ j. j.items) joined.now) }
{
    let mut names = Vec::new(alloc);
    for bytes in joined {
        let Ok(name) = str::from_utf8(bytes) else {
            return Err(Unusable::Missing(names.len(), Reason::NoText.into()));
        };
        names.push(name)?;
    }
    Ok(names)
}

/// The state of the source of this name: the one in which a scan found it, if there was one.
fn found_stamp(rt: &HostRuntime, origin: Origin<'_>, name: &str) -> Result<Stamp, Refusal> {
    match origin.states().and_then(|states| states.get(name)) {
        Some(stamp) => Ok(stamp),
        None => stamp_by(rt, origin, name),
    }
}

/// Returns the state of each source.
///
/// # Errors
///
/// `Missing` for the first source that cannot be read; `OutOfMemory`.
pub fn stamps_of(
    rt: &HostRuntime,
    origin: Origin<'_>,
    names: &[&str],
) -> Result<Vec<Stamp>, Unusable>
    ensures { IfOk result (λ stamps. length stamps.items ≡ length names.now) }
{
    let mut stamps = Vec::new(rt.alloc());
    for name in names {
        match found_stamp(rt, origin, name) {
            Ok(stamp) => stamps.push(stamp)?,
            Err(e) => return Err(Unusable::Missing(stamps.len(), e)),
        }
    }
    Ok(stamps)
}

/// Returns the number of bytes of each source.
pub fn sizes_of(alloc: Global, stamps: &[Stamp]) -> Result<Vec<u64>, AllocError>
    ensures { IfOk result (λ sizes. sizes.items ≡ map (λ s. s.len) stamps.now) }
{
    let mut sizes = Vec::new(alloc);
    for stamp in stamps {
        sizes.push(stamp.len)?;
    }
    Ok(sizes)
}

//! The patterns of a scan, for excluded paths and for alignments, and those of a map and of an
//! extraction.
use crate::stop::{Stop, usage};
use command_line::ScanAll;
use path_patterns::{PatternError, Piece, characters, matches, pieces_of};
use rom_commands::Only;
use sentences::reasons::{PATTERN_CLASS, PATTERN_UNFINISHED};
use std::alloc::{AllocError, Global};

/// A pattern, and the alignment of the files that it matches.
#[derive(Drop)]
struct AlignPattern {
    pieces: Vec<Piece>,
    align: u32,
}

/// All patterns of a scan.
#[derive(Drop)]
pub struct Patterns {
    excludes: Vec<Vec<Piece>>,
    aligns: Vec<AlignPattern>,
}

/// The pieces of a pattern. Slashes at its ends are removed, since no path has them.
fn read(alloc: Global, pattern: &str) -> Result<Vec<Piece>, PatternError> {
    let text = characters(alloc, pattern.trim_matches('/'))?;
    pieces_of(alloc, &text)
}

/// The pieces of a pattern.
fn pieces(alloc: Global, pattern: &str) -> Result<Vec<Piece>, Stop> {
    match read(alloc, pattern) {
        Ok(pieces) => Ok(pieces),
        Err(PatternError::OutOfMemory) => Err(Stop::Memory),
        Err(PatternError::Unfinished) => Err(usage(alloc, pattern, PATTERN_UNFINISHED)),
        Err(PatternError::Class) => Err(usage(alloc, pattern, PATTERN_CLASS)),
    }
}

/// Returns the pieces of several patterns.
///
/// # Errors
///
/// `Usage` for a text that is not a pattern; `Memory`.
pub fn all_pieces(alloc: Global, texts: &[&str]) -> Result<Vec<Vec<Piece>>, Stop> {
    let mut patterns = Vec::new(alloc);
    for text in texts {
        patterns.push(pieces(alloc, text)?)?;
    }
    Ok(patterns)
}

/// Returns the choice of the files of a map by these patterns.
///
/// # Errors
///
/// `Usage` for a text that is not a pattern; `Memory`.
pub fn only(alloc: Global, texts: &[&str]) -> Result<Only, Stop> {
    Ok(Only {
        alloc,
        patterns: all_pieces(alloc, texts)?,
    })
}

impl Patterns {
    /// Returns the patterns of a scan.
    ///
    /// # Errors
    ///
    /// `Usage` for a text that is not a pattern; `Memory`.
    pub fn of(alloc: Global, scan: &ScanAll<'_>) -> Result<Patterns, Stop> {
        let excludes = all_pieces(alloc, &scan.excludes)?;
        let mut aligns = Vec::new(alloc);
        for rule in &scan.aligns {
            let (pieces, align) = (pieces(alloc, rule.pattern)?, rule.align);
            aligns.push(AlignPattern { pieces, align })?;
        }
        Ok(Patterns { excludes, aligns })
    }

    /// Returns whether a path below a scanned directory is excluded.
    pub fn exclude(&self, alloc: Global, path: &str) -> Result<bool, AllocError> {
        if self.excludes.is_empty() {
            return Ok(false);
        }
        let path = characters(alloc, path)?;
        for pieces in &self.excludes {
            if matches(alloc, pieces, &path)? {
                return Ok(true);
            }
        }
        Ok(false)
    }

    /// Returns the alignment of the last pattern that matches this path, if one does.
    pub fn align(&self, alloc: Global, path: &str) -> Result<Option<u32>, AllocError> {
        if self.aligns.is_empty() {
            return Ok(None);
        }
        let path = characters(alloc, path)?;
        for rule in self.aligns.iter().rev() {
            if matches(alloc, &rule.pieces, &path)? {
                return Ok(Some(rule.align));
            }
        }
        Ok(None)
    }
}

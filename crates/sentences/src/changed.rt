//! What a format does not keep of the attributes of files.
use crate::words::escaped;
use formats::Format;
use std::alloc::{AllocError, Global};

/// The most paths that are named.
const NAMED: u64 = 3;

/// The first of some paths, and the number of all.
#[derive(Drop)]
pub struct Paths {
    first: String,
    count: u64,
}

impl Paths {
    /// Returns no paths.
    pub fn new(alloc: Global) -> Paths {
        Paths {
            first: String::new(alloc),
            count: 0,
        }
    }

    /// Counts a path. Keeps it if it is one of the first.
    ///
    /// # Errors
    ///
    /// `OutOfMemory`.
    pub fn add(&mut self, alloc: Global, path: &[u8]) -> Result<(), AllocError> {
        if self.count < NAMED {
            let comma = if self.count == 0 { "" } else { ", " };
            let named = format!(in alloc; "{comma}{}", escaped(alloc, path)?)?;
            self.first.push_str(&named)?;
        }
        self.count = self.count.saturating_add(1);
        Ok(())
    }

    /// Returns the number of the paths.
    pub fn count(&self) -> u64 {
        self.count
    }

    /// Returns the first paths, and how many more there are.
    ///
    /// # Errors
    ///
    /// `OutOfMemory`.
    pub fn shown(&self, alloc: Global) -> Result<String, AllocError> {
        let more = self.count.saturating_sub(NAMED);
        if more == 0 {
            String::from_str(alloc, &self.first)
        } else {
            format!(in alloc; "{} and {more} more", &self.first)
        }
    }
}

/// Returns a number of things.
///
/// # Errors
///
/// `OutOfMemory`.
pub fn counted(alloc: Global, count: u64, word: &str) -> Result<String, AllocError> {
    let s = if count == 1 { "" } else { "s" };
    format!(in alloc; "{count} {word}{s}")
}

/// An attribute of files.
#[derive(Clone, Copy, PartialEq, Eq)]
pub enum Attribute {
    Owner,
    Group,
    Mode,
}

impl Attribute {
    fn name(self) -> &'static str {
        match self {
            Attribute::Owner => "owner",
            Attribute::Group => "group",
            Attribute::Mode => "mode",
        }
    }
}

/// The scan that changes attributes.
#[derive(Clone, Copy)]
pub struct Scan {
    pub format: Format,
    /// Whether the changes are refused.
    pub is_refused: bool,
    /// Whether an owner and a group are given.
    pub has_owner: bool,
}

/// The changes of one attribute: its old and its new value in the first file, whether all files
/// have these, and the paths.
#[derive(Drop)]
pub struct Changed {
    attribute: Attribute,
    first: Option<(u32, u32)>,
    are_alike: bool,
    paths: Paths,
}

impl Changed {
    /// Returns no changes.
    pub fn new(alloc: Global, attribute: Attribute) -> Changed {
        Changed {
            attribute,
            first: None,
            are_alike: true,
            paths: Paths::new(alloc),
        }
    }

    /// Adds the change of the file of a path.
    ///
    /// # Errors
    ///
    /// `OutOfMemory`.
    pub fn add(
        &mut self,
        alloc: Global,
        path: &[u8],
        old: u32,
        new: u32,
    ) -> Result<(), AllocError> {
        match self.first {
            None => self.first = Some((old, new)),
            Some(first) => self.are_alike = self.are_alike && first == (old, new),
        }
        self.paths.add(alloc, path)
    }

    /// The files and their changes.
    fn change(&self, alloc: Global, scan: Scan, first: (u32, u32)) -> Result<String, AllocError> {
        let files = counted(alloc, self.paths.count(), "file")?;
        let (became, changed) = if scan.is_refused {
            ("would become", "would change")
        } else {
            ("became", "changed")
        };
        let (old, new) = first;
        let name = self.attribute.name();
        match self.attribute {
            Attribute::Mode if self.are_alike => {
                format!(in alloc; "{name} {old:04o} of {files} {became} {new:04o}")
            }
            Attribute::Mode => format!(in alloc; "the {name}s of {files} {changed}"),
            _ if self.are_alike => format!(in alloc; "{name} {old} of {files} {became} {new}"),
            _ => format!(in alloc; "the {name}s of {files} {became} {new}"),
        }
    }

    /// The limit of the format, and what helps.
    fn cure(&self, alloc: Global, scan: Scan) -> Result<String, AllocError> {
        let (format, most) = (scan.format.name(), scan.format.capacity());
        let (name, most) = (
            self.attribute.name(),
            match self.attribute {
                Attribute::Owner => most.owner,
                _ => most.group,
            },
        );
        if self.attribute == Attribute::Mode {
            return String::from_str(
                alloc,
                "romfs stores only whether a file is executable; cramfs stores modes",
            );
        }
        match (most, scan.has_owner) {
            (0, false) => {
                format!(in alloc; "{format} stores no {name}s; --all-root sets 0 for all files")
            }
            (0, true) => format!(in alloc;
                "{format} stores no {name}s; give 0 in --owner and in the file of devices"
            ),
            (_, false) => {
                format!(in alloc;
                    "{format} stores at most {most}; --all-root or --owner sets another"
                )
            }
            (_, true) => format!(in alloc;
                "{format} stores at most {most}; give no more in --owner and in the file of devices"
            ),
        }
    }

    /// Returns the changes in words, and what helps; nothing if there are none.
    ///
    /// # Errors
    ///
    /// `OutOfMemory`.
    pub fn said(&self, alloc: Global, scan: Scan) -> Result<Option<String>, AllocError> {
        let Some(first) = self.first else {
            return Ok(None);
        };
        let (change, cure) = (self.change(alloc, scan, first)?, self.cure(alloc, scan)?);
        let paths = self.paths.shown(alloc)?;
        Ok(Some(format!(in alloc; "{change}: {paths}; {cure}")?))
    }
}

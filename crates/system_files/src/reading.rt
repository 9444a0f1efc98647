//! Reads files into memory: images up to the size that they state, and manifests. A regular file
//! that changes meanwhile is not read.
use crate::loading::{Found, load};
use crate::reason::{Reason, Refusal};
use crate::stamp::{Identity, Stamp, let_rest};
use formats::{HEAD, reach_of};
use program_streams::read_until;
use std::fs::{File, Metadata, OpenFile};
use std::io::Read;
use std::os::unix::fs::{FileExt, FileTypeExt};
use std::{fs, io};

/// The name by which the system opens standard input.
pub const INPUT: &str = "/proc/self/fd/0";

/// The most bytes of a manifest.
const MOST_OF_MANIFEST: u64 = 1 << 30;

/// More bytes than a line of a manifest can have.
const LONGEST_LINE: u64 = 1 << 20;

/// The reason why a file was not read.
#[derive(Drop)]
pub enum Unread {
    /// It changed while it was read.
    Changed,
    /// The operating system, or this program, refused it.
    Refused(Refusal),
}

impl From<io::Error> for Unread {
    fn from(e: io::Error) -> Unread {
        Unread::Refused(e.into())
    }
}

impl From<Refusal> for Unread {
    fn from(why: Refusal) -> Unread {
        Unread::Refused(why)
    }
}

/// Checks that a file has as many bytes as were wanted of it, and the state that it had before, if
/// it is regular.
fn check_unchanged(file: &File, was: &Metadata, read: u64, wanted: u64) -> Result<(), Unread> {
    if was.is_file() && (read < wanted || Stamp::of(&file.metadata()?) != Stamp::of(was)) {
        return Err(Unread::Changed);
    }
    Ok(())
}

/// How many bytes of an image are read at most, and which option or variable says this.
#[derive(Clone, Copy)]
pub struct Limit {
    /// The number, if what says it is one.
    pub most: Option<u64>,
    pub by: &'static str,
}

/// Refuses an image of which more bytes would be read than the limit allows. Of a pipe this is not
/// known beforehand.
fn check_size(limit: Limit, file: &File, was: &Metadata) -> Result<(), Refusal> {
    let (Some(most), by) = (limit.most, limit.by) else {
        return Err(Reason::NoMaxSize.into());
    };
    let mut front = [0; HEAD];
    let Ok(len) = file.read_at(&mut front, 0) else {
        return Ok(());
    };
    let reach = reach_of(front.get(..len).unwrap_or(&[]));
    let bytes = if was.is_file() {
        reach.min(was.len())
    } else {
        reach
    };
    if bytes > most {
        return Err(Refusal::TooLong { bytes, most, by });
    }
    Ok(())
}

/// Returns the image in a file, with the bytes that a check reads: up to the size that it states. A
/// check of these bytes returns the same as one of the whole file
/// (`image_check::laws::no_further`). If the first 512 bytes of a romfs image in a regular file
/// have a wrong checksum, no more is read: this is its fault (`image_check::laws::refused`).
///
/// # Errors
///
/// The operating system's error; `TooLong` if the image has more bytes than the limit allows;
/// `NoMaxSize` if that is no number; `Changed` if a regular file changed while it was read.
pub fn image(rt: &HostRuntime, limit: Option<Limit>, name: &str) -> Result<Found, Unread> {
    let mut file = File::open(rt, name)?;
    let was = file.metadata()?;
    if let Some(limit) = limit {
        check_size(limit, &file, &was)?;
    }
    let found = load(rt.alloc(), &mut file, was.len())?;
    let (read, wanted) = match &found {
        Found::Image(image) => (
            image.bytes.len() as u64,
            reach_of(&image.bytes).min(was.len()),
        ),
        Found::Refused(_) => (0, 0),
    };
    check_unchanged(&file, &was, read, wanted)?;
    Ok(found)
}

/// Which file a text was read from, and the state that the file had, if it is regular.
#[derive(Clone, Copy)]
pub struct TextFile {
    pub identity: Option<Identity>,
    pub stamp: Option<Stamp>,
}

impl TextFile {
    /// Returns the file with these attributes.
    fn of(found: &Metadata) -> TextFile {
        TextFile {
            identity: Some(Identity::of(found)),
            stamp: if found.is_file() {
                Some(Stamp::of(found))
            } else {
                None
            },
        }
    }
}

/// The text of a manifest, and its file.
#[derive(Drop)]
pub struct Text {
    pub bytes: Vec<u8>,
    pub file: TextFile,
}

/// Returns the bytes of a regular file, at most this number.
///
/// # Errors
///
/// The operating system's error; `InvalidInput` if the file is not regular.
pub fn beginning(rt: &HostRuntime, name: &str, most: u64) -> io::Result<Vec<u8>> {
    if !fs::metadata(rt, name)?.is_file() {
        return Err(io::Error::from(io::ErrorKind::InvalidInput));
    }
    let mut bytes = Vec::new(rt.alloc());
    read_until(&mut File::open(rt, name)?, &mut bytes, most, most)?;
    Ok(bytes)
}

/// Reads the text of a manifest. That of a character device is refused as soon as one of its lines
/// is too long, since a device may never end.
fn read_text<R: Read>(
    reader: &mut R,
    was: Option<&Metadata>,
    bytes: &mut Vec<u8>,
) -> Result<(), Refusal> {
    match was {
        Some(was) if was.file_type().is_char_device() => read_lines(reader, bytes),
        Some(was) if was.is_file() => {
            read_until(reader, bytes, MOST_OF_MANIFEST + 1, was.len())?;
            Ok(())
        }
        _ => {
            read_until(reader, bytes, MOST_OF_MANIFEST + 1, 0)?;
            Ok(())
        }
    }
}

/// Reads lines, of which none has more bytes than the longest one.
fn read_lines<R: Read>(reader: &mut R, bytes: &mut Vec<u8>) -> Result<(), Refusal> {
    for _ in 0..MOST_OF_MANIFEST / LONGEST_LINE {
        let before = bytes.len();
        let until = before as u64 + LONGEST_LINE;
        read_until(reader, bytes, until, until)?;
        if (bytes.len() as u64) < until {
            return Ok(());
        }
        if !bytes.get(before..).unwrap_or(&[]).contains(&b'\n') {
            return Err(Reason::LineTooLong.into());
        }
    }
    read_until(reader, bytes, MOST_OF_MANIFEST + 1, 0)?;
    Ok(())
}

/// Returns the text of the manifest on standard input.
///
/// # Errors
///
/// The operating system's error; `ManifestTooLong` if there are more than 2^30 bytes, `LineTooLong`
/// if there are more than 2^20 in a line of a device; `Changed` if standard input is a regular file
/// that changed meanwhile.
pub fn manifest_of_input(rt: &HostRuntime) -> Result<Text, Unread> {
    let was = fs::metadata(rt, INPUT).ok();
    let mut bytes = Vec::new(rt.alloc());
    read_text(&mut rt.reader(), was.as_ref(), &mut bytes)?;
    if bytes.len() as u64 > MOST_OF_MANIFEST {
        return Err(Unread::Refused(Reason::ManifestTooLong.into()));
    }
    let Some(was) = was else {
        let (identity, stamp) = (None, None);
        return Ok(Text {
            bytes,
            file: TextFile { identity, stamp },
        });
    };
    let file = TextFile::of(&was);
    match fs::metadata(rt, INPUT) {
        Ok(found) if TextFile::of(&found).stamp != file.stamp => Err(Unread::Changed),
        _ => Ok(Text { bytes, file }),
    }
}

/// Returns the text of the manifest in a file.
///
/// # Errors
///
/// The operating system's error; `ManifestTooLong` if the file has more than 2^30 bytes,
/// `LineTooLong` if a device has more than 2^20 in a line; `Changed` if a regular file changed
/// while it was read.
pub fn manifest(rt: &HostRuntime, name: &str) -> Result<Text, Unread> {
    let mut file = File::open(rt, name)?;
    let was = file.metadata()?;
    if was.is_file() {
        let_rest(rt, &[Stamp::of(&was)]);
    }
    let mut bytes = Vec::new(rt.alloc());
    if was.len() <= MOST_OF_MANIFEST {
        read_text(&mut file, Some(&was), &mut bytes)?;
    }
    if was.len().max(bytes.len() as u64) > MOST_OF_MANIFEST {
        return Err(Unread::Refused(Reason::ManifestTooLong.into()));
    }
    check_unchanged(&file, &was, bytes.len() as u64, was.len())?;
    let file = TextFile::of(&was);
    Ok(Text { bytes, file })
}

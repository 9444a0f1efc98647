//! The values of an image at a fault.
ghost use Rattle.std.specs.Prelude.{◌+◌, ◌≤◌, length};
ghost use Rattle.std.specs.Bool.{OnTrue};

use crate::words::shown;
use cramfs_format::{Order, inode, superblock as cramfs};
use crc::{crc32, crc32_more};
use rom_fields::fault::{
    BLOCK_KIND, BOUNDS, CRC, FLAGS, MAGIC, ROOT, SHORT, SIGNATURE, SIZE, SUM, TOO_MANY,
};
use rom_fields::{be32, word_sum};
use romfs_format::{header, superblock as romfs};
use std::alloc::{AllocError, Global};

/// The most bytes over which romfs has a checksum.
const SUMMED: usize = 512;

/// The offset of the checksum in cramfs, and that of the next field.
const CRC_AT: usize = 32;

const CRC_END: usize = 36;

/// The most bytes of a name in romfs, with the zero that ends it.
const ROMFS_NAME: usize = 256;

/// The format by the first bytes of an image.
#[derive(Clone, Copy, PartialEq, Eq)]
enum Begins {
    Romfs,
    Cramfs(Order),
    Neither,
}

fn beginning(bytes: &[u8]) -> Begins {
    if romfs::begins(bytes) {
        return Begins::Romfs;
    }
    match cramfs::order_in(bytes) {
        Some(order) => Begins::Cramfs(order),
        None => Begins::Neither,
    }
}

/// Whether the image has this number of bytes from an offset on.
fn has(bytes: &[u8], at: usize, len: usize) -> bool
    ensures { OnTrue result (at + len ≤ length bytes.now) }
{
    len <= bytes.len() && at <= bytes.len() - len
}

/// The word at an offset, in the byte order of the image.
fn word(bytes: &[u8], at: usize) -> Option<u32> {
    match beginning(bytes) {
        Begins::Cramfs(order) if has(bytes, at, 4) => Some(order.word(bytes, at)),
        Begins::Cramfs(_) => None,
        Begins::Romfs | Begins::Neither => be32(bytes, at),
    }
}

/// The size that the image states.
fn stated(bytes: &[u8]) -> Option<u32> {
    let at = if beginning(bytes) == Begins::Romfs {
        8
    } else {
        4
    };
    word(bytes, at)
}

/// The bytes of an image that its checksum covers: as many as it states, or those that exist.
fn summed(bytes: &[u8]) -> &[u8] {
    let size = match stated(bytes) {
        Some(size) => size as usize,
        None => return bytes,
    };
    match bytes.get(..size) {
        Some(front) => front,
        None => bytes,
    }
}

/// The sum of the words of the first 512 bytes.
fn sum_of(bytes: &[u8]) -> u32 {
    let summed = summed(bytes);
    word_sum(summed.get(..SUMMED).unwrap_or(summed))
}

/// The CRC-32 of a cramfs image. Its stored checksum counts as zero.
fn crc_of(bytes: &[u8]) -> Option<u32> {
    let summed = summed(bytes);
    let front = crc32(summed.get(..CRC_AT)?);
    let zeros = crc32_more(front, &[0; 4]);
    Some(crc32_more(zeros, summed.get(CRC_END..)?))
}

/// The bytes between two offsets, or those that exist.
fn part(bytes: &[u8], from: usize, len: usize) -> &[u8] {
    let behind = bytes.get(from..).unwrap_or(&[]);
    behind.get(..len).unwrap_or(behind)
}

/// The header at an offset of a romfs image.
fn romfs_header(alloc: Global, bytes: &[u8], at: usize) -> Result<String, AllocError> {
    let len = bytes.len();
    if !has(bytes, at, 16) {
        return format!(in alloc; "no header fits there, in an image of {len} bytes");
    }
    let (kind, next) = (header::type_at(bytes, at), header::next_at(bytes, at));
    let (spec, size) = (header::word(bytes, at + 4), header::size_at(bytes, at));
    let name = shown(alloc, romfs::upto_zero(part(bytes, at + 16, ROMFS_NAME)))?;
    format!(in alloc; "type {kind}, next {next}, spec {spec}, size {size}, name {name}")
}

/// The inode at an offset of a cramfs image.
fn cramfs_inode(
    alloc: Global,
    order: Order,
    bytes: &[u8],
    at: usize,
) -> Result<String, AllocError> {
    let len = bytes.len();
    if !has(bytes, at, 12) {
        return format!(in alloc; "no inode fits there, in an image of {len} bytes");
    }
    let (mode, size) = (
        inode::mode_at(order, bytes, at),
        inode::size_at(order, bytes, at),
    );
    let (room, offset) = (
        inode::room_at(order, bytes, at),
        inode::offset_at(order, bytes, at),
    );
    let name = shown(alloc, romfs::upto_zero(part(bytes, at + 12, room as usize)))?;
    format!(in alloc; "mode {mode:o}, size {size}, offset {offset}, name {name}")
}

/// The values of the record at an offset.
fn record(alloc: Global, bytes: &[u8], at: usize) -> Result<String, AllocError> {
    match beginning(bytes) {
        Begins::Romfs => romfs_header(alloc, bytes, at),
        Begins::Cramfs(order) => cramfs_inode(alloc, order, bytes, at),
        Begins::Neither => Ok(String::new(alloc)),
    }
}

/// The word at an offset.
fn one_word(alloc: Global, bytes: &[u8], at: usize) -> Result<String, AllocError> {
    match word(bytes, at) {
        Some(word) => format!(in alloc; "the word there is {word:08x}"),
        None => format!(in alloc; "the image has {} bytes", bytes.len()),
    }
}

/// The three words at an offset, where an inode or a block pointer may be.
fn words(alloc: Global, bytes: &[u8], at: usize) -> Result<String, AllocError> {
    match (
        word(bytes, at),
        word(bytes, at.saturating_add(4)),
        word(bytes, at.saturating_add(8)),
    ) {
        (Some(one), Some(two), Some(three)) => {
            format!(in alloc; "the words there are {one:08x} {two:08x} {three:08x}")
        }
        _ => one_word(alloc, bytes, at),
    }
}

/// The first bytes of a file that holds no image.
fn first_bytes(alloc: Global, bytes: &[u8]) -> Result<String, AllocError> {
    let mut text = String::from_str(alloc, "its first bytes are")?;
    for byte in part(bytes, 0, 8) {
        text.push_str(&format!(in alloc; " {byte:02x}")?)?;
    }
    Ok(text)
}

/// The stored checksum of a cramfs image, and the right one.
fn crcs(alloc: Global, bytes: &[u8]) -> Result<String, AllocError> {
    let (Some(stored), Some(made)) = (word(bytes, CRC_AT), crc_of(bytes)) else {
        return Ok(String::new(alloc));
    };
    format!(in alloc; "{stored:08x} is stored, the bytes have {made:08x}")
}

/// The stated size, and the number of bytes if that is less. Otherwise more bytes may be in the
/// file: what is stated is too small for an image, and only the front was read.
fn sizes(alloc: Global, bytes: &[u8]) -> Result<String, AllocError> {
    let (stated, len) = (stated(bytes).unwrap_or(0), bytes.len());
    if stated as usize <= len {
        return format!(in alloc; "{stated} is stated");
    }
    format!(in alloc; "{stated} is stated, the file has {len} bytes")
}

/// Returns the values that were read at a fault, by its number and offset, in words. The text is
/// empty if the sentence of the fault says everything.
///
/// # Errors
///
/// `OutOfMemory`.
pub fn seen(alloc: Global, bytes: &[u8], number: u32, at: u32) -> Result<String, AllocError> {
    let at = at as usize;
    match number {
        TOO_MANY => Ok(String::new(alloc)),
        SHORT => format!(in alloc; "it has {} bytes", bytes.len()),
        MAGIC => first_bytes(alloc, bytes),
        SIZE => sizes(alloc, bytes),
        SUM => format!(in alloc; "they sum to {:08x} (hexadecimal)", sum_of(bytes)),
        FLAGS => format!(in alloc; "the flags are {:x}", word(bytes, 8).unwrap_or(0)),
        CRC => crcs(alloc, bytes),
        SIGNATURE => shown(alloc, part(bytes, 16, 16)),
        BLOCK_KIND => one_word(alloc, bytes, at),
        BOUNDS if beginning(bytes) != Begins::Romfs => words(alloc, bytes, at),
        ROOT if beginning(bytes) == Begins::Romfs && at == 16 => {
            String::from_str(alloc, "no header fits after the volume's name")
        }
        _ => record(alloc, bytes, at),
    }
}

/// Returns why an image of which so many bytes would be read is refused, in words: the option or
/// the variable `by` allows fewer.
///
/// # Errors
///
/// `OutOfMemory`.
pub fn too_long(alloc: Global, len: u64, most: u64, by: &str) -> Result<String, AllocError> {
    format!(in alloc; "{len} bytes of it would be read, and {by} allows {most}")
}

/// Returns which addresses the bytes of a file have, in words, if the first one has the address
/// `base`, and that this may be wrong.
///
/// # Errors
///
/// `OutOfMemory`.
pub fn range_seen(alloc: Global, base: u64, len: u64) -> Result<String, AllocError> {
    let last = base.saturating_add(len.saturating_sub(1));
    let why = if base == 0 {
        "perhaps --base HEX is missing, the address of the image in the flash"
    } else {
        "is the HEX of --base the address of the image in the flash?"
    };
    format!(in alloc; "its {len} bytes are at 0x{base:08x} to 0x{last:08x}; {why}")
}

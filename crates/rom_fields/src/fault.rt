//! The faults by number. Their meanings are this project's own; docs/FAULTS.md has them in words.
ghost use Rattle.std.specs.Prelude.{◌≡◌};
ghost use Rattle.rom_fields.specs.Faults.{name_of_fault};

/// More references than the limit.
pub const TOO_MANY: u32 = 1;

/// Fewer bytes than a superblock has.
pub const SHORT: u32 = 2;

/// Another magic than that of the format.
pub const MAGIC: u32 = 3;

/// A size that the image cannot have.
pub const SIZE: u32 = 4;

/// The words of the superblock's sum do not sum to 0.
pub const SUM: u32 = 5;

/// Flags of another kind of image.
pub const FLAGS: u32 = 6;

/// The stored CRC is not that of the bytes.
pub const CRC: u32 = 7;

/// Another signature.
pub const SIGNATURE: u32 = 8;

/// The root is not a directory, or is not where a root may be.
pub const ROOT: u32 = 9;

/// Something that a record names is not within the image.
pub const BOUNDS: u32 = 11;

/// The words of a record's header do not sum to 0.
pub const HEADER_SUM: u32 = 12;

/// A name that is empty, is too long, or has a byte that no name may have.
pub const BAD_NAME: u32 = 13;

/// A kind of file that the format does not have.
pub const KIND: u32 = 14;

/// A symbolic link whose text is empty or longer than 4,095 bytes.
pub const LINK_SIZE: u32 = 15;

/// A block that is not stored as it is.
pub const BLOCK_KIND: u32 = 16;

/// An entry that ends after the end of its list.
pub const LIST_END: u32 = 17;

/// Two references lead to one record.
pub const TWICE: u32 = 20;

/// An entry deeper than the limit.
pub const TOO_DEEP: u32 = 21;

/// Two parts of the image share bytes that may not be shared.
pub const OVERLAP: u32 = 22;

/// A name occurs twice in one list.
pub const DUPLICATE_NAME: u32 = 23;

/// `.` or `..` is where it may not be, or leads to the wrong directory.
pub const DOT: u32 = 24;

/// A hard link leads to no file.
pub const HARD_LINK: u32 = 25;

/// In a list that has to be sorted, a name is less than the name before it.
pub const UNSORTED: u32 = 26;

/// A fault of an image: its number, and its offset in bytes from the front.
#[derive(Clone, Copy, Debug, PartialEq, Eq)]
pub struct Fault {
    pub number: u32,
    pub at: u32,
}

/// Returns the name of the fault of this number, or `Unknown` if no fault has the number.
pub fn name(number: u32) -> &'static str
    ensures { result.now ≡ name_of_fault number }
{
    match number {
        TOO_MANY => "TooMany",
        SHORT => "Short",
        MAGIC => "Magic",
        SIZE => "Size",
        SUM => "Sum",
        FLAGS => "Flags",
        CRC => "Crc",
        SIGNATURE => "Signature",
        ROOT => "Root",
        BOUNDS => "Bounds",
        HEADER_SUM => "HeaderSum",
        BAD_NAME => "BadName",
        KIND => "Kind",
        LINK_SIZE => "LinkSize",
        BLOCK_KIND => "BlockKind",
        LIST_END => "ListEnd",
        TWICE => "Twice",
        TOO_DEEP => "TooDeep",
        OVERLAP => "Overlap",
        DUPLICATE_NAME => "DupName",
        DOT => "Dot",
        HARD_LINK => "HardLink",
        UNSORTED => "Unsorted",
        _ => "Unknown",
    }
}

//! The faults of an image, in one sentence each.
ghost use Rattle.std.specs.Prelude.{◌≡◌};
ghost use Rattle.sentences.specs.Faults.{fault_sentence};

use rom_fields::fault::{
    BAD_NAME, BLOCK_KIND, BOUNDS, CRC, DOT, DUPLICATE_NAME, FLAGS, HARD_LINK, HEADER_SUM, KIND,
    LINK_SIZE, LIST_END, MAGIC, OVERLAP, ROOT, SHORT, SIGNATURE, SIZE, SUM, TOO_DEEP, TOO_MANY,
    TWICE, UNSORTED,
};

/// Returns the sentence of the fault of this number. docs/FAULTS.md says more.
pub fn fault_sentence(number: u32) -> &'static str
    ensures { result.now ≡ fault_sentence number }
{
    match number {
        TOO_MANY => "the image has more than 1,048,576 references",
        SHORT =>
            "the file is shorter than a superblock, which has 32 bytes in romfs and 76 in cramfs",
        MAGIC => "the first bytes are those of neither romfs nor cramfs",
        SIZE => "the stated size is smaller than a superblock or greater than the file",
        SUM => "the words of the first 512 bytes do not sum to 0",
        FLAGS => "a flag above 800 (hexadecimal) is set",
        CRC => "the stored CRC-32 is not the CRC-32 of the bytes",
        SIGNATURE => "the superblock lacks the text Compressed ROMFS",
        ROOT => "the root is not where the format says, or is not a directory",
        BOUNDS => "a record, or a part that it names, is outside the image",
        HEADER_SUM => "the words of a file header and its name do not sum to 0",
        BAD_NAME => "a name is empty, has no end, or contains a slash or a zero byte",
        KIND => "the upper four bits of a mode do not stand for a kind of file",
        LINK_SIZE => "the text of a symbolic link is empty or longer than 4,095 bytes",
        BLOCK_KIND =>
            "a block is compressed, or its block pointer is not direct; romtool reads neither",
        LIST_END => "an entry, or its name, goes past the end of its list",
        TWICE => "two references lead to one record, or references form a loop",
        TOO_DEEP => "the path of an entry has more than 64 names",
        OVERLAP => "two parts of the image share bytes",
        DUPLICATE_NAME => "two entries of one directory have the same name",
        DOT => "a name . or .. is not allowed there, or leads to the wrong directory",
        HARD_LINK => "a hard link leads to nothing, to a directory, or through more than 8 links",
        UNSORTED => "in a list that has to be sorted, a name is less than the name before it",
        _ => "no rule has this number",
    }
}

//! What Linux misreads in an image, in one sentence each.
ghost use Rattle.std.specs.Prelude.{◌≡◌};
ghost use Rattle.sentences.specs.Misreads.{misread_sentence};

/// Returns why Linux misreads what has this number, and what helps. 0 is a manifest without a file.
/// docs/LINUX.md says more.
pub fn misread_sentence(number: u32) -> &'static str
    ensures { result.now ≡ misread_sentence number }
{
    match number {
        0 => "no line makes a file, so the image has only an empty root; did the scan fail?",
        1 =>
            "Linux reads the last 4,096 bytes of a file as zeros if its length is a multiple of 4,096; append a byte to the source (truncate -s +1 FILE)",
        2 =>
            "Linux shows files that share contents with the mode and the owner of one of them; write a file line with the source instead of same",
        3 => "Linux lists only 127 bytes of a name that has 128; shorten it",
        4 => "Linux finds no name of more than 128 bytes in romfs; shorten it",
        5 => "Linux finds no root after a volume name of more than 143 bytes; shorten it",
        6 =>
            "Linux keeps no major number above 4095 in romfs, and none above 255 in cramfs; use a lower number",
        7 =>
            "Linux lists but does not find a name with more padding than it needs; build the image with romtool",
        8 =>
            "Linux ends the text of a link before its first zero byte; build the image with romtool",
        9 => "Linux adds 0555 to the mode of the root in cramfs; set these bits in the line dir /",
        10 =>
            "Linux reads a hard link's bytes from a wrong offset if the file's own name has more than 143 bytes; shorten that name",
        _ => "Linux misreads it",
    }
}

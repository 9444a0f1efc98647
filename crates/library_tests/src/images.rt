//! The bytes of small images, which readers of the format descriptions can lay out manually.

/// A romfs image: the file `a` at 96, which holds `hello`.
pub const HELLO: &[u8; 144] = b"\
    -rom1fs-\0\0\0\x90\xc9\xc1\xb0\x6a\
    \0\0\0\0\0\0\0\0\0\0\0\0\0\0\0\0\
    \0\0\0\x49\0\0\0\x20\0\0\0\0\xd1\xff\xff\x97\
    .\0\0\0\0\0\0\0\0\0\0\0\0\0\0\0\
    \0\0\0\x60\0\0\0\x20\0\0\0\0\xd1\xd1\xff\x80\
    ..\0\0\0\0\0\0\0\0\0\0\0\0\0\0\
    \0\0\0\x02\0\0\0\0\0\0\0\x05\x9e\xff\xff\xf9\
    a\0\0\0\0\0\0\0\0\0\0\0\0\0\0\0\
    hello\0\0\0\0\0\0\0\0\0\0\0";

/// A romfs image: the directory `d` at 96 with a link `l` at 192 to `/x`, and the character device
/// `n` at 240.
pub const LINK_AND_DEVICE: &[u8; 272] = b"\
    -rom1fs-\0\0\x01\x10\x71\xaf\x1c\x56\
    \0\0\0\0\0\0\0\0\0\0\0\0\0\0\0\0\
    \0\0\0\x49\0\0\0\x20\0\0\0\0\xd1\xff\xff\x97\
    .\0\0\0\0\0\0\0\0\0\0\0\0\0\0\0\
    \0\0\0\x60\0\0\0\x20\0\0\0\0\xd1\xd1\xff\x80\
    ..\0\0\0\0\0\0\0\0\0\0\0\0\0\0\
    \0\0\0\xf9\0\0\0\x80\0\0\0\0\x9b\xff\xfe\x87\
    d\0\0\0\0\0\0\0\0\0\0\0\0\0\0\0\
    \0\0\0\xa0\0\0\0\x60\0\0\0\0\xd1\xff\xff\0\
    .\0\0\0\0\0\0\0\0\0\0\0\0\0\0\0\
    \0\0\0\xc0\0\0\0\x20\0\0\0\0\xd1\xd1\xff\x20\
    ..\0\0\0\0\0\0\0\0\0\0\0\0\0\0\
    \0\0\0\x03\0\0\0\0\0\0\0\x02\x93\xff\xff\xfb\
    l\0\0\0\0\0\0\0\0\0\0\0\0\0\0\0\
    /x\0\0\0\0\0\0\0\0\0\0\0\0\0\0\
    \0\0\0\x05\0\x01\0\x03\0\0\0\0\x91\xfe\xff\xf8\
    n\0\0\0\0\0\0\0\0\0\0\0\0\0\0\0";

/// A cramfs image of two directories whose entries have the same name: `a` at 76 with the file `x`
/// at 108, and `b` at 92 with the file `x` at 124. The files are empty.
pub const SAME_NAMES: &[u8; 140] = b"\
    \x45\x3d\xcd\x28\0\0\0\0\x02\x08\0\0\0\0\0\0\
    Compressed ROMFS\
    \0\0\0\0\0\0\0\0\0\0\0\0\0\0\0\0\
    \0\0\0\0\0\0\0\0\0\0\0\0\0\0\0\0\
    \xed\x41\0\0\x20\0\0\0\xc0\x04\0\0\
    \xed\x41\0\0\x10\0\0\0\xc1\x06\0\0a\0\0\0\
    \xed\x41\0\0\x10\0\0\0\xc1\x07\0\0b\0\0\0\
    \xa4\x81\0\0\0\0\0\0\x01\0\0\0x\0\0\0\
    \xa4\x81\0\0\0\0\0\0\x01\0\0\0x\0\0\0";

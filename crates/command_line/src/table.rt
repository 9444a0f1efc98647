//! The program's subcommands: the sentence, an example, the arguments and the options of each.

/// How words give a value to an argument.
#[derive(Clone, Copy)]
pub enum Kind {
    /// A required value.
    Value,
    /// One to eight values.
    Few,
    /// At least one value.
    Several,
    /// Any number of values, which come last.
    Any,
    /// `--NAME VALUE`, at most once.
    Option,
    /// `--NAME VALUE` or `-LETTER VALUE`, at most once.
    Lettered(char),
    /// `--NAME VALUE`, any number of times.
    Repeated,
    /// `--NAME`, at most once.
    Flag,
}

/// An argument of a subcommand.
#[derive(Clone, Copy)]
pub struct Word<'a> {
    pub kind: Kind,
    pub name: &'a str,
    /// The name of the value in help.
    pub shown: &'a str,
    pub help: &'a str,
}

/// A subcommand.
#[derive(Clone, Copy)]
pub struct Subcommand<'a> {
    pub name: &'a str,
    pub about: &'a str,
    /// The text after the options in help.
    pub example: &'a str,
    pub words: &'a [Word<'a>],
}

/// The option that every subcommand has.
pub const EXPLAIN: Word<'static> = Word {
    kind: Kind::Flag,
    name: "explain",
    shown: "",
    help: "Explains on standard error why something was refused or failed",
};

const IMAGE: Word<'static> = Word {
    kind: Kind::Value,
    name: "image",
    shown: "IMAGE",
    help: "The file of the image",
};

const CHECKED: Word<'static> = Word {
    kind: Kind::Several,
    name: "image",
    shown: "IMAGE",
    help: "The file of the image; with --each also several",
};

const EACH: Word<'static> = Word {
    kind: Kind::Flag,
    name: "each",
    shown: "",
    help: "Checks several images, each after a line with its name",
};

const MOST: Word<'static> = Word {
    kind: Kind::Option,
    name: "max-size",
    shown: "N",
    help: "Refuses an image of more than N bytes, such as 64K, 2M, 1G or 0x10000",
};

const SIZE: Word<'static> = Word {
    kind: Kind::Option,
    name: "size",
    shown: "N",
    help: "Reports whether the image fits into N bytes, such as 64K, 2M, 1G or 0x10000, and how many are left",
};

const BASE: Word<'static> = Word {
    kind: Kind::Option,
    name: "base",
    shown: "HEX",
    help: "The address of the image's first byte, in hexadecimal digits with or without 0x; the default is 0",
};

const ALL_EXTENTS: Word<'static> = Word {
    kind: Kind::Flag,
    name: "all",
    shown: "",
    help: "Prints a line for each extent of the image, so that every byte is in a line",
};

const C_HEADER: Word<'static> = Word {
    kind: Kind::Flag,
    name: "c",
    shown: "",
    help: "Prints a header for C with the address, the length and the path of each file",
};

const ARRAY: Word<'static> = Word {
    kind: Kind::Flag,
    name: "c",
    shown: "",
    help: "Prints an array of C, and not the 48 bytes themselves",
};

const SCRIPT: Word<'static> = Word {
    kind: Kind::Flag,
    name: "ld",
    shown: "",
    help: "Prints a script for a linker that provides the address and the length of each file",
};

const PREFIX: Word<'static> = Word {
    kind: Kind::Option,
    name: "prefix",
    shown: "NAME",
    help: "With --c or --ld: the prefix of the names",
};

const ONLY: Word<'static> = Word {
    kind: Kind::Repeated,
    name: "only",
    shown: "GLOB",
    help: "With --c or --ld: only the files whose paths match",
};

const SVG: Word<'static> = Word {
    kind: Kind::Flag,
    name: "svg",
    shown: "",
    help: "Prints a picture of the image as SVG",
};

const ADDRESSES: Word<'static> = Word {
    kind: Kind::Several,
    name: "address",
    shown: "ADDRESS",
    help: "Addresses in hexadecimal digits, with or without 0x",
};

const OLD: Word<'static> = Word {
    kind: Kind::Value,
    name: "old",
    shown: "A",
    help: "The file of the old image",
};

const NEW: Word<'static> = Word {
    kind: Kind::Value,
    name: "new",
    shown: "B",
    help: "The file of the new image",
};

const TREE: Word<'static> = Word {
    kind: Kind::Flag,
    name: "tree",
    shown: "",
    help: "Compares only the trees, and not the offsets of contents",
};

const DIGESTED: Word<'static> = Word {
    kind: Kind::Value,
    name: "file",
    shown: "IMAGE",
    help: "The file of the image",
};

const WHOLE: Word<'static> = Word {
    kind: Kind::Flag,
    name: "image",
    shown: "",
    help: "Prints the SHA-256 of the image's bytes, and not of its files",
};

const DUMP: Word<'static> = Word {
    kind: Kind::Value,
    name: "dump",
    shown: "DUMP",
    help: "The file of the dump, which may be longer than the image",
};

const OFFSET: Word<'static> = Word {
    kind: Kind::Option,
    name: "offset",
    shown: "N",
    help: "The offset of the image in the dump, in bytes, such as 4096, 64K or 0x10000; the default is 0",
};

const PATH: Word<'static> = Word {
    kind: Kind::Value,
    name: "path",
    shown: "PATH",
    help: "The path of the file in the image, from its root",
};

const NO_MMU: Word<'static> = Word {
    kind: Kind::Flag,
    name: "no-mmu",
    shown: "",
    help: "Reports what a kernel without an MMU executes in place",
};

const ADVICE: Word<'static> = Word {
    kind: Kind::Flag,
    name: "advice",
    shown: "",
    help: "Also prints what costs space: much behind a program's segments, alignment of other files",
};

const NEEDS: Word<'static> = Word {
    kind: Kind::Flag,
    name: "needs",
    shown: "",
    help: "Prints instead which interpreters and libraries its programs need and it does not have",
};

const IMAGES: Word<'static> = Word {
    kind: Kind::Few,
    name: "image",
    shown: "IMAGE",
    help: "The files of the images, one to eight",
};

const FORMAT: Word<'static> = Word {
    kind: Kind::Value,
    name: "format",
    shown: "FORMAT",
    help: "romfs, cramfs or cramfs-be (big-endian)",
};

const MANIFEST: Word<'static> = Word {
    kind: Kind::Value,
    name: "manifest",
    shown: "MANIFEST",
    help: "The file of the manifest; - is standard input",
};

const OUT: Word<'static> = Word {
    kind: Kind::Value,
    name: "out",
    shown: "OUT",
    help: "The file of the image, which is replaced as a whole",
};

const NO_FOLLOW: Word<'static> = Word {
    kind: Kind::Flag,
    name: "no-follow",
    shown: "",
    help: "Refuses a source if the last name of its path is a symbolic link",
};

const STRICT_BUILD: Word<'static> = Word {
    kind: Kind::Flag,
    name: "strict",
    shown: "",
    help: "Refuses what Linux would misread, and an empty manifest",
};

const NEEDS_BUILD: Word<'static> = Word {
    kind: Kind::Flag,
    name: "needs",
    shown: "",
    help: "Refuses a program that needs an interpreter or a library which the image would not have",
};

const XIP_BUILD: Word<'static> = Word {
    kind: Kind::Flag,
    name: "xip",
    shown: "",
    help: "Refuses an image in which a program would not be executed in place",
};

const MAX_SIZE: Word<'static> = Word {
    kind: Kind::Option,
    name: "max-size",
    shown: "N",
    help: "Refuses an image of more than N bytes, such as 64K, 2M, 1G or 0x10000",
};

const PARTITION: Word<'static> = Word {
    kind: Kind::Option,
    name: "size",
    shown: "N",
    help: "Fills the file up to N bytes, those of a partition; a larger image is refused",
};

const FILL: Word<'static> = Word {
    kind: Kind::Option,
    name: "fill",
    shown: "BYTE",
    help: "With --size: the value of each byte after the image; the default is 0xff",
};

const DIRECTORY: Word<'static> = Word {
    kind: Kind::Lettered('C'),
    name: "directory",
    shown: "DIR",
    help: "The directory from which the names of sources start",
};

const DEPFILE_SCANNED: Word<'static> = Word {
    kind: Kind::Option,
    name: "depfile",
    shown: "FILE",
    help: "With --all and -o: writes to FILE a rule for make: the files and directories that were scanned",
};

const DEPFILE: Word<'static> = Word {
    kind: Kind::Option,
    name: "depfile",
    shown: "FILE",
    help: "Writes to FILE a rule for make: the files that OUT was made of",
};

const DIRECTORIES: Word<'static> = Word {
    kind: Kind::Several,
    name: "folder",
    shown: "DIR",
    help: "The directory; with --all also several: files of a later one replace files of earlier ones",
};

const ALL: Word<'static> = Word {
    kind: Kind::Flag,
    name: "all",
    shown: "",
    help: "Prints files of all kinds, with their modes, owners and further names",
};

const FOR: Word<'static> = Word {
    kind: Kind::Option,
    name: "for",
    shown: "FORMAT",
    help: "With --all: changes attributes to the nearest that romfs, cramfs or cramfs-be can hold",
};

const ALIGN: Word<'static> = Word {
    kind: Kind::Repeated,
    name: "align",
    shown: "[GLOB=]N",
    help: "With --all: the alignment (4 to 64K) of files that match GLOB; without GLOB, of programs and libraries",
};

const OWNER: Word<'static> = Word {
    kind: Kind::Option,
    name: "owner",
    shown: "UID:GID",
    help: "With --all: the owner and the group of all files",
};

const ALL_ROOT: Word<'static> = Word {
    kind: Kind::Flag,
    name: "all-root",
    shown: "",
    help: "With --all: the same as --owner 0:0",
};

const EXCLUDE: Word<'static> = Word {
    kind: Kind::Repeated,
    name: "exclude",
    shown: "GLOB",
    help: "With --all: excludes the paths below DIR that match",
};

const VOLUME: Word<'static> = Word {
    kind: Kind::Option,
    name: "volume",
    shown: "NAME",
    help: "With --all: the name of the volume",
};

const DEVICES: Word<'static> = Word {
    kind: Kind::Option,
    name: "devices",
    shown: "FILE",
    help: "With --all: adds the devices and other special lines of a manifest, and sets modes and owners",
};

const DEVICE_TABLE: Word<'static> = Word {
    kind: Kind::Option,
    name: "device-table",
    shown: "FILE",
    help: "With --all: adds the devices of a table for makedevs, and sets modes and owners by it",
};

const DEVICE: Word<'static> = Word {
    kind: Kind::Repeated,
    name: "device",
    shown: "DEVICE",
    help: "With --all: adds the device 'PATH TYPE MAJOR MINOR MODE', such as '/dev/console c 5 1 0600'",
};

const DEDUPE: Word<'static> = Word {
    kind: Kind::Flag,
    name: "dedupe",
    shown: "",
    help: "With --all, for cramfs: stores the contents of equal files once",
};

const OUTPUT: Word<'static> = Word {
    kind: Kind::Lettered('o'),
    name: "output",
    shown: "FILE",
    help: "With --all: writes the manifest to FILE, which is replaced as a whole",
};

const ONE_FILE_SYSTEM: Word<'static> = Word {
    kind: Kind::Flag,
    name: "one-file-system",
    shown: "",
    help: "Does not enter directories on which other file systems are mounted",
};

const STRICT_SCAN: Word<'static> = Word {
    kind: Kind::Flag,
    name: "strict",
    shown: "",
    help: "With --all: refuses the scan if --for would change attributes",
};

const PACKED: Word<'static> = Word {
    kind: Kind::Several,
    name: "folder",
    shown: "DIR.. OUT",
    help: "The directories, and the file of the image, which is replaced as a whole",
};

const ALIGN_PACKED: Word<'static> = Word {
    kind: Kind::Repeated,
    name: "align",
    shown: "[GLOB=]N",
    help: "The alignment (4 to 64K) of files that match GLOB; without GLOB, of programs and libraries",
};

const OWNER_PACKED: Word<'static> = Word {
    kind: Kind::Option,
    name: "owner",
    shown: "UID:GID",
    help: "The owner and the group of all files",
};

const ROOT_PACKED: Word<'static> = Word {
    kind: Kind::Flag,
    name: "all-root",
    shown: "",
    help: "The same as --owner 0:0",
};

const EXCLUDE_PACKED: Word<'static> = Word {
    kind: Kind::Repeated,
    name: "exclude",
    shown: "GLOB",
    help: "Excludes the paths below DIR that match",
};

const VOLUME_PACKED: Word<'static> = Word {
    kind: Kind::Option,
    name: "volume",
    shown: "NAME",
    help: "The name of the volume",
};

const DEVICES_PACKED: Word<'static> = Word {
    kind: Kind::Option,
    name: "devices",
    shown: "FILE",
    help: "Adds the devices and other special lines of a manifest, and sets modes and owners",
};

const TABLE_PACKED: Word<'static> = Word {
    kind: Kind::Option,
    name: "device-table",
    shown: "FILE",
    help: "Adds the devices of a table for makedevs, and sets modes and owners by it",
};

const DEVICE_PACKED: Word<'static> = Word {
    kind: Kind::Repeated,
    name: "device",
    shown: "DEVICE",
    help: "Adds the device 'PATH TYPE MAJOR MINOR MODE', such as '/dev/console c 5 1 0600'",
};

const DEDUPE_PACKED: Word<'static> = Word {
    kind: Kind::Flag,
    name: "dedupe",
    shown: "",
    help: "In cramfs: stores the contents of equal files once",
};

const STRICT_PACK: Word<'static> = Word {
    kind: Kind::Flag,
    name: "strict",
    shown: "",
    help: "Refuses what FORMAT cannot hold unchanged, and what Linux would misread",
};

const KEPT: Word<'static> = Word {
    kind: Kind::Option,
    name: "manifest",
    shown: "FILE",
    help: "Writes the manifest to FILE, also if the build is refused then",
};

const QUIET: Word<'static> = Word {
    kind: Kind::Flag,
    name: "quiet",
    shown: "",
    help: "Writes no words on standard error",
};

const INTO: Word<'static> = Word {
    kind: Kind::Value,
    name: "folder",
    shown: "DIR",
    help: "The directory; it is made, or has to be empty",
};

const PATHS: Word<'static> = Word {
    kind: Kind::Any,
    name: "path",
    shown: "PATH",
    help: "Only what these patterns match, and all below it; without PATH, all files",
};

const OWNERS: Word<'static> = Word {
    kind: Kind::Flag,
    name: "owners",
    shown: "",
    help: "Sets owners and all bits of modes; otherwise, set-user and set-group bits are left out",
};

const NO_SYNC: Word<'static> = Word {
    kind: Kind::Flag,
    name: "no-sync",
    shown: "",
    help: "Does not wait until the disk has the files, which is faster",
};

const ALIGN_AGAIN: Word<'static> = Word {
    kind: Kind::Option,
    name: "align",
    shown: "N",
    help: "The alignment (4 to 64K) of programs and libraries in the manifest, for a build that executes them in place",
};

/// The subcommands that read one image or two. Help shows them first, and then those of the next
/// tables. (One table of all subcommands takes the prover much longer than several.)
pub const READING: [Subcommand<'static>; 12] = [
    Subcommand {
        name: "check",
        about: "Reports whether a file holds a valid image, or which fault it has",
        example: "Example: romtool check app.cramfs",
        words: &[EACH, MOST, CHECKED],
    },
    Subcommand {
        name: "list",
        about: "Prints a line for each name in an image",
        example: "Example: romtool list app.cramfs",
        words: &[IMAGE, MOST],
    },
    Subcommand {
        name: "info",
        about: "Prints a summary of an image: its format, volume, sizes, and how many names of each kind",
        example: "Example: romtool info --size 2M app.cramfs",
        words: &[IMAGE, SIZE, MOST],
    },
    Subcommand {
        name: "map",
        about: "Prints the address in the flash of each file of an image",
        example: "Example: romtool map --base 0x08000000 app.cramfs",
        words: &[
            IMAGE,
            BASE,
            ALL_EXTENTS,
            C_HEADER,
            SCRIPT,
            PREFIX,
            ONLY,
            SVG,
            MOST,
        ],
    },
    Subcommand {
        name: "which",
        about: "Prints what is at the given addresses of the flash",
        example: "Example: romtool which --base 0x08000000 app.cramfs 0x08000010",
        words: &[IMAGE, BASE, MOST, ADDRESSES],
    },
    Subcommand {
        name: "diff",
        about: "Prints the differences of two images",
        example: "Example: romtool diff old.cramfs app.cramfs",
        words: &[OLD, NEW, TREE, MOST],
    },
    Subcommand {
        name: "digest",
        about: "Prints the SHA-256 of each file of an image",
        example: "Example: romtool digest app.cramfs",
        words: &[DIGESTED, WHOLE, MOST],
    },
    Subcommand {
        name: "verify",
        about: "Compares a dump of the flash with an image",
        example: "Example: romtool verify app.cramfs flash.bin",
        words: &[IMAGE, DUMP, OFFSET, MOST],
    },
    Subcommand {
        name: "numbers",
        about: "Prints a description of an image, with which firmware opens it without a check",
        example: "Example: romtool numbers --c app.cramfs",
        words: &[IMAGE, ARRAY, MOST],
    },
    Subcommand {
        name: "cat",
        about: "Prints the bytes of a file in an image",
        example: "Example: romtool cat app.cramfs /etc/motd",
        words: &[IMAGE, PATH, MOST],
    },
    Subcommand {
        name: "linux",
        about: "Prints what Linux misreads in a valid image",
        example: "Example: romtool linux app.cramfs",
        words: &[IMAGE, NEEDS, MOST],
    },
    Subcommand {
        name: "xip",
        about: "Prints which programs of an image Linux executes in place",
        example: "Example: romtool xip app.cramfs",
        words: &[IMAGE, BASE, NO_MMU, ADVICE, MOST],
    },
];

/// The subcommands that serve and build images.
pub const BUILDING: [Subcommand<'static>; 4] = [
    Subcommand {
        name: "serve",
        about: "Answers requests on standard input about the files of an image",
        example: "Example: echo stat / | romtool serve app.cramfs",
        words: &[IMAGE, MOST],
    },
    Subcommand {
        name: "space",
        about: "Answers requests about one to eight images, with sessions and mounts",
        example: "Example: echo 0 stat / | romtool space app.cramfs data.romfs",
        words: &[MOST, IMAGES],
    },
    Subcommand {
        name: "build",
        about: "Builds the image of a manifest and of the files that it names",
        example: "Example: romtool build cramfs manifest app.cramfs",
        words: &[
            FORMAT,
            MANIFEST,
            OUT,
            NO_FOLLOW,
            STRICT_BUILD,
            XIP_BUILD,
            NEEDS_BUILD,
            MAX_SIZE,
            PARTITION,
            FILL,
            DIRECTORY,
            DEPFILE,
        ],
    },
    Subcommand {
        name: "pack",
        about: "Builds the image of directories as they are: scan --all and build in one step",
        example: "Example: romtool pack --all-root --align 4096 cramfs app app.cramfs",
        words: &[
            FORMAT,
            PACKED,
            ALIGN_PACKED,
            OWNER_PACKED,
            ROOT_PACKED,
            EXCLUDE_PACKED,
            VOLUME_PACKED,
            DEVICES_PACKED,
            TABLE_PACKED,
            DEVICE_PACKED,
            DEDUPE_PACKED,
            ONE_FILE_SYSTEM,
            STRICT_PACK,
            XIP_BUILD,
            NEEDS_BUILD,
            MAX_SIZE,
            PARTITION,
            FILL,
            DEPFILE,
            KEPT,
            QUIET,
        ],
    },
];

/// The other subcommands.
pub const OTHERS: [Subcommand<'static>; 3] = [
    Subcommand {
        name: "scan",
        about: "Prints a manifest of a directory",
        example: "Example: romtool scan --all --for cramfs -o manifest app",
        words: &[
            DIRECTORIES,
            ALL,
            FOR,
            ALIGN,
            OWNER,
            ALL_ROOT,
            EXCLUDE,
            VOLUME,
            DEVICES,
            DEVICE_TABLE,
            DEVICE,
            DEDUPE,
            OUTPUT,
            DEPFILE_SCANNED,
            ONE_FILE_SYSTEM,
            STRICT_SCAN,
        ],
    },
    Subcommand {
        name: "extract",
        about: "Writes the files of an image into a directory, and prints its manifest",
        example: "Example: romtool extract app.cramfs dir",
        words: &[IMAGE, INTO, ALIGN_AGAIN, OWNERS, NO_SYNC, MOST, PATHS],
    },
    Subcommand {
        name: "version",
        about: "Prints the program's version",
        example: "Example: romtool version",
        words: &[],
    },
];

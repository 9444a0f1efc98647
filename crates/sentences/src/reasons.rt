//! What the program says of a file, a word or a line for a reason of its own.

/// A file was left out of a scan.
pub const PART_LEFT_OUT: &str =
    "left out: it is a part of a file that this command writes, left by an interrupted build";

/// A file has the name of a part, and is none.
pub const NO_PART: &str =
    "warning: it has the name of a part of a file that this command writes, but not the mark of \
     one (mode 1000), so it is scanned like any other file";

/// The image or the rule has the name of a file that the image is made of.
pub const OWN_INPUT: &str = "it is the manifest or a source, which a build never replaces";

/// The image has the name of standard output.
pub const OWN_OUTPUT: &str =
    "it is standard output, and the line ok LENGTH would get into the image";

/// The rule has the name of the image.
pub const OWN_RULE: &str = "it is also OUT, the file of the image";

/// The rule has the name of a part of the image, or the reverse.
pub const OWN_PART: &str = "it has the name of a part of OUT, or OUT that of a part of it";

/// A rule has a name that make cannot read.
pub const RULE_UNFIT: &str = "make cannot read a name in it; PROTOCOL.md lists such names";

/// The last word of `pack` is a directory, and one before it is none.
pub const OUT_IS_LAST: &str = "it is a directory; OUT, the file of the image, is the last word";

/// The system refused a part of the image.
pub const NOT_TAKEN: &str = "not all of the image could be written to it";

/// A word of the command line is no UTF-8.
pub const NO_WORD: &str = "it is not UTF-8, and every word has to be UTF-8";

/// The name of the part leads to another file.
pub const PART_REPLACED: &str = "its part was renamed, replaced or removed meanwhile";

/// The bytes that were written are not those of the checksum.
pub const SUM_DIFFERS: &str = "a source changed while it was read, so the stored checksum is wrong";

/// The last byte of an image would have no address.
pub const NO_ADDRESS: &str = "with this --base it has addresses of more than 64 bits";

/// The prefix of names for C is not valid.
pub const NO_PREFIX: &str =
    "--prefix has to begin with a letter, and to have only letters, digits and _";

/// Linux misreads something in a valid image.
pub const MISREAD: &str =
    "it is valid, but Linux misreads what these lines name; see LINUX, By number";

/// A program in a valid image needs a file that the image does not have.
pub const NEEDED: &str =
    "these are needed and not found, or were not looked at; see PROTOCOL, What programs need";

/// A program in a valid image is not, or not wholly, executed in place.
pub const NOT_IN_PLACE: &str =
    "Linux does not execute all of these programs in place; see PROTOCOL, Programs in place";

/// The directory that was being filled is incomplete.
pub const INCOMPLETE: &str = "it is incomplete; the files that were made in it are still there";

/// No manifest can describe the image, since a path in it is too long.
pub const LONG_PATH: &str = "a path in it has more than 4095 bytes, the most in a manifest";

/// No manifest can describe the image, since its volume's name is too long.
pub const LONG_VOLUME: &str = "its volume's name has more than 255 bytes, the most in a manifest";

/// A pattern ends within brackets or after a backslash.
pub const PATTERN_UNFINISHED: &str = "it has a [ without its ], or a backslash at its end";

/// A pattern has a class of characters.
pub const PATTERN_CLASS: &str = "it has a class such as [:alpha:], and patterns have no classes";

/// At one path, a later directory has a directory and an earlier one has not, or the reverse.
pub const KINDS_DIFFER: &str = "a directory and another kind of file cannot replace each other";

/// The manifest has the name of a file that it lists, or of the file of devices.
pub const OWN_FILE: &str = "it is a file that the manifest lists, or the file of --devices";

/// The manifest would be in a directory that is scanned.
pub const SCANNED: &str = "it is in a scanned directory, so the next scan would list it";

/// A file named `-` cannot be opened.
pub const NO_STREAM: &str = "- is the name of a file here; standard input is /dev/stdin";

/// Bytes that are no text are to be printed on a terminal.
pub const TERMINAL: &str = "it is a terminal, and these bytes are not text: redirect it";

/// Requests are read from a terminal.
pub const WAITS: &str = "waits for requests, such as stat /; Ctrl-D ends them; see LINES";

/// Requests to several images are read from a terminal.
pub const SPACE_WAITS: &str =
    "waits for requests with a session, such as 0 stat /; Ctrl-D ends them; see LINES";

/// The manifest has the name of standard output.
pub const OWN_STREAM: &str = "it is the file that standard output is written to";

/// The file of a result is standard error.
pub const OWN_ERROR: &str = "it is the file that standard error is written to";

/// The system refused a part of a manifest.
pub const MANIFEST_NOT_TAKEN: &str = "not all of the manifest could be written to it";

/// The name of a volume is too long.
pub const LONG_NAME: &str = "the name of a volume has at most 255 bytes";

/// A file of devices has a line of another kind.
pub const DEVICE_WORD: &str = "a file of devices has only dir, slink, nod, pipe, sock and mode";

/// The fields of a line of `mode`.
pub const MODE_LINE: &str = "a mode line is: mode PATH MODE UID GID";

/// The path of a line in a file of devices exists already.
pub const DEVICE_EXISTS: &str =
    "an earlier line already has this path, or a directory and another kind of file have it";

/// The path of a line in a file of devices is in no directory.
pub const DEVICE_NO_PARENT: &str = "no DIR and no dir line has the parent directory of the path";

/// The path of a file in an image does not begin with a slash.
pub const NO_SLASH: &str = "a path in an image begins with a slash";

/// No file has the path of a line that sets attributes.
pub const NO_SUCH_FILE: &str = "no file has this path, so its mode and owner cannot be set";

/// A line of a table of devices has too few or too many words, or a path that is none.
pub const TABLE_LINE: &str =
    "a line has PATH TYPE MODE UID GID MAJOR MINOR START INC COUNT; PATH begins with a slash";

/// The type of a line of a table of devices is none.
pub const TABLE_TYPE: &str = "TYPE is f, F, d, r, c, b or p";

/// A number of a line of a table of devices is none.
pub const TABLE_NUMBER: &str =
    "MODE is octal, or -1 for f, F, r, d; UID, GID are numbers or root, the others numbers or -";

/// A line of a table of devices makes too many devices.
pub const TABLE_COUNT: &str = "COUNT is at most 65536";

/// The path of a line of a table of devices is too deep.
pub const TABLE_PATH: &str = "a path in an image has at most 64 names";

/// The lines of a table of devices make too many files.
pub const TABLE_FILES: &str = "all lines together make or set at most 1048576 files";

/// A line of a table of devices is about a file that is not there, or of another kind.
pub const TABLE_FILE: &str =
    "no file of this kind has this path, or a directory and another kind of file have it";

/// A path or a text in a file of devices is no UTF-8.
pub const DEVICE_NO_TEXT: &str = "a path or the text of a link has to be UTF-8 here";

//! Calls for C, as a static library: the check, paths, nodes and open files, over structs of
//! numbers that C holds. `include/romtool.h` declares them. Each has the name of the header with
//! the first number of the version behind it (`_v3`), so that a program does not link with a
//! library of another one; `romtool_library_version` has none.
//!
//! An image is a struct of numbers beside its bytes, which may be copied. `romtool_check_v3` makes
//! one that is open, and `romtool_from_numbers_v3` makes it again. C passes it to each call
//! unchanged, and with unchanged bytes. A struct that is all zeros is closed. Only the check takes
//! memory, and nothing is kept between calls.
//!
//! Proved, for every tree that the bytes hold:
//!
//! - `romtool_check_v3`: a check for C returns 0 only if the bytes hold a tree within the usual
//!   limits, with their format and report, and `root` then names the tree's root; 14 only if they
//!   hold none, with the least fault; otherwise 15, for refused memory. Unless it returns 0, the
//!   image is closed and its numbers are 0.
//! - `romtool_lookup_v3`, `romtool_stat_v3`, `romtool_readlink_v3`, `romtool_lookup_within_v3`: on
//!   an open image, the node that pathname resolution defines, its kind and numbers, or the offsets
//!   of a link's whole text; or the error, and all other numbers are 0. On a closed image these
//!   calls report error 13.
//! - `romtool_lookup_within_v3`: a look-up with a budget answers as one without, and subtracts the
//!   names that it compared; it reports error 16 and leaves 0 exactly if there are more than the
//!   budget.
//! - `romtool_stat_node_v3`, `romtool_readlink_node_v3`, `romtool_lookup_at_v3`,
//!   `romtool_open_node_v3`: for a node number that a call on the same image returned: its kind and
//!   numbers are returned, the offsets of a link's whole text, or the node of the first entry with
//!   a name in a directory; or the node is opened at its start if it is a directory or a regular
//!   file.
//! - `romtool_is_node_v3`, `romtool_links_v3`: whether any number is that of a node of the tree,
//!   and how many names lead to it.
//! - `romtool_nodes_v3`: the nodes' numbers of all names, in rising order, each as often as names
//!   lead to the node; or the array stays as it was if it has less room.
//! - `romtool_parent_v3`: the parent of a directory: the first directory in preorder that has an
//!   entry of it, of which there is one, and for the root itself.
//! - `romtool_volume_v3`: where the name of the volume is, by the format; it is within the bytes.
//! - `romtool_numbers_v3`, `romtool_from_numbers_v3`: the 48 bytes of an open image's description
//!   have its numbers and the number of its bytes. A description of another magic, version or
//!   length is refused, and the image is closed; otherwise, if it is that of an image with exactly
//!   these bytes, the image is opened with exactly its numbers.
//! - `romtool_library_version`: the version of the library is 20000.
//! - `romtool_open_v3`: opening a path returns its directory or regular file, at its start, in the
//!   same image; otherwise it returns no file, and the error.
//! - `romtool_reopen_v3`: what was open at a node and a position is opened again there.
//! - `romtool_fstat_v3`, `romtool_map_v3`, `romtool_lend_v3`, `romtool_read_v3`, `romtool_seek_v3`,
//!   `romtool_readdir_v3`: calls on an open file answer as the machine of open files does, and
//!   leave its position. After an error the position and the buffer are as they were; the image,
//!   the node and the error of a file always stay. On a file that is not open they report error 6.
//! - `romtool_map_v3`: no bytes of an empty file are at 0.
//! - `romtool_read_at_v3`: a read at a byte copies what a read behind a seek would, and moves
//!   nothing.
//! - `romtool_telldir_v3`, `romtool_seekdir_v3`: the number of entries before the position of an
//!   open directory; the position after so many entries, which is refused exactly if the directory
//!   has fewer.
//! - `romtool_readdir_v3`: the bytes of a name that is read are bytes of the image, and its number
//!   and kind are those of a node of the tree.
#![tactic(auto)]

mod answers;
mod calls;
mod directories;
mod file;
mod files;
mod image;
mod lending;
mod linked;
mod nodes;
mod numbers;
mod opening;
mod paths;
mod version;
mod visit;
mod volume;

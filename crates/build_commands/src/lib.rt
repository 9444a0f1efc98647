//! The end of a build, what the program prints when it builds images and scans directories, and the
//! rules for make that it writes. A line is a list of parts (`Part`), which one function writes.
//!
//! `specs/Built.antt` says what a build is, `specs/Scans.antt` what a scan prints, and
//! `specs/Rules.antt` what a rule is. GNU make has no spelling of some names, and reads some as
//! something else; that it reads each permitted name as it is meant is tested, not proved. A rule
//! has one without prerequisites for each source, so that make does not stop if a source was
//! removed.
//!
//! Proved, for every directory, opener of files and output:
//!
//! - `print_built`, `print_bad_manifest`, `print_misfit`, `print_size`, `print_strict`: the line
//!   that a build prints: length, fault of the manifest, misfit, too large, refused warning; at an
//!   `Ok` it was flushed once.
//! - `print_xip`, `print_needs`, `print_unread`: the same for a program that would not be in place,
//!   that needs a file which the image would not have, or of which it is not known what it needs.
//! - `warning_name`: the name of each warning.
//! - `foreseen`, `Warnings::least`: what a build foresees that Linux would misread: by number, of
//!   how many lines it is told and of which first; and the least of these, by line and then by
//!   number.
//! - `last_blocks`: exactly the lines of which it is told that their files end with a whole block.
//! - `laws::romfs_names_are_foreseen`: a name, device or link of a romfs image is misread exactly
//!   if it is foreseen of a line whose file it has.
//! - `laws::cramfs_names_are_foreseen`: the same of a device, a link, the last block of a file and
//!   the mode of the root of a cramfs image; of a name, if it has exactly the room that it needs;
//!   and of a shared table, if Linux keeps the facts that are foreseen.
//! - `overlay::{sort, laid_over}`: of the files of several directories, exactly the last of each
//!   path is left, in the order of the paths. If a directory and another kind of file have one
//!   path, one of these files is named.
//! - `rights::{file_at, set_all}`: each file has what the changes of its path, or of another name
//!   of it, make of it, one after the other: the last owner and group, and the last mode. If no
//!   file has the path of a change, the first such line is named, and no file changes.
//! - `devices::listed`: the files and changes of a list of devices are exactly those of its lines,
//!   each of which is a line of a manifest or one of `mode`. The first line that is refused by
//!   itself is named; if there is none, the first whose file does not fit the others or the found
//!   files.
//! - `devices::list_for`: the text of the list that makes the given devices, a line for each.
//! - `device_table::listed`: the same of a table of `makedevs`: what its rows make and set, one
//!   after the other, beside the found files, and the last file of each path.
//! - `laying::{lay_list, lay_table}`: what a list and a table make of the found files: its files
//!   are laid over them, and attributes are set in the order of its lines; a directory that was
//!   found is not replaced. All files are in the order of their paths, before and after.
//! - `alignments::align_all`, `rights::own_all`: each file gets its alignment, and each name of a
//!   file with several links the largest of its names; each gets an owner; nothing else changes.
//! - `equal::{to_compare, share_equal}`: the digest of a regular file decides whether it shares its
//!   contents exactly if it has 1 to 2^24 - 1 bytes and another such file has its length, mode,
//!   owner and group. Of several such files that also have one digest, exactly the later ones
//!   become further names of the first, which then has several links; nothing else changes. At an
//!   error no file changed.
//! - `composing::compose`: the files of a manifest are those that were found, after these steps:
//!   the last of each path counts; owner; alignments; the table, the list and the given devices are
//!   laid over them; equal files share contents. The steps have exactly what the readings answered;
//!   a refused text is refused after the steps before it.
//! - `programs::{spots_of, programs_of}`: where the contents of each source are in a planned image,
//!   and whether the next data are in their last page; the programs, their pages and those that are
//!   not executed in place, by the verdicts on the sources.
//! - `needed::unmet`: exactly what a file needs and an image does not have, in its order.
//! - `print_unfit`, `changes::count_changes`: the line of a strict scan, and the numbers in it.
//! - `build_file`, `build_over`, `most_bytes`: if a build is `Ok`: its text is a manifest, OUT was
//!   replaced by the image of the manifest's plan in FORMAT, with the contents that the opener's
//!   reads told of the files by whose names the manifest's sources are opened (`-C`), and with the
//!   bytes after it that `--size` and `--fill` ask for; the image has at most the bytes of
//!   `--max-size` and `--size`; with `--strict` nothing was foreseen that Linux would misread, and
//!   with `--xip` the programs were looked at; the companion, as a rule for make, was kept; and
//!   exactly `ok LENGTH` was written. At each moment OUT is what it was or this image. What each
//!   error leaves of OUT, of the companion (given up, if OUT is not the image) and of the output.
//!   If OUT is written in place (`build_over`), only this is said of it: at `Ok` it was closed with
//!   exactly these bytes behind what it had, and neither its synchronization nor its close failed.
//! - `scan_directory`: if a plain scan is `Ok`: exactly the lines of all that the walk found were
//!   written and flushed once, after each directory was as it was found; if the lister tells a tree
//!   that a manifest can describe, the text is its manifest. Nothing is written if a directory
//!   could not be listed or changed.
//! - `extract_image`: if an extraction is `Ok`: each member was made whole, with its rights, the
//!   directory itself was finished after all calls that made them, and exactly the manifest was
//!   written and flushed, if one is wanted. Nothing is written if a member or the directory is
//!   refused.
//! - `joined_name`: the name by which a source in a directory is opened.
//! - `put_scan`: the lines of a plain scan are exactly one for each directory and file that was
//!   found; at an `Ok` each was flushed once.
//! - `inventory::{lines, put_found}`: a directory as it is has one line for each found file, with
//!   what the system reported, flushed once at an `Ok`; of a file that is no directory and has
//!   several links, a further name of the first found one with the same inode and several links. A
//!   volume name has its line before these.
//! - `nearest`: for a format each line is adjusted to what it accepts.
//! - `inventory::align_of`: a regular file has the alignment that the caller asked for exactly if
//!   it is a program. Otherwise the alignment is 4.
//! - `changes::changes_of`: whether the owner, group or mode of a line differs from the file's, and
//!   whether all users may read what the line makes but not the file.
//! - `laws::nearest_fits`: attributes of an adjusted line have no misfit, if it is not a `hard`
//!   line and its device numbers fit.
//! - `laws::scans_are_manifests`: if the grammar accepts each line of a scan after the lines before
//!   it, the output is a manifest with exactly these lines (both kinds).
//! - `laws::found_files_are_meant`: for each format, if the grammar accepts each line and the
//!   system reports the same of a file by each of its names, the tree that the manifest means has
//!   at each found path a node with the kind, device numbers and link text that were reported, and
//!   with the mode, owner and group that were reported or, if a format was chosen, the nearest that
//!   it can hold. Unless the format is cramfs, two names of one file that is no directory have one
//!   node.
//! - `laws::found_files_have_their_contents`: for each format, if the grammar accepts each line and
//!   the system reports one kind of a file by each of its names: the path of each regular file that
//!   was found leads to a regular file with the contents of a source that has the name by which
//!   this file, or another name of the same file, was found; two names of one regular file have the
//!   same contents.
//! - `laws::packed_files_are_found`: the same of the text that is printed, for each format: in each
//!   tree that this text means, each found path has these attributes, and each regular file these
//!   contents.
//! - `print_walked`: a plain scan is printed of the entries of a walk, and flushed once at an `Ok`;
//!   if memory was refused, nothing is written.
//! - `laws::scan_is_the_tree`: if a lister reports a tree whose names and paths a manifest accepts,
//!   and only directories are entered, the text is the manifest of this tree: exactly one line for
//!   each file and directory below, in the order of the bytes of their paths.
//! - `Rule::text`: the text of the rules for make: the target, a colon, and the manifest, the
//!   sources and the directories as prerequisites, then a rule without prerequisites for each
//!   source and directory; in each name, which bytes have backslashes or dollars before them.
//! - `Rule::is_sayable`: whether all names have a spelling.
#![tactic(auto)]

pub mod alignments;
mod building;
pub mod changes;
mod command;
mod companion;
pub mod composing;
pub mod device_table;
pub mod devices;
pub mod equal;
mod extract;
mod fate;
mod fits;
pub mod inventory;
mod kept;
pub mod laws;
pub mod laying;
mod limits;
mod line;
pub mod listing;
mod nearest;
pub mod needed;
pub mod overlay;
mod part;
mod planned;
mod printing;
pub mod programs;
pub mod rights;
mod rule;
mod rule_name;
mod scan;
mod scanning;
mod sources;
mod table_row;
mod warnings;

pub use building::{
    print_bad_manifest, print_built, print_misfit, print_needs, print_size, print_strict,
    print_unfit, print_unread, print_xip,
};
pub use command::{Closer, Ended, Job, Tools, Unbuilt, Unplaced, build_file, build_over};
pub use companion::Companion;
pub use extract::{Description, Filled, Unextracted, extract_image};
pub use fate::Fate;
pub use limits::{Foreseen, Misread, Partition, Wanted, most_bytes};
pub use line::{print_line, put_line, write_line};
pub use part::Part;
pub use printing::{PrintError, print_walked};
pub use rule::Rule;
pub use scan::{Recheck, Unscanned, scan_directory};
pub use scanning::{Found, put_scan};
pub use sources::joined_name;
pub use warnings::{Warning, Warnings, foreseen, last_blocks, warning_name};

//! The program's commands, as functions over an image's bytes and streams.
//!
//! How a command ended is a value (`Ending`), with one line and one status (`specs/Endings.antt`,
//! `specs/Answers.antt`). The functions `print_..` are those of the commands that inspect a valid
//! image (`specs/Ends.antt`). Of a picture only the ending is proved, and not the text.
//!
//! Proved:
//!
//! - `show`, `has_addresses`, `print`, `print_answer`, `check_usual`: the output of `check`,
//!   `list`, `map`, `linux`, `xip` and `info`, or the line of the fault, for each ending, after one
//!   check (`print_answer` after one that was made before). After that of `info`: unused bytes,
//!   whether the image fits into a number of bytes, how many are left, and a status of 1 exactly if
//!   it does not fit.
//! - `print`, `print_file`, `refuse`: if an image has a fault, `check` and `list` have its line on
//!   standard output; for all other requests it is on standard error, and standard output has
//!   nothing.
//! - `refuse`, `refuse_in`: a fault that the front of a file already shows is reported like a fault
//!   of the whole file, for one image and for several.
//! - `copy`, `print_file`, `print`: the bytes of the regular file to which a path leads, or why
//!   there are none. `print` and `print_file` promise this and what `show` promises over any
//!   streams, and the text of standard error. If the whole text was written, at least one flush of
//!   the writer has succeeded; a failed one is a write fault.
//! - `serve_image`, `serve_on`, `serve_under`: **an image that is accepted is
//!   served as the tree that its format defines for its bytes**, under the usual limits or any
//!   others, with the text of standard error for every ending (`serve_on`). Otherwise the line of
//!   its fault is written and flushed once, and no request is read.
//! - `serve_images`, `serve_several_on`: the same for several images with sessions; the line has
//!   the number of the first image that has a fault.
//! - `Status::code`, `Ending::status`, `NoFile::name`, `report`: each status has its number; each
//!   ending has its line and its status.
//! - `show`, `print`, `copy`, `print_file`, `serve_on`, `serve_images`, `serve_several_on`: **if a
//!   command ends with a fault, it is the least fault of the image's bytes under the usual
//!   limits.** With several images it is the fault of the first image that has one, and the ending
//!   has the image's number.
//! - `print_digests`, `print_image_digest`, `verify_dump`, `print_diff`,
//!   `print_extents`, `print_places`, `print_header`, `print_script`, `Only`, `print_numbers`:
//!   `digest`, `verify`, `diff`, `map --all`, `which`, `numbers`, and `map --c` and `--ld` with
//!   `--only` (which files patterns choose) print exactly their texts, and then a flush succeeds.
//!   The ending is then `Warned` if a dump differs, if two images differ or if an address is
//!   outside, and otherwise `Done`. If a write or the flush fails, a prefix is printed, standard
//!   error has `write fault`, and the ending is `WriteFault`. If memory is refused or a path is too
//!   long, standard error has `memory` or `path`, and the ending is `Memory` or `LongPath`; in this
//!   case `diff`, `map --all` and `which` print nothing. `verify` compares the dump from the byte
//!   of `--offset` on, and prints nothing if the dump cannot be read.
//! - `print_picture`: the ending of `map --svg` is `Done` only if a flush succeeded. Otherwise it
//!   is `Memory` or `WriteFault`, and standard error has its line.
#![tactic(auto)]

mod asked;
mod chosen;
mod copying;
mod differences;
mod digests;
mod ending;
mod example;
mod fault;
mod flash;
mod inspected;
mod lent;
mod maps;
mod numbers;
mod places;
mod printing;
mod room;
mod serving;
mod several;
mod shown;
mod status;
mod verdicts;

pub use asked::Asked;
pub use chosen::Only;
pub use copying::{copy, print_file};
pub use differences::print_diff;
pub use digests::{print_digests, print_image_digest};
pub use ending::{Ending, NoFile, report};
pub use example::hello;
pub use flash::{print_extents, print_picture};
pub use maps::{print_header, print_script};
pub use numbers::print_numbers;
pub use places::print_places;
pub use printing::{print, print_answer};
pub use serving::{Serving, refuse, serve_image, serve_on, serve_under};
pub use several::{refuse_in, serve_images, serve_several_on};
pub use shown::{check_usual, has_addresses, show};
pub use status::Status;
pub use verdicts::{Verified, verify_dump};

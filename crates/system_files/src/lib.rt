//! The files of the system that a command reads and replaces: their names, owners and states, the
//! images that it reads, the sources of an image, and the file that an image is written to.
//!
//! A file is replaced whole or not at all (`atomic_file`), of the account of calls that `beside.rt`
//! keeps; the sources have the bytes that the system's reads returned (`file_sources`), of what
//! `disk.rt` returns.
//!
//! Proved (`specs/Names.antt`, `specs/Loads.antt`):
//!
//! - `directory_of`, `name_in_directory`, `base`, `part_path`, `device_of`: the directory that a
//!   name is in, and the name in it; a directory without the slashes at its end; the path of the
//!   part of a number; the two numbers of a device.
//! - `load`: all bytes that a check reads are loaded, of a reader whose bytes are known. If the sum
//!   of the first 512 bytes is a reason to refuse the image, at most these are loaded, and this
//!   fault is reported.
//!
//! Trusted by reading: each method of `Directory` in `beside.rt` makes the calls of the system that
//! it notes, and notes what they returned; the methods of `Opener` in `disk.rt` open the file of
//! the name, and pass on what the system read; and `rewrite` in `writer.rt` writes the bytes at
//! their offset. What the system says of a file is known by no proof: functions that only return
//! that have no clause.
#![tactic(auto)]

mod asked;
mod beside;
mod closing;
mod device;
mod directories;
mod disk;
mod faked;
mod file_error;
mod found;
pub mod lister;
mod loading;
mod mounted;
mod names;
mod outputs;
mod own_output;
mod owner;
mod parts;
mod progress;
pub mod reading;
mod reason;
mod stamp;
mod streams;
mod target;
mod watched;
mod writer;

pub use asked::{attributes, current_directory, identity_of, link_text, open, unlinked};
pub use beside::{KeepError, NAMES, Others, System};
pub use closing::{close, settle_output};
pub use device::{DeviceNumbers, device_of};
pub use directories::{base, directory_at};
pub use disk::{Disk, OpenedSource, first_changed, stamp_unlinked};
pub use faked::is_unfaked;
pub use file_error::{FileError, refused};
pub use found::{Digested, digest_of, elf_front, program_in};
pub use loading::{Found, Front, Loaded, load};
pub use names::{directory_of, is_open_to_others, is_own_file, name_in_directory, way_to};
pub use outputs::{Outputs, Unopened};
pub use parts::{is_marked, part_path};
pub use progress::Progress;
pub use reason::{Reason, Refusal};
pub use stamp::{Identity, Stamp, has_changed, let_rest, open_unchanged, stamp_of, wait_for_late};
pub use streams::hold_closed;
pub use target::{OpenPart, Opened, Target, are_one_file, close_straight, is_part_of};
pub use watched::{Watched, directories_stayed, files_stayed, name_stayed};
pub use writer::Writer;

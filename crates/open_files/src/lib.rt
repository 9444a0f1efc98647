//! `Files` and `Space`: descriptors on one image, and on up to eight images with mounts and eight
//! sessions. `one_image` has the calls of `Files` over references to an image and its slots, for
//! code that is generic over the image.
//!
//! `specs/Machine.antt` defines what is open, and the answer and the state after each call, with
//! its refusals in their order. `specs/Lending.antt` defines what is lent, and
//! `specs/Sessions.antt` mounts and sessions.
//!
//! Proved, for each `rom_tree::TreeImage` and each number of descriptors:
//!
//! - `Files`, and `one_image` over references: each call on open files answers as the machine of a
//!   table of descriptors does, and leaves its table; refusals come in the machine's order and
//!   leave the table as it was.
//! - `lend`, `map`, `readlink`: lent bytes are the image's bytes at the reported PLACE: the longest
//!   run of consecutive offsets, or exactly the requested range.
//! - `read`: exactly the next bytes are copied, and their number is returned, at most the length of
//!   the buffer; the rest of the buffer stays as it was.
//! - `readdir`: if an entry is returned, its cursor (the number at which the next `readdir`
//!   continues) is the position of the descriptor after the call, and the bytes of its name are
//!   bytes of the image.
//! - `Space`: with up to eight images and eight sessions, each call changes only its own session's
//!   table, and paths go through the mounts of that moment. `mount` and `umount` change only the
//!   mounts, so what is open stays open.
//! - `CallError::number`, `CallError::name`: each error has its number and its name.
//!
//! A caller of `Files`, proved: library_tests/src/examples/opened.rt. `lend` and `map` return a
//! `Piece`, which can outlive its `Files`.
#![tactic(auto)]

mod calls;
mod copied;
mod error;
mod file_calls;
mod files;
mod images;
mod lent;
mod mounts;
pub mod one_image;
pub mod opened;
mod slot;
mod space;
mod space_calls;

pub use error::CallError;
pub use files::Files;
pub use rom_tree::{Entry, Kind, NodeId, Piece, Stat};
pub use slot::{Fd, OpenNode, Slots};
pub use space::Space;

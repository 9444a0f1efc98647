//! An image from a manifest and the contents of its files: in memory, or written to a writer by its
//! plan; and the image in place of a file.
//!
//! `specs/Builds.antt` has the answers of a build. `put` fills a part with the image, and gives it
//! the name of the file.
//!
//! Proved:
//!
//! - `build_romfs`, `build_cramfs`, `build_cramfs_big`, `laws::one_answer`: from a text and
//!   contents, the layout is built in each of the three formats, and holds, within the usual
//!   limits, the tree that the manifest means. Or they are refused, in this order: the text is not
//!   a valid manifest (with its first fault); fewer or more contents than sources; the manifest
//!   does not fit (with the least misfit). For each text and its contents there is exactly one such
//!   answer, apart from refused memory.
//! - `laws::built_is_accepted`, `laws::streamed_is_accepted`: a check finds no fault in an image
//!   that was built, and any tree of it is what the manifest means. What the superblock of a built
//!   or streamed image states is true: length, checksum, and in cramfs flags, blocks and number of
//!   files.
//! - `laws::built_is_placed`, `laws::streamed_is_placed`: in a built image each file is one run at
//!   a multiple of the ALIGN of the `file` line with its contents; the volume has the manifest's
//!   name; in cramfs files of one line share their offsets, in romfs files of different lines have
//!   none in common. The same of a streamed image, whatever the sources report.
//! - `stream_through`, `stream`, `stream_once`: a plan is streamed in its format, through one
//!   buffer, without allocating memory. At an `Ok` exactly the image that a build in memory returns
//!   was written, if the sources report their contents, and otherwise a whole image, of some
//!   contents of the planned sizes. At an error a prefix was written (by `stream_once` anything);
//!   the errors are those of `image_stream`.
//! - `laws::streamed_is_accepted`: an image that was streamed at an `Ok` has no fault, and a check
//!   refuses it only for memory, even for sources that report nothing. Its tree is what the
//!   manifest means, with contents of its own for each `file` and each `same` line: of the planned
//!   size, and what the last reads of the line's source answered, from offset 0 on. In cramfs, and
//!   in romfs without a `same` line (whose source is read again), it is the image that a build in
//!   memory returns for some contents of the sources.
//! - `put`, `laws::checked_is_written`: while an image replaces a file, the file is at each moment
//!   what it was, or the whole image of the plan with the contents that the reads answered last,
//!   followed by exactly the bytes of its padding; the same after a crash. With known contents it
//!   is the image that a build returns. It becomes the image only if the last check
//!   (`LastCheck::check`) passed while the file had all of these bytes. At `Ok` it is the image,
//!   even after a crash, unless the directory cannot be synchronized; at an error what it was,
//!   unless only that was refused. Each error has its cause. A file that is what it was or a
//!   checked image without padding is what it was or an image of the plan, of which `headline`
//!   speaks.
//!
//! Callers, proved: library_tests/src/examples/built.rt and streamed.rt. `stream` takes one buffer
//! of 4,096 bytes, and requires as many sources as the plan has sizes, so test this first.
//! `Sources` is a trait of three methods: `Slices` has them over memory, `file_sources` over files.
#![tactic(auto)]

mod build;
mod error;
mod image;
pub mod laws;
mod padding;
mod putting;

pub use build::{build_cramfs, build_cramfs_big, build_romfs, stream, stream_once, stream_through};
pub use error::BuildError;
pub use image::{LastCheck, PlanImage, Unwritten};
pub use image_stream::StreamError;
pub use layout_plan::{Format, Plan, PlanError, Slices, SourceFailed, Sources, plan};
pub use padding::Padding;
pub use putting::put;
pub use rom_fields::Contents;

//! A cramfs image from its plan, in either byte order, into a buffer or to a writer.
//! `specs/Form.antt` has the image's segments; `cramfs_layout` and `manifest_layout` define the
//! layout.
//!
//! Proved, for either byte order:
//!
//! - `write`: at an `Ok` the buffer has exactly the layout, whatever it held before; an error names
//!   the first file of another size, and the buffer is as it was.
//! - `stream_through`, `stream`, `stream_once`: at an `Ok` exactly the layout was written, if the
//!   sources report their contents; the errors are those of `image_stream`.
#![tactic(auto)]

mod form;
mod record;
mod writing;

pub use image_stream::{SizeDiffers, StreamError};
pub use writing::{stream, stream_once, stream_through, write};

//! The plan of an image, from a manifest and the sizes of its sources: nothing is written, and no
//! content is read. `manifest_layout` defines misfits, layouts and plans. The crate re-exports
//! `Sources` and `Slices`.
//!
//! Proved:
//!
//! - `plan`: a manifest is refused exactly if it has a misfit, with the least one, unless memory
//!   was refused. Otherwise its plan has the items, the sections and the length of the layout, in
//!   each of the three formats.
//! - `misfits`: the misfits of all lines, for people who fix them at once.
//! - `name`: each refusal has its name.
//!
//! A caller, proved: library_tests/src/examples/planned.rt. `plan` requires as many sizes as the
//! manifest has sources.
#![tactic(auto)]

mod error;
mod laid;
mod planning;

pub use error::{PlanError, name};
pub use image_stream::{Slices, SourceFailed, Sources};
pub use manifest_layout::{Body, Fill, Format, Item, Plan, Section};
pub use plan_rows::Misfit;
pub use planning::{misfits, plan};

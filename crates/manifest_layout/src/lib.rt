//! The misfits of a manifest in a format, the layout of a manifest that fits, and a planned image
//! as values of the code: its format, items and sections, and `Plan`, which is the plan of some
//! manifest that fits.
//!
//! `specs/Misfit.antt` has the misfits of lines and of the whole, the least line first, and there
//! the least number. `specs/Format.antt` has the formats with the items, the sections and the bytes
//! of a manifest's layout. `specs/Sealed.antt` says what a superblock states, and
//! `specs/Compact.antt` how much room is between sections. `specs/Views.antt` maps the values of
//! the code to items and sections, and `specs/Plans.antt` has the conditions on a plan.
//!
//! Proved:
//!
//! - `laws::one_answer`: a manifest fits a format or has exactly one least misfit.
//! - `laws::fitting_is_planned`, `laws::layout_is_meant`: if it fits, it has a planned volume,
//!   whose layout holds the tree that the manifest means.
//! - `laws::sections_rise`, `laws::sections_make_layout`, `laws::sections_are_compact`: the
//!   sections of a manifest that fits rise, none is empty, they make the layout, and no room is
//!   between them that the format and ALIGN do not need.
//! - `laws::layout_is_sealed`: what the superblock states is true, as in `romfs_layout` and
//!   `cramfs_layout`.
//! - `laws::layout_is_placed`: in the layout's tree, each file with the contents of a `file` line
//!   (by `file`, `same` or `hard`) is one run at a multiple of that line's ALIGN, and the volume
//!   has the manifest's name. In cramfs all files of one `file` line have the same offsets; in
//!   romfs files of different lines none in common, even if one is a copy.
//! - `Plan` as `Model`, `Plan::{new, format, volume, image_len, items, section, sections, sizes}`:
//!   a plan is the plan of some manifest that fits; its calls return the format, the volume, the
//!   length, the items, the sections and the sizes from which it was made.
#![tactic(auto)]

mod item;
mod laid;
pub mod laws;
mod planned;
mod section;

pub use formats::Format;
pub use item::{Fill, Item};
pub use laid::Laid;
pub use planned::Plan;
pub use section::{Body, Section};

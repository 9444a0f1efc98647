//! How many pages of a program in the flash Linux maps in place, and how many it copies into
//! memory.
//!
//! `specs/Physmem.antt` restates Linux's rule for a file in one run of a cramfs image, and
//! `specs/Counted.antt` defines the counts, over the program headers of the file.
//!
//! Proved:
//!
//! - `laws::run_is_mapped`: of a mapping of a file in one run, how many pages Linux maps to the
//!   flash, by its rule as restated, for each such file of a cramfs tree.
//! - `laws::aligned_is_in_place`: if the run begins with a page of the flash, each page of a
//!   mapping that cannot be written is at the address of its bytes, except a shared last page.
//! - `laws::run_is_whole`: without an MMU each mapping within the file is mapped whole, wherever
//!   the run begins.
//! - `program_pages`, `laws::counted_is_mapped`: the pages of a program: in place (of a file of
//!   cramfs in one run, with an MMU: the sum of those that Linux maps for its program headers,
//!   without those that the dynamic linker fills with zeros), copied, those that are not written,
//!   zeros, and the end of the last segment; or that Linux does not load it.
//! - `is_flat`, `flat_pages`: the pages of a program of the flat format.
#![tactic(auto)]

mod counting;
mod flat;
pub mod laws;
mod mapping;

pub use counting::{NoProgram, ProgramPages, program_pages};
pub use flat::{flat_pages, is_flat};
pub use mapping::Mapping;

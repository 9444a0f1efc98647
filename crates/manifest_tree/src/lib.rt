//! Definitions and laws: the names and files that a manifest means, and the shape of a tree.
//!
//! `specs/Names.antt` has names and files. `specs/Tree.antt` has those that a manifest means:
//! `hard` is a further name of a file, and `same` is a file of its own with the contents of
//! another. `specs/Shape.antt` defines when a tree in an image has the shape of names. Also
//! definitions that layouts of any format have: the names that a list may have, the files of a tree
//! of names with their offsets, and the items and sections of a planned image.
//!
//! Proved:
//!
//! - `laws::names_lead_to_files`: a list of components leads to the file of the line whose path has
//!   exactly these components, and otherwise to nothing.
//! - `laws::shape_is_meant`: a tree is what the manifest means if it has the same file at each
//!   path, and one node at two paths exactly if both belong to one line (`HasShape`).
#![tactic(auto)]

pub mod laws;

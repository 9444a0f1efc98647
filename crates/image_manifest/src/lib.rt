//! The manifest of an image, with which the image can be built again; and the image as a tree that
//! `tree_extract::extract` extracts into an empty directory.
//!
//! `specs/Members.antt` has the names of an image, `specs/Lines.antt` the manifest, and
//! `specs/Chosen.antt` the names that patterns choose.
//!
//! Proved:
//!
//! - `members`: the names of an image in preorder, the nodes to which they lead, and the first name
//!   of each node. It fails only if a path has more than 4,095 bytes, or memory is refused.
//! - `path_of`: each path, composed from the names of its directories.
//! - `write_manifest`: the manifest of an image has the volume's line and exactly a line for each
//!   name; a file has the alignment that was asked for exactly if the bytes at its front need pages
//!   of their own, otherwise 4; if a write fails, a prefix is written; nothing is flushed.
//! - `laws::lines_are_read_back`: if the grammar accepts each line after the lines before it, the
//!   text is read as exactly these lines.
//! - `laws::means_its_tree`: **the manifest means the image's tree** if the grammar accepts the
//!   lines, no name has a slash and each directory has one path: at each path is a file of the
//!   node's kind, attributes and bytes, at any other path nothing, and two paths share one file
//!   exactly if they lead to one node.
//! - `laws::described_by_shape`: also if the names that it lists have the tree's shape.
//! - `laws::sources_are_files`: the sources are the image's regular files, in the order of their
//!   lines, each by its first name, with their contents.
//! - `laws::lines_are_taken`, `laws::described_whole`, `laws::taken_only_then`: the grammar accepts
//!   the lines if: the root is a directory; names are valid and occur once in their list; modes,
//!   owners and device numbers are in its ranges; no link's text has a zero byte; no path has more
//!   than 4,095 bytes. It never does if one of the last two fails.
//! - `ImageTree`, `ImageTree::path`, `ImageTree::stat`: a member for each name in preorder, with
//!   its path and attributes; its kinds say what is made, which is what its patterns choose,
//!   without patterns all: a directory, a link with its text, a file with its contents, a further
//!   name with the index of the first. Nothing is made of the root, devices, pipes and sockets.
//! - `ImageTree::rights`, `Giving::rights`: rights are the node's mode and owner; without `owners`
//!   no owner, and the mode without the set-user and set-group bits and the bits of the process's
//!   mask.
//! - `laws::can_be_extracted`, `laws::paths_differ`: the names of an image with a lawful tree
//!   (`IsLawfulTree`), as each accepted image has, can be extracted: paths are plain and distinct,
//!   none leads through a link, a further name is one of a file. So the lines of `image_compare`
//!   are those of its laws.
//! - `kinds_made`: the same of the names that patterns choose: exactly those that one of them
//!   matches, all below them, and the directories above them; without patterns all. The first of
//!   them that is made of a file is the file, and each other one a further name of it.
//!
//! A caller, proved: library_tests/src/examples/described.rt. `headline` says for which images the
//! manifest means their tree.
#![tactic(auto)]

mod choosing;
mod composing;
mod giving;
mod image;
mod kinds;
pub mod laws;
mod line;
mod naming;
mod rules;
mod writing;

pub use composing::path_of;
pub use giving::{Giving, LENDING};
pub use image::ImageTree;
pub use kinds::kinds_made;
pub use naming::{Member, PATH_MAX, Refused, members};
pub use rules::FileRules;
pub use writing::write_manifest;

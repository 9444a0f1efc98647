//! Definitions and laws: the layout of a romfs image, which has an offset for everything of a
//! volume.
//!
//! `specs/Layout.antt` has the layout of a volume that fits (`specs/Planned.antt`).
//! `specs/Sealed.antt` says what its superblock states, `specs/Marked.antt` which bit "executable"
//! headers have, and `specs/Compact.antt` how much room is between sections; the other definitions
//! serve the proof. `proofs/Examples.antt` computes whole images, and `proofs/Hello.antt` shows
//! that the conditions on a volume can be met.
//!
//! Proved:
//!
//! - `laws::layout_has_tree`: the bytes of a planned volume's layout hold a tree of the format,
//!   within the usual limits, with the shape of the volume's names.
//! - `laws::layout_length`: the length of the layout.
//! - `laws::sections_rise`, `laws::sections_make_layout`: the sections rise and none is empty; with
//!   their bytes at their offsets, zeros between them and the checksum word they are the layout,
//!   and their lengths are the numbers of their bytes.
//! - `laws::layout_is_placed`: each file has its bytes in one run, at a multiple of its alignment;
//!   the volume name is at its offset. Files of different lines have no offsets in common.
//! - `laws::layout_is_sealed`: the superblock states the number of accessible bytes, a multiple of
//!   16; the sum of the first 512 is 0, and only zeros follow, up to a multiple of 1,024.
//! - `laws::layout_is_marked`: the header of a file has the bit "executable" exactly if the file is
//!   a directory or a regular file with the mode 0755.
//! - `laws::sections_are_compact`: between the sections is no room that alignment does not need,
//!   and less than 1,024 bytes behind the last, if files of one source ask for one alignment and
//!   all other files for 4, as those of a manifest do.
#![tactic(auto)]

pub mod laws;

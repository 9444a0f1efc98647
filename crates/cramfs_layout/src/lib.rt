//! Definitions and laws: the layout of a cramfs image in either byte order, which has an offset for
//! everything of a volume.
//!
//! `specs/Layout.antt` has the layout of a volume that fits (`specs/Planned.antt`).
//! `specs/Sealed.antt` says what its superblock states, and `specs/Compact.antt` how much room is
//! between sections; the other definitions serve the proof. `proofs/Examples.antt` computes images,
//! and `proofs/Hello.antt` shows that the conditions on a volume can be met.
//!
//! Proved, for either byte order:
//!
//! - `laws::layout_has_tree`: the bytes of a planned volume's layout hold a tree of the format,
//!   within the usual limits, with the shape of the volume's names.
//! - `laws::layout_length`: the length of the layout.
//! - `laws::sections_rise`, `laws::sections_make_layout`: if files with the contents of one source
//!   ask for one alignment, as those of a manifest do, the sections rise and none is empty; with
//!   their bytes at their offsets, zeros between them and the checksum word they are the layout,
//!   and their lengths are the numbers of their bytes.
//! - `laws::layout_is_placed`: under the same condition, each file has its bytes in one run, at a
//!   multiple of its alignment; the volume name is at its offset. Files of one source have the same
//!   offsets.
//! - `laws::layout_is_sealed`: the superblock states the length, the CRC-32 (with zeros in its
//!   place), the number of blocks of 4,096 bytes, and that of files with the root; its flags say
//!   that these are stored, lists are sorted and block pointers extended, and nothing else.
//! - `laws::sections_are_compact`: between the sections is no room that alignment does not need,
//!   and less than 4,096 bytes behind the last, if files of one source ask for one alignment and
//!   all other files for 4, as those of a manifest do.
#![tactic(auto)]

pub mod laws;

//! Several images with mounts, and sessions with open files of their own.
ghost use Rattle.std.specs.Prelude.{◌≡◌, ◌<◌, ◌≤◌, true, length, map};
ghost use Rattle.path_walk.specs.Graft.{are_mounts, AreShallow};
ghost use Rattle.open_files.specs.Space.{all_sound};

use crate::slot::Slots;
use arrayvec::ArrayVec;
use path_walk::Mount;
use rom_tree::Viewed;
use std::marker::PhantomData;

/// Up to eight images with mounts, and eight sessions, each with its own open files, whose
/// descriptors are below N. All sessions see the mounts. Replies about a node have the number of
/// its image. Lent bytes are a part of an image's bytes, and outlive later calls, the descriptor
/// and the value itself. No call allocates memory, unless a look-up in an image does.
#[derive(Drop)]
pub struct Space<'a, T: Viewed, const N: usize> {
    pub(crate) images: Vec<T>,
    pub(crate) mounts: ArrayVec<Mount, 7>,
    pub(crate) tables: [Slots<N>; 8],
    pub(crate) borrows: PhantomData<&'a [u8]>,
    ghost sessions: { length tables ≡ 8 },
    ghost some: { 0 < length images.items },
    ghost few: { length images.items ≤ 8 },
    ghost shallow: { AreShallow (map T.image images.items) },
    ghost mounted: { are_mounts (map T.image images.items) mounts.items ≡ true },
    ghost sound: { all_sound (map T.image images.items) mounts.items (map (λ t. t.slots) tables)
        ≡ true },
    ghost narrow: { N ≤ 65536 },
}

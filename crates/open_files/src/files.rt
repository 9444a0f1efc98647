//! One image with open files.
ghost use Rattle.std.specs.Prelude.{◌≤◌};
ghost use Rattle.rom_tree.specs.Tree.{IsShallow};
ghost use Rattle.open_files.specs.Slots.{AreSound};

use crate::slot::Slots;
use rom_tree::Viewed;
use std::marker::PhantomData;

/// An image with open files, whose descriptors are below N. Lent bytes are a part of the image's
/// bytes, and outlive later calls, the descriptor and the value itself. No call allocates memory,
/// unless a look-up in the image does.
#[derive(Drop)]
pub struct Files<'a, T: Viewed, const N: usize> {
    pub(crate) image: T,
    pub(crate) slots: Slots<N>,
    pub(crate) borrows: PhantomData<&'a [u8]>,
    ghost sound: { AreSound (T.image image) slots },
    ghost deep: { IsShallow (T.image image).tree },
    ghost narrow: { N ≤ 65536 },
}

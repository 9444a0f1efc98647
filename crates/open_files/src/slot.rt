//! The open nodes that are kept.
ghost use Rattle.std.specs.Prelude.{◌≡◌, ◌<◌, ℕ, MatchOption, MatchResult, Option, Some, None};
ghost use Rattle.std.specs.Prelude.{true, slice_index_or, slice_set, position, is_none, replicate};
ghost use Rattle.rom_tree.specs.Image.{Image};
ghost use Rattle.open_files.specs.Machine.{no_files};
ghost use Rattle.open_files.specs.Slots.{table_in, open_nodes, AreSound};
ghost use Rattle.open_files.specs.declared.error.CallError.TheVariants.{Ebadf};

use crate::error::CallError;
use rom_tree::NodeId;

/// A descriptor: the number of an open directory or file.
#[derive(Clone, Copy, Debug, PartialEq, Eq)]
pub struct Fd(pub u32);

/// An open node of the image of a number. The position is a cursor in a directory, or the number of
/// a byte in a regular file.
#[derive(Clone, Copy)]
pub struct OpenNode {
    pub image: u32,
    pub node: NodeId,
    pub position: u64,
}

/// The open nodes of the descriptors below N.
#[derive(Clone, Copy)]
pub struct Slots<const N: usize> {
    slots: [Option<OpenNode>; N],
}

impl<const N: usize> Slots<N> {
    /// Makes slots with nothing open.
    pub fn new() -> Self
        ensures blank { open_nodes result ≡ replicate N None }
        ensures empty { (m : Image) → table_in m result ≡ no_files N }
        ensures sound { (m : Image) → AreSound m result }
    {
        Slots { slots: [None; N] }
    }

    /// The open node of a descriptor.
    pub(crate) fn get(&self, fd: Fd) -> Result<OpenNode, CallError>
        ensures slot { MatchResult result (λ s. slice_index_or self.now.slots fd.0 None ≡ Some s)
            (λ e. (slice_index_or self.now.slots fd.0 None ≡ None) × (e ≡ Ebadf)) }
        ensures within { MatchResult result (λ s. fd.0 < N) (λ e. Unit {0}) }
    {
        let i = fd.0 as usize;
        if i >= N {
            return Err(CallError::Ebadf);
        }
        match self.slots[i] {
            Some(open) => Ok(open),
            None => Err(CallError::Ebadf),
        }
    }

    /// Opens or closes a descriptor.
    pub(crate) fn set(&mut self, i: usize, slot: Option<OpenNode>)
        requires { i < N }
        ensures { self.new.slots ≡ slice_set self.old.slots i slot }
    {
        self.slots[i] = slot;
    }

    /// The lowest free descriptor.
    pub(crate) fn free(&self) -> Option<usize>
        ensures first { result ≡ position is_none self.now.slots }
        ensures within { MatchOption result (Unit {0}) (λ i. i < N) }
    {
        self.slots.iter().position(|slot| slot.is_none())
    }
}

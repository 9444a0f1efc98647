//! The accessible bytes of an image with the offset of its root, and its records as the traversal
//! reads them.
ghost use Rattle.std.specs.Prelude.{◌≡◌, ◌≢◌, ◌+◌, ◌<◌, ◌≤◌, ◌^◌, length};
ghost use Rattle.romfs_format.specs.Refers.{references, LeadsToSound, LeadsToFault, some_offset};
ghost use Rattle.romfs_format.specs.Refers.{list_of, following, reference_offset};

use crate::soundness::record_fault;
use record_forest::{Edge, Edges, Records, Reference, VerifiedRanges};
use rom_fields::Fault;

/// The accessible bytes of an image, and the offset of the root's header among them.
#[derive(Clone, Copy)]
pub struct Accessible<'a> {
    pub bytes: &'a [u8],
    pub root: u32,
    ghost small: { length bytes.now < 2 ^ 32 },
    ghost below: { 0 < root },
    ghost header: { root + 32 ≤ length bytes.now },
}

/// An offset if it is not 0, otherwise none.
fn some(offset: u32) -> Option<u32>
    ensures { result ≡ some_offset offset }
{
    if offset == 0 { None } else { Some(offset) }
}

impl Accessible<'_> {
    /// The offset at which the list of the record at `at` begins, by a reference: if the root is
    /// the first of its own list, that is no reference.
    #[tactic(auto, unfolding(romfs_format::specs::Refers::list_of, romfs_format::specs::Refers::heads_itself))]
    fn list_at(&self, at: u32) -> u32
        requires { at + 16 ≤ length self.now.bytes.now }
        ensures { result ≡ list_of self.now.bytes.now self.now.root at }
    {
        let first = self.first_offset(at as usize);
        if at == self.root && first == self.root {
            0
        } else {
            first
        }
    }

    /// The record after that at `at`.
    #[tactic(auto, unfolding(romfs_format::specs::Refers::following, romfs_format::specs::Refers::heads_itself))]
    fn record_after(&self, at: u32) -> u32
        requires { at + 16 ≤ length self.now.bytes.now }
        ensures { result ≡ following self.now.bytes.now self.now.root at }
    {
        if at == self.root && self.first_offset(at as usize) != self.root {
            0
        } else {
            self.next_offset(at as usize)
        }
    }
}

impl Records for Accessible<'_> {
    ghost references = { λ s. references s.bytes.now s.root };

    ghost sound = { λ s. LeadsToSound s.bytes.now s.root };

    ghost faulty = { λ s. LeadsToFault s.bytes.now s.root };

    // No numbers are kept: a record is looked at once for each reference.
    ghost well = { λ _ _. Unit {0} };

    #[tactic(auto, unfolding(romfs_format::specs::Refers::reference_offset))]
    fn top(&self) -> Edge {
        Edge {
            reference: Reference {
                source: 0,
                which: 0,
            },
            target: some(self.root),
        }
    }

    fn is_chained(&self) -> bool {
        true
    }

    fn edges(&self, _: &mut VerifiedRanges, x: Reference, at: u32) -> Result<Edges, Fault> {
        if let Some(number) = record_fault(self, at as usize) {
            return Err(Fault { number, at });
        }
        let own = Edge {
            reference: Reference {
                source: at,
                which: 0,
            },
            target: some(self.list_at(at)),
        };
        let after = Edge {
            reference: Reference {
                source: at,
                which: 1,
            },
            target: some(self.record_after(at)),
        };
        Ok(Edges { own, after })
    }
}

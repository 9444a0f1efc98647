//! The accessible bytes of an image in their byte order, and its records as the traversal reads
//! them.
ghost use Rattle.std.specs.Prelude.{◌≡◌, ◌≢◌, ◌+◌, ◌<◌, ◌≤◌, ◌^◌, length, nat_lt, Some, None};
ghost use Rattle.std.specs.Prelude.{if◌then◌else◌};
ghost use Rattle.record_forest.specs.Faults.{IsLeastFault, IsLeastFaultOf};
ghost use Rattle.cramfs_format.specs.Inode.{list_end};
ghost use Rattle.cramfs_format.specs.Refers.{references, reference_target, LeadsToSound};
ghost use Rattle.cramfs_format.specs.Refers.{LeadsToFault};
ghost use Rattle.record_forest.specs.Known.{AreKnown};
ghost use Rattle.cramfs_image.specs.Phases.{IsWhole};

use crate::soundness::{entry_fault, list_lies};
use cramfs_format::Order;
use record_forest::{Edge, Edges, Records, Reference, VerifiedRanges};
use rom_fields::Fault;
use rom_fields::fault::BOUNDS;

/// The accessible bytes of an image, and their byte order.
#[derive(Clone, Copy)]
pub struct Accessible<'a> {
    pub bytes: &'a [u8],
    pub order: Order,
    ghost small: { length bytes.now < 2 ^ 32 },
    ghost long: { 76 ≤ length bytes.now },
}

/// The reference to the record at `which` in a list that ends at `end`, of the directory at
/// `source`.
fn edge_to(source: u32, which: u32, end: u32) -> Edge
    ensures source { result.reference.source ≡ source }
    ensures which { result.reference.which ≡ which }
    ensures target { result.target ≡ (if nat_lt which end then Some which else None) }
{
    Edge {
        reference: Reference { source, which },
        target: if which < end { Some(which) } else { None },
    }
}

/// The least fault of the record that a reference leads to, or none if it is valid.
fn fault_of(b: &Accessible<'_>, known: &mut VerifiedRanges, x: Reference) -> Option<Fault>
    requires known { AreKnown (IsWhole b.now.order b.now.bytes.now) known.old }
    requires root { x.source ≡ 0 → x.which + 12 ≤ length b.now.bytes.now }
    requires source { x.source ≢ 0 → x.source + 12 ≤ length b.now.bytes.now }
    requires end { x.source ≢ 0 → list_end b.now.order b.now.bytes.now x.source
        ≤ length b.now.bytes.now }
    ensures known { AreKnown (IsWhole b.now.order b.now.bytes.now) known.new }
    ensures least { IsLeastFaultOf (LeadsToFault b.now.order b.now.bytes.now x) result }
{
    if x.source == 0 {
        if list_lies(b, x.which as usize) {
            return None;
        }
        let number = BOUNDS;
        return Some(Fault {
            number,
            at: x.which,
        });
    }
    entry_fault(
        b,
        known,
        b.list_end_at(x.source as usize) as usize,
        x.which as usize,
    )
}

impl Records for Accessible<'_> {
    ghost references = { λ s. references s.order s.bytes.now };

    ghost sound = { λ s. LeadsToSound s.order s.bytes.now };

    ghost faulty = { λ s. LeadsToFault s.order s.bytes.now };

    // The numbers of the words that are pointers of whole blocks.
    ghost well = { λ s. IsWhole s.order s.bytes.now };

    #[tactic(auto, unfolding(cramfs_format::specs::Refers::reference_target))]
    fn top(&self) -> Edge {
        let reference = Reference {
            source: 0,
            which: 64,
        };
        Edge {
            reference,
            target: Some(64),
        }
    }

    fn is_chained(&self) -> bool {
        false
    }

    fn edges(&self, known: &mut VerifiedRanges, x: Reference, at: u32) -> Result<Edges, Fault> {
        if let Some(fault) = fault_of(self, known, x) {
            return Err(fault);
        }
        let own = edge_to(
            at,
            self.offset_at(at as usize),
            self.list_end_at(at as usize),
        );
        let end = if x.source == 0 {
            0
        } else {
            self.list_end_at(x.source as usize)
        };
        let after = edge_to(x.source, self.end_at(at as usize) as u32, end);
        Ok(Edges { own, after })
    }
}

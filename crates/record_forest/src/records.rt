//! The records of an image, as a traversal sees them.
ghost use Rattle.std.specs.Prelude.{◌≡◌, ℕ, Option, Some, IfOk, IfErr};
ghost use Rattle.record_forest.specs.declared.reference.Reference.{Reference};
ghost use Rattle.rom_fields.specs.declared.fault.Fault.{Fault};
ghost use Rattle.record_forest.specs.References.{References, Reached};
ghost use Rattle.record_forest.specs.Faults.{IsLeastFault};
ghost use Rattle.record_forest.specs.Known.{AreKnown};

use crate::known::VerifiedRanges;
use crate::reference::{Edge, Edges, Reference};
use rom_fields::Fault;

/// The records of an image, by the references between them.
pub trait Records {
    // The references in the image.
    ghost references: { Self → References };

    // The reference leads to a valid record.
    ghost sound: { Self → Reference → Type 0 };

    // The record that the reference leads to has this fault.
    ghost faulty: { Self → Reference → Fault → Type 0 };

    // What holds for a number that is known. Each format decides what its numbers count.
    ghost well: { Self → ℕ → Type 0 };

    /// Returns the superblock's reference to the root.
    fn top(&self) -> Edge
        ensures reference { result.reference ≡ (references self.now).top }
        ensures target { result.target ≡ (references self.now).target result.reference };

    /// Returns whether the reference to the next record is in the record itself, and not in the
    /// directory.
    fn is_chained(&self) -> bool
        ensures { result ≡ (references self.now).chained };

    /// Returns the references that follow from a reached reference to the record at `at`, or the
    /// record's least fault. It may note in `known` what it looked at.
    fn edges(&self, known: &mut VerifiedRanges, x: Reference, at: u32) -> Result<Edges, Fault>
        requires known { AreKnown (well self.now) known.old }
        requires reached { Reached (references self.now) (sound self.now) x }
        requires target { (references self.now).target x ≡ Some at }
        ensures known { AreKnown (well self.now) known.new }
        ensures ok { IfOk result (λ n. sound self.now x) }
        ensures faultless { IfOk result (λ n. (e : Fault) → faulty self.now x e → ⊥) }
        ensures own { IfOk result (λ n. n.own.reference ≡ (references self.now).own x) }
        ensures own_target { IfOk result (λ n. n.own.target
            ≡ (references self.now).target n.own.reference) }
        ensures after { IfOk result (λ n. n.after.reference ≡ (references self.now).after x) }
        ensures after_target { IfOk result (λ n. n.after.target
            ≡ (references self.now).target n.after.reference) }
        ensures err { IfErr result (λ e. IsLeastFault (faulty self.now x) e) }
        ensures unsound { IfErr result (λ e. sound self.now x → ⊥) };
}

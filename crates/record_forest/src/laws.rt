//! Laws about the references of an image, proved for every format.
ghost use Rattle.std.specs.Prelude.{◌≡◌, ℕ};
ghost use Rattle.record_forest.specs.declared.reference.Reference.{Reference};
ghost use Rattle.record_forest.specs.References.{References, AreLawful};
ghost use Rattle.record_forest.specs.Forest.{Forest, Stands, IsForest};
ghost use Rattle.record_forest.specs.Faults.{IsClean};

use crate::records::Records;

/// States that the references from one reference on describe at most one forest.
pub fn one_forest()
    ensures { (g : References) (x : Reference) (e f : Forest) → Stands g x e → Stands g x f
        → e ≡ f }
{}

/// States that references and records have no fault exactly if the records are those of a finite
/// forest.
pub fn exact<R: Records>(records: &R)
    requires { AreLawful (R.references records.now) (R.sound records.now) }
    ensures forest { (most : ℕ) (f : Forest)
        → IsForest (R.references records.now) (R.sound records.now) most f
        → IsClean (R.references records.now) (R.sound records.now) most }
    ensures clean { (most : ℕ) → IsClean (R.references records.now) (R.sound records.now) most
        → (f : Forest) × IsForest (R.references records.now) (R.sound records.now) most f }
{}

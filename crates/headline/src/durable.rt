//! The file that a build replaces, at each moment and after a crash.
ghost use Rattle.std.specs.Prelude.{◌≡◌, ◌⊎◌, ℕ, List, Option};
ghost use Rattle.atomic_file.specs.Crashes.{Place, MayLead, entry};
ghost use Rattle.atomic_file.specs.Log.{Event};
ghost use Rattle.atomic_file.specs.Moments.{IsOldOrNew};
ghost use Rattle.atomic_file.specs.declared.names.Names.{Names};
ghost use Rattle.headline.specs.Durable.{IsImageOf, IsBuiltFile};
ghost use Rattle.image_build.specs.Streamed.{IsPlanOfText};
ghost use Rattle.manifest_layout.specs.Plans.{Planned};

/// States what follows of each moment that `image_build::put` promises, in a directory whose files
/// report their bytes: the name of the file leads to what it did, or to a whole image of the
/// manifest's plan, in which a check finds no fault. A crash leaves what it might have left before,
/// or such an image.
pub fn replaced_by_an_image()
    ensures seen { (names : Names) (text : List ℕ) (p : Planned) (known : Option (List (List ℕ)))
        (old log : List Event) → IsPlanOfText text p
        → IsOldOrNew names (IsImageOf known p) old log
        → (entry log names.out ≡ entry old names.out)
        ⊎ IsBuiltFile p old log (entry log names.out) }
    ensures crashed { (names : Names) (text : List ℕ) (p : Planned)
        (known : Option (List (List ℕ))) (old log : List Event) (place : Place)
        → IsPlanOfText text p → IsOldOrNew names (IsImageOf known p) old log
        → MayLead log names.out place
        → MayLead old names.out place ⊎ IsBuiltFile p old log place }
{
    image_build::laws::streamed_is_accepted();
}

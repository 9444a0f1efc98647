//! What follows from the log of files.
ghost use Rattle.std.specs.Prelude.{ℕ, List, [], ◌++◌, map, Option};
ghost use Rattle.image_stream.specs.Segments.{Form};
ghost use Rattle.image_stream.specs.Outcomes.{IsStreamed};
ghost use Rattle.file_sources.specs.Told.{Told, IsLogOf, told_of};

use crate::opener::Opener;

/// States what the contents of a streamed image are if its sources were files: what the reads of
/// the opener told last, each of the file of its name. At first nothing was told.
pub fn streamed_is_told<O: Opener>()
    ensures { (was is : O) (names : List (List ℕ)) (known : Option (List (List ℕ))) (f : Form)
        (stored : List ℕ → ℕ) (old new : Option (List ℕ))
        → (s : IsStreamed known (IsLogOf names (O.IsLog was)) (IsLogOf names (O.IsLog is)) f stored
        old new) → O.IsLog was []
        → (earlier : List Told) × O.IsLog is (earlier ++ map (told_of names) s.0.answers) }
{}

//! Laws on images of segments.
ghost use Rattle.std.specs.Prelude.{◌≡◌, ℕ, ◌*◌, List, [], ◌∷◌, ◌++◌, map, length, take};
ghost use Rattle.rom_fields.specs.Parts.{part, laid};
ghost use Rattle.rom_fields.specs.Sums.{balance};
ghost use Rattle.rom_fields.specs.Words.{words_total};
ghost use Rattle.image_stream.specs.WordSums.{balance_of};
ghost use Rattle.image_stream.specs.Segments.{Form, IsLaidOut, image_from, segment_part};
ghost use Rattle.image_stream.specs.Outcomes.{AreSized};

/// Shows that an image with 0 as its stored checksum is its superblock and its segments, laid one
/// after the other, and zeros up to its end.
pub fn image_is_laid()
    ensures { (f : Form) (contents : List (List ℕ)) → IsLaidOut f → AreSized f.sizes contents
        → length (f.head 0) ≡ f.start
        → f.head 0 ++ image_from contents f.start f.segments f.end
        ≡ laid [] (part 0 (f.head 0)
        ∷ (map (segment_part contents) f.segments ++ part f.end [] ∷ [])) }
{}

/// Shows that the romfs checksum of whole words is the word that brings the sum of the first 512
/// bytes to 0.
pub fn word_sum_is_of_words()
    ensures { (b : List ℕ) (n : ℕ) → length b ≡ 4 * n
        → balance_of b ≡ balance (words_total (take 512 b)) }
{}

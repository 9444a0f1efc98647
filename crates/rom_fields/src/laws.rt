//! Laws on parts that are laid, and on sums of words.
ghost use Rattle.std.specs.Prelude.{◌≡◌, ◌≤◌, ◌*◌, ℕ, List, [], ◌++◌, length, get_or, take};
ghost use Rattle.std.specs.List.{AllByRecursion as Every};
ghost use Rattle.byteorder.specs.Endian.{big_bytes};
ghost use Rattle.rom_fields.specs.Parts.{Part, laid, bytes_from, Rises, end_of_parts, HasAt};
ghost use Rattle.rom_fields.specs.Parts.{HasParts, IsOutside};
ghost use Rattle.rom_fields.specs.Sums.{balanced, sealed};
ghost use Rattle.rom_fields.specs.Words.{words_sum};

/// Shows that parts which are one after the other can be read after they are laid, that the bytes
/// end with the last part, and that every byte outside the parts is zero.
pub fn parts_stand()
    ensures stand { (ps : List Part) → Rises 0 ps → HasParts (laid [] ps) ps }
    ensures length { (ps : List Part) → Rises 0 ps → length (laid [] ps) ≡ end_of_parts 0 ps }
    ensures zeros { (ps : List Part) (i : ℕ) → Rises 0 ps → Every (IsOutside i) ps
        → get_or (laid [] ps) i 0 ≡ 0 }
{}

/// Shows that bytes are these parts, laid one after the other, if they end with the last part, have
/// each part at its offset, and are zero outside the parts.
pub fn parts_are_all()
    ensures { (b : List ℕ) (ps : List Part) → Rises 0 ps → HasParts b ps
        → length b ≡ end_of_parts 0 ps
        → ((i : ℕ) → Every (IsOutside i) ps → get_or b i 0 ≡ 0) → b ≡ laid [] ps }
{}

/// Shows that parts laid behind some bytes are these bytes, followed by the bytes of the parts from
/// there on (`bytes_from`).
pub fn laid_from_the_left()
    ensures { (out : List ℕ) (ps : List Part) → Rises (length out) ps
        → laid out ps ≡ out ++ bytes_from (length out) ps }
{}

/// Shows that the sum of words in front, the word between and what follows it is 0. So is the sum
/// of the first 512 bytes with the word at offset 12, or of all bytes if they are fewer.
pub fn sums_are_zero()
    ensures balanced { (k : ℕ) (front back : List ℕ) → length front ≡ 4 * k
        → words_sum (balanced front back) ≡ 0 }
    ensures sealed { (b : List ℕ) → 16 ≤ length b → HasAt b 12 (big_bytes 4 0)
        → words_sum (take 512 (sealed b)) ≡ 0 }
{}

//! What follows from the definitions of patterns.
ghost use Rattle.std.specs.Prelude.{◌≡◌, ◌≤◌, ◌∷◌, ◌++◌, [], ℕ, List, map, true, false, Ok};
ghost use Rattle.std.specs.List.{Contains};
ghost use Rattle.path_patterns.specs.Literals.{IsLiteral};
ghost use Rattle.path_patterns.specs.Patterns.{fits, fits_bytes, has};
ghost use Rattle.path_patterns.specs.Reading.{Part, part_of, parts_of};
ghost use Rattle.path_patterns.specs.declared.pattern.Piece.{Piece};
ghost use Rattle.path_patterns.specs.declared.pattern.Piece.TheVariants.{One, Star};
ghost use Rattle.path_patterns.specs.declared.pattern.Range.{Range};
ghost use Rattle.path_patterns.specs.declared.pattern.Set.{Set};
ghost use Rattle.path_patterns.specs.Several.{behind_slash, fits_any};

/// States that a text without wildcards and backslashes is a pattern, which matches its own text
/// and no other path.
pub fn literal_patterns()
    ensures read { (text : List ℕ) → IsLiteral text → (ps : List Part) × (parts_of text ≡ Ok ps) }
    ensures itself { (text : List ℕ) (ps : List Piece) → IsLiteral text
        → parts_of text ≡ Ok (map part_of ps) → fits ps text ≡ true }
    ensures only { (text path : List ℕ) (ps : List Piece) → IsLiteral text
        → parts_of text ≡ Ok (map part_of ps) → fits ps path ≡ true → path ≡ text }
{}

/// States that a star in front of a pattern matches any characters, also slashes.
pub fn stars()
    ensures any { (front rest : List ℕ) (ps : List Piece) → fits ps rest ≡ true
        → fits (Star ∷ ps) (front ++ rest) ≡ true }
    ensures only { (path : List ℕ) (ps : List Piece) → fits (Star ∷ ps) path ≡ true
        → (front rest : List ℕ) × (path ≡ front ++ rest) × (fits ps rest ≡ true) }
{}

/// States that a set in front of a pattern matches exactly one character, which it has.
pub fn one_character()
    ensures any { (s : Set) (c : ℕ) (rest : List ℕ) (ps : List Piece) → has s c ≡ true
        → fits ps rest ≡ true → fits (One s ∷ ps) (c ∷ rest) ≡ true }
    ensures only { (s : Set) (path : List ℕ) (ps : List Piece) → fits (One s ∷ ps) path ≡ true
        → (c : ℕ) × (rest : List ℕ) × (path ≡ c ∷ rest) × (has s c ≡ true)
        × (fits ps rest ≡ true) }
{}

/// States which characters a set has: those between the two ends of one of its ranges, or all
/// others if it is negated.
pub fn sets()
    ensures has { (s : Set) (r : Range) (c : ℕ) → s.is_negated ≡ false
        → Contains s.ranges.items r → r.first ≤ c → c ≤ r.last → has s c ≡ true }
    ensures only { (s : Set) (c : ℕ) → s.is_negated ≡ false → has s c ≡ true
        → (r : Range) × Contains s.ranges.items r × (r.first ≤ c) × (c ≤ r.last) }
    ensures others { (s : Set) (c : ℕ) → s.is_negated ≡ true
        → ((r : Range) → Contains s.ranges.items r → r.first ≤ c → c ≤ r.last → ⊥)
        → has s c ≡ true }
    ensures not { (s : Set) (r : Range) (c : ℕ) → s.is_negated ≡ true
        → Contains s.ranges.items r → r.first ≤ c → c ≤ r.last → has s c ≡ false }
{}

/// States that the pattern `?` matches each path of one character and no other path, and that a
/// backslash and a character match this character.
pub fn question_marks_and_backslashes()
    ensures any { (c : ℕ) (ps : List Piece) → parts_of (63 ∷ []) ≡ Ok (map part_of ps)
        → fits ps (c ∷ []) ≡ true }
    ensures one { (path : List ℕ) (ps : List Piece) → parts_of (63 ∷ []) ≡ Ok (map part_of ps)
        → fits ps path ≡ true → (c : ℕ) × (path ≡ c ∷ []) }
    ensures itself { (c : ℕ) (ps : List Piece) → parts_of (92 ∷ c ∷ []) ≡ Ok (map part_of ps)
        → fits ps (c ∷ []) ≡ true }
    ensures only { (c : ℕ) (path : List ℕ) (ps : List Piece)
        → parts_of (92 ∷ c ∷ []) ≡ Ok (map part_of ps) → fits ps path ≡ true → path ≡ c ∷ [] }
{}

/// States that several patterns match a path exactly if one of them matches what is behind its
/// slash.
pub fn several_patterns()
    ensures any { (patterns : List (List Piece)) (ps : List Piece) (path : List ℕ)
        → Contains patterns ps → fits_bytes ps (behind_slash path) ≡ true
        → fits_any patterns path ≡ true }
    ensures only { (patterns : List (List Piece)) (path : List ℕ) → fits_any patterns path ≡ true
        → (ps : List Piece) × Contains patterns ps × (fits_bytes ps (behind_slash path) ≡ true) }
{}

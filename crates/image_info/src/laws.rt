//! Laws of runs, for readers of a map, and of the records whose extents count.
ghost use Rattle.cramfs_format.specs.Refers.{references as cramfs_references};
ghost use Rattle.cramfs_format.specs.Tree.{IsTree as IsCramfsTree};
ghost use Rattle.cramfs_format.specs.declared.order.Order.{Order};
ghost use Rattle.image_info.specs.Gaps.{romfs_forest, cramfs_forest};
ghost use Rattle.image_info.specs.Runs.{Piece, runs, joined, GoOn, AreApart, LieAt};
ghost use Rattle.record_forest.specs.Forest.{Forest, all_rows};
ghost use Rattle.rom_tree.specs.Image.{Image, contents_of};
ghost use Rattle.rom_tree.specs.Tree.{Node, IsIn, nodes, places_of};
ghost use Rattle.romfs_format.specs.Refers.{references as romfs_references};
ghost use Rattle.romfs_format.specs.Tree.{IsTree as IsRomfsTree};
ghost use Rattle.std.specs.Prelude.{◌≡◌, ℕ, List, length, ◌≢◌, ◌≤◌, ◌^◌};

/// States that the runs of a file, joined, are its offsets in order; they go on in the file from
/// byte 0 to the size; and no two runs in a row adjoin. No other pieces are so.
pub fn runs_are_the_file()
    ensures joined { (ps : List ℕ) → joined (runs ps) ≡ ps }
    ensures offsets { (ps : List ℕ) → GoOn 0 (runs ps) (length ps) }
    ensures apart { (ps : List ℕ) → AreApart (runs ps) }
    ensures only { (ps : List ℕ) (rs : List Piece) → joined rs ≡ ps → GoOn 0 rs (length ps)
        → AreApart rs → rs ≡ runs ps }
{}

/// States that the image's bytes of a run are the file's bytes from the run's byte on.
pub fn runs_are_its_bytes()
    ensures { (m : Image) (x : Node) → IsIn x (nodes m.tree)
        → LieAt m.bytes (contents_of m.bytes x) (runs (places_of x)) }
{}

/// States that the forest whose extents count is that of the image's tree.
pub fn of_the_tree()
    ensures romfs { (b : List ℕ) (r most deepest : ℕ) (f : Forest) → r ≢ 0
        → IsRomfsTree b r most deepest f
        → length (all_rows (romfs_references b r) f) ≤ 2 ^ 32 → romfs_forest b r ≡ f }
    ensures cramfs { (o : Order) (b : List ℕ) (most deepest : ℕ) (f : Forest)
        → IsCramfsTree o b most deepest f
        → length (all_rows (cramfs_references o b) f) ≤ 2 ^ 32 → cramfs_forest o b ≡ f }
{}

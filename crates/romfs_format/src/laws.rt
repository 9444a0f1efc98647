//! Laws of the romfs definitions.
ghost use Rattle.std.specs.Prelude.{◌≡◌, ◌≢◌, ◌<◌, ◌^◌, ℕ, List, length};
ghost use Rattle.record_forest.specs.Forest.{Forest, all_rows};
ghost use Rattle.romfs_format.specs.Record.{type_of};
ghost use Rattle.romfs_format.specs.Refers.{references};
ghost use Rattle.romfs_format.specs.Tree.{RomfsTree, IsTree, tree_of};
ghost use Rattle.romfs_format.specs.Made.{IsRomfs, made};
ghost use Rattle.rom_tree.specs.Tree.{Node};

/// States that an image has at most one tree, under any limits.
pub fn one_tree()
    ensures { (bytes : List ℕ) (m n d e : ℕ) (t u : Node) → RomfsTree bytes m d t
        → RomfsTree bytes n e u → t ≡ u }
{}

/// States that the tree of an image is a function of its bytes, its root's offset and the number of
/// its records, and what a reader needs to know of the records.
pub fn made_of_bytes()
    ensures { (b : List ℕ) (r most deepest : ℕ) (f : Forest) → r ≢ 0 → IsTree b r most deepest f
        → length b < 2 ^ 32 → type_of b r ≡ 1
        → IsRomfs b r (length (all_rows (references b r) f))
        × (tree_of b r f ≡ made b r (length (all_rows (references b r) f)) r) }
{}

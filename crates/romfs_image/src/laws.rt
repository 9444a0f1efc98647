//! Laws of the faults of an image and its tree.
ghost use Rattle.std.specs.Prelude.{ℕ, List};
ghost use Rattle.romfs_format.specs.Tree.{RomfsTree};
ghost use Rattle.romfs_format.specs.Faults.{HasNoFault};
ghost use Rattle.rom_tree.specs.Tree.{Node};

/// States that an image has no fault exactly if it has a tree. The fault set knows offsets,
/// references and extents, and no tree.
pub fn exact()
    ensures tree { (bytes : List ℕ) (most deepest : ℕ) (t : Node) → RomfsTree bytes most deepest t
        → HasNoFault bytes most deepest }
    ensures faultless { (bytes : List ℕ) (most deepest : ℕ) → HasNoFault bytes most deepest
        → (t : Node) × RomfsTree bytes most deepest t }
{}

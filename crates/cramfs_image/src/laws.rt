//! Laws of the faults of an image and its tree.
ghost use Rattle.std.specs.Prelude.{ℕ, List};
ghost use Rattle.cramfs_format.specs.declared.order.Order.{Order};
ghost use Rattle.cramfs_format.specs.Tree.{CramfsTree};
ghost use Rattle.cramfs_format.specs.Faults.{HasNoFault};
ghost use Rattle.rom_tree.specs.Tree.{Node};

/// States that an image has no fault exactly if it has a tree, in either byte order. The fault set
/// knows offsets, references and extents, and no tree.
pub fn exact()
    ensures tree { (o : Order) (bytes : List ℕ) (most deepest : ℕ) (t : Node)
        → CramfsTree o bytes most deepest t → HasNoFault o bytes most deepest }
    ensures faultless { (o : Order) (bytes : List ℕ) (most deepest : ℕ)
        → HasNoFault o bytes most deepest → (t : Node) × CramfsTree o bytes most deepest t }
{}

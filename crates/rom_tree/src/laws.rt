//! Laws of the definitions of the list.
ghost use Rattle.std.specs.Prelude.{◌≡◌, ℕ, List};
ghost use Rattle.rom_tree.specs.Tree.{Node};
ghost use Rattle.rom_tree.specs.Listing.{list_text};
ghost use Rattle.rom_tree.specs.Names.{names, listed};

/// States that the list of a tree has a line for each of its names, in their order.
pub fn names_are_listed()
    ensures { (b : List ℕ) (t : Node) → list_text b t ≡ listed b (names t) }
{}

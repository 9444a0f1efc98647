//! Laws of the cramfs definitions.
ghost use Rattle.std.specs.Prelude.{◌≡◌, ◌≤◌, ◌<◌, ◌^◌, ℕ, List, length};
ghost use Rattle.record_forest.specs.Forest.{Forest, all_rows};
ghost use Rattle.cramfs_format.specs.declared.order.Order.{Order};
ghost use Rattle.cramfs_format.specs.Inode.{type_of};
ghost use Rattle.cramfs_format.specs.Refers.{references, root_place};
ghost use Rattle.cramfs_format.specs.Superblock.{order_of};
ghost use Rattle.cramfs_format.specs.Tree.{CramfsTree, IsTree, tree_of};
ghost use Rattle.cramfs_format.specs.Made.{IsCramfs, made};
ghost use Rattle.rom_tree.specs.Tree.{Node};

/// States that an image has at most one tree, in any byte order and under any limits. The order is
/// that in which the image begins with the magic.
pub fn one_tree()
    ensures tree { (o p : Order) (bytes : List ℕ) (m n d e : ℕ) (t u : Node)
        → CramfsTree o bytes m d t → CramfsTree p bytes n e u → t ≡ u }
    ensures order { (o : Order) (bytes : List ℕ) (m d : ℕ) (t : Node) → CramfsTree o bytes m d t
        → o ≡ order_of bytes }
{}

/// States that the tree of an image is a function of its bytes and the number of its records, and
/// what a reader needs to know of the records.
pub fn made_of_bytes()
    ensures { (o : Order) (b : List ℕ) (most deepest : ℕ) (f : Forest) → IsTree o b most deepest f
        → 76 ≤ length b → length b < 2 ^ 32 → type_of o b root_place ≡ 4
        → IsCramfs o b (length (all_rows (references o b) f))
        × (tree_of o b f ≡ made o b (length (all_rows (references o b) f)) root_place) }
{}

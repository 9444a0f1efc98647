//! Laws about differences, as functions without code.
ghost use Rattle.std.specs.Prelude.{◌≡◌, ℕ, Bool, List, []};
ghost use Rattle.rom_tree.specs.Names.{Name};
ghost use Rattle.rom_tree.specs.Tree.{Node};
ghost use Rattle.image_compare.specs.Alike.{AreAlike};
ghost use Rattle.image_compare.specs.Diff.{names_lines};
ghost use Rattle.image_compare.specs.Paths.{AreLinesOf, HaveOwnPaths};
ghost use Rattle.image_compare.specs.Rows.{AreSorted};

/// States that no line is written exactly if the names of both images are alike, one by one.
pub fn no_line_if_alike()
    ensures alike { (places : Bool) (a b : List ℕ) (xs ys : List Name)
        → names_lines places a b xs ys ≡ [] → AreAlike places a b xs ys }
    ensures none { (places : Bool) (a b : List ℕ) (xs ys : List Name)
        → AreAlike places a b xs ys → names_lines places a b xs ys ≡ [] }
{}

/// States what the lines of two images mean, if no two names of an image have one path: `- PATH` if
/// only the old image has the path, `+ PATH` if only the new one has it, both if the kinds differ,
/// and otherwise `m`, `c` and `@` exactly for what differs. Paths rise.
pub fn lines_are_due()
    ensures { (places : Bool) (a b : List ℕ) (s t : Node) (xs ys : List Name)
        → AreSorted s xs → AreSorted t ys → HaveOwnPaths s → HaveOwnPaths t
        → AreLinesOf places a b xs ys (names_lines places a b xs ys) }
{}

//! Laws about the definitions of this crate. Each is the contract of a function without code.
ghost use Rattle.std.specs.Prelude.{◌≡◌, ℕ, List};
ghost use Rattle.std.specs.Cmp.Lexicographic.{slice_cmp};
ghost use Rattle.std.specs.Ordering.{nat_cmp};
ghost use Rattle.std.specs.declared.cmp.Ordering.TheVariants.{Less};
ghost use Rattle.directory_walk.specs.Trees.{join};

/// The path of a directory is less than the path of each entry of it.
pub fn directory_first()
    ensures { (path name : List ℕ) → slice_cmp nat_cmp path (join path name) ≡ Less }
{}

//! Laws on the rows of names.
ghost use Rattle.std.specs.Prelude.{◌≡◌, ◌≤◌, ℕ, replicate};
ghost use Rattle.manifest_tree.specs.Files.{height};
ghost use Rattle.manifest_tree.specs.Names.{Names};
ghost use Rattle.plan_rows.specs.Rows.{rows};
ghost use Rattle.romfs_layout.specs.Layout.{ends};
ghost use Rattle.romfs_plan.specs.Passes.{places, places_end, places_of, named_places};

/// Shows that the passes over the rows of names compute the offsets of the layout.
pub fn rows_are_placed()
    ensures places { (from : ℕ) (n : Names) → height n ≤ 64
        → places_of (replicate 66 0) (rows 1 n) (places from (rows 1 n)) ≡ named_places from n }
    ensures end { (from : ℕ) (n : Names) → places_end from (rows 1 n) ≡ ends from n }
{}

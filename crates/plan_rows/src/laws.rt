//! Laws on the rows of a manifest.
ghost use Rattle.std.specs.List.{AllByRecursion as Every};
ghost use Rattle.std.specs.Prelude.{◌≡◌, [], ℕ, List};
ghost use Rattle.manifest.specs.Grammar.{IsManifest};
ghost use Rattle.manifest.specs.Lines.{ManifestLines};
ghost use Rattle.formats.specs.Format.{Format};
ghost use Rattle.manifest_layout.specs.Misfit.{HasLineMisfit};
ghost use Rattle.plan_rows.specs.Entries.{Entry, Holds, Rise, entries, entries_of};
ghost use Rattle.plan_rows.specs.Fits.{IsFit};
ghost use Rattle.plan_rows.specs.Rows.{rows};
ghost use Rattle.manifest_tree.specs.Tree.{tree_of};
ghost use Rattle.record_forest.specs.Faults.{IsNone};

/// Shows that the row of a manifest's tree has the entries of its lines, put one by one in the
/// order of the ways to them, and that each entry comes before those after it.
pub fn lines_make_the_row()
    ensures row { (m : ManifestLines) (sizes : List ℕ) → IsManifest m
        → entries [] (tree_of m.lines sizes) ≡ entries_of m.lines sizes }
    ensures rises { (m : ManifestLines) (sizes : List ℕ) → IsManifest m
        → Rise (entries_of m.lines sizes) }
{}

/// Shows that two ordered rows with the same entries are equal. So it does not matter how entries
/// were put in order.
pub fn order_is_one()
    ensures { (one other : List Entry) → Rise one → Rise other
        → ((e : Entry) → Holds one e → Holds other e)
        → ((e : Entry) → Holds other e → Holds one e) → one ≡ other }
{}

/// Shows that each row of a manifest fits a format, if no line of the manifest has a misfit.
pub fn rows_fit()
    ensures { (f : Format) (m : ManifestLines) (sizes : List ℕ) → IsManifest m
        → IsNone (HasLineMisfit f m sizes) → Every (IsFit f) (rows 1 (tree_of m.lines sizes)) }
{}

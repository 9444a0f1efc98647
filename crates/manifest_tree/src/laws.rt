//! Laws on the names that a manifest means.
ghost use Rattle.std.specs.Prelude.{◌≡◌, ◌∷◌, [], ℕ, List};
ghost use Rattle.manifest.specs.Grammar.{IsManifest, manifest_of};
ghost use Rattle.rom_tree.specs.Tree.{Node};
ghost use Rattle.manifest.specs.Lines.{ManifestLines};
ghost use Rattle.manifest_tree.specs.Example.{example, example_names, names_by};
ghost use Rattle.manifest_tree.specs.Meant.{IsMeant};
ghost use Rattle.manifest_tree.specs.Shape.{HasShape, file_under, with_names};
ghost use Rattle.manifest_tree.specs.Tree.{tree_of, root_of, file_named};

/// Shows that the names of a manifest lead to its files. A list of names leads to the file at the
/// path of the first line with exactly these names, no names lead to the root, and a list that no
/// line has leads nowhere.
pub fn names_lead_to_files()
    ensures { (m : ManifestLines) (sizes : List ℕ) (q : List (List ℕ)) → IsManifest m
        → file_under q (with_names (root_of m.lines sizes) (tree_of m.lines sizes))
        ≡ file_named m.lines sizes q }
{}

/// Shows the names of a small manifest whose source has five bytes. They include a further name of
/// a file, and a file of its own with the same contents.
pub fn names_of_an_example()
    ensures { names_by (5 ∷ []) (manifest_of example) ≡ example_names }
{}

/// Shows that a tree with the shape of a manifest's names is what the manifest means.
pub fn shape_is_meant()
    ensures { (image : List ℕ) (t : Node) (contents : List (List ℕ)) (m : ManifestLines)
        (sizes : List ℕ) → IsManifest m
        → HasShape image t contents (root_of m.lines sizes) (tree_of m.lines sizes)
        → IsMeant image t contents m sizes }
{}

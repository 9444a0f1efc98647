//! Laws on the manifest of an image.
ghost use Rattle.std.specs.List.{All, IsDistinct};
ghost use Rattle.std.specs.Prelude.{ℕ, ◌<◌, ◌≡◌, List, Ok, [], false, length, map};
ghost use Rattle.std.specs.Str.{bytes_eq};
ghost use Rattle.image_manifest.specs.ByPaths.{IsByPaths};
ghost use Rattle.image_manifest.specs.Describable.{AreValid, HaveNoZeros, IsDescribable};
ghost use Rattle.image_manifest.specs.Describable.{IsDescribedWhole, IsLawfulTree};
ghost use Rattle.image_manifest.specs.ExtractedMembers.{made_in, members_in};
ghost use Rattle.image_manifest.specs.Lines.{member_lines};
ghost use Rattle.image_manifest.specs.Members.{has_long_path};
ghost use Rattle.image_manifest.specs.Sources.{AreSources, file_contents};
ghost use Rattle.image_manifest.specs.declared.giving.Giving.{Giving};
ghost use Rattle.image_manifest.specs.declared.rules.FileRules.{FileRules};
ghost use Rattle.manifest.specs.Grammar.{manifest_of};
ghost use Rattle.manifest.specs.Printed.{AreTaken, IsVolume, as_read, first_number, manifest_text};
ghost use Rattle.manifest_tree.specs.Meant.{IsMeant};
ghost use Rattle.manifest_tree.specs.Shape.{HasShape};
ghost use Rattle.manifest_tree.specs.Tree.{root_of, tree_of};
ghost use Rattle.rom_tree.specs.Image.{Image};
ghost use Rattle.rom_tree.specs.Names.{Name, names};
ghost use Rattle.tree_extract.specs.Choices.{IsFit};
ghost use Rattle.tree_extract.specs.Members.{AreMembers};
ghost use Rattle.tree_extract.specs.declared.tree.Kind.{Kind};

/// Shows that the image's manifest is valid and has exactly the lines of the image's names,
/// numbered in their order, and this volume. The grammar has to accept each line behind those
/// before it, and the volume's name has to be valid.
pub fn lines_are_read_back()
    ensures { (m : Image) (volume : List ℕ) (rules : FileRules) → IsVolume volume
        → AreTaken [] (first_number volume) (member_lines m rules)
        → manifest_of (manifest_text volume (member_lines m rules))
        ≡ Ok (as_read volume (member_lines m rules)) }
{
    manifest::laws::reads_back();
}

/// Shows that the manifest of an image means the image's tree, if the names that it means have the
/// shape of the tree. Its sources have the contents of the files.
pub fn described_by_shape()
    ensures { (m : Image) (volume : List ℕ) (rules : FileRules) → IsVolume volume
        → AreTaken [] (first_number volume) (member_lines m rules)
        → HasShape m.bytes m.tree (file_contents m)
        (root_of (as_read volume (member_lines m rules)).lines (map length (file_contents m)))
        (tree_of (as_read volume (member_lines m rules)).lines (map length (file_contents m)))
        → IsMeant m.bytes m.tree (file_contents m) (as_read volume (member_lines m rules))
        (map length (file_contents m)) }
{
    lines_are_read_back();
    manifest_tree::laws::shape_is_meant();
}

/// Shows that the manifest of an image means the image's tree, if the grammar accepts its lines and
/// paths describe the tree. Its sources have the contents of the files. Each path then has the
/// kind, attributes and bytes of its node, no other path exists, and two paths name one file
/// exactly if they lead to one node.
pub fn means_its_tree()
    ensures { (m : Image) (volume : List ℕ) (rules : FileRules)
        → AreTaken [] (first_number volume) (member_lines m rules) → IsByPaths m.tree
        → IsMeant m.bytes m.tree (file_contents m) (as_read volume (member_lines m rules))
        (map length (file_contents m)) }
{}

/// Shows that the grammar accepts the lines of an image that a manifest describes whole, each
/// behind those before it. Its sources may be in any directory.
pub fn lines_are_taken()
    ensures { (m : Image) (volume : List ℕ) (rules : FileRules) → IsDescribable m → AreValid rules
        → AreTaken [] (first_number volume) (member_lines m rules) }
{}

/// Shows that the grammar accepts the lines of an image only if no link's text has a zero byte, and
/// no path has more than 4,095 bytes.
pub fn taken_only_then()
    ensures { (m : Image) (volume : List ℕ) (rules : FileRules)
        → AreTaken [] (first_number volume) (member_lines m rules)
        → HaveNoZeros m × (has_long_path m.tree ≡ false) }
{}

/// Shows that the sources of an image's manifest are the image's regular files, in their order.
/// Each is the path of the file's first name in the directory, and has the file's contents.
pub fn sources_are_files()
    ensures { (m : Image) (volume : List ℕ) (rules : FileRules) → AreSources m volume rules }
{}

/// Shows that the manifest of an image describes it whole, if its tree is valid, no link's text has
/// a zero byte, no path has more than 4,095 bytes, and the volume's name is valid.
pub fn described_whole()
    ensures { (m : Image) (volume : List ℕ) (rules : FileRules) → IsVolume volume → AreValid rules
        → IsDescribable m → IsDescribedWhole m volume rules }
{
    lines_are_read_back();
    means_its_tree();
    lines_are_taken();
    sources_are_files();
}

/// Shows that the names of an image with a lawful tree can be extracted, and so can some of them.
pub fn can_be_extracted()
    ensures all { (g : Giving) (m : Image) → IsLawfulTree m.tree → AreMembers (members_in g m) }
    ensures some { (g : Giving) (m : Image) (ks : List Kind) → IsLawfulTree m.tree
        → IsFit (members_in g m) ks → AreMembers (made_in g m ks) }
{}

/// Shows that no two names of an image with a lawful tree have one path.
pub fn paths_differ()
    ensures { (m : Image) → IsLawfulTree m.tree
        → IsDistinct bytes_eq (map (λ (n : Name). n.path) (names m.tree)) }
{}

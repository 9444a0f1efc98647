//! Laws on the manifest of an accepted image.
ghost use Rattle.std.specs.Prelude.{◌≡◌, ◌↔◌, ◌<◌, ◌≤◌, ℕ, List, [], Ok, false, length, map};
ghost use Rattle.std.specs.List.{All};
ghost use Rattle.manifest.specs.Grammar.{manifest_of};
ghost use Rattle.manifest.specs.Lines.{ManifestLines};
ghost use Rattle.manifest.specs.Printed.{AreTaken, IsVolume, first_number, manifest_text};
ghost use Rattle.manifest_tree.specs.Meant.{IsMeant};
ghost use Rattle.rom_tree.specs.Image.{Image};
ghost use Rattle.rom_tree.specs.Tree.{Node};
ghost use Rattle.rom_tree.specs.declared.types.Limits.{Limits};
ghost use Rattle.rom_tree.specs.declared.types.Report.{Report};
ghost use Rattle.image_check.specs.Any.{any_view, report_of};
ghost use Rattle.image_check.specs.Checked.{Shows};
ghost use Rattle.image_check.specs.declared.any.AnyImage.{AnyImage};
ghost use Rattle.image_info.specs.Volumes.{volume_of};
ghost use Rattle.image_manifest.specs.Lines.{member_lines};
ghost use Rattle.image_manifest.specs.Members.{has_long_path};
ghost use Rattle.image_manifest.specs.Sources.{file_contents};
ghost use Rattle.image_manifest.specs.Describable.{AreValid, HaveNoZeros, IsLawfulTree};
ghost use Rattle.image_manifest.specs.Describable.{IsDescribedWhole};
ghost use Rattle.image_manifest.specs.declared.rules.FileRules.{FileRules};
ghost use Rattle.headline.specs.Alike.{AreAlike};

/// Shows that a manifest can describe the tree of an image that the check accepts: its root is a
/// directory, each name is valid and occurs once in its list, numbers are small, and each directory
/// has one path.
pub fn accepted_is_lawful()
    ensures { (all : List ℕ) (limits : Limits) (m : Image) (report : Report)
        → All (λ b. b < 256) all → Shows all limits m report → IsLawfulTree m.tree }
{}

/// Shows when the grammar accepts the lines of an image that the check accepts: exactly if no
/// link's text has a zero byte and no path has more than 4,095 bytes.
pub fn accepted_is_taken()
    ensures { (all : List ℕ) (limits : Limits) (m : Image) (report : Report)
        (volume : List ℕ) (rules : FileRules) → All (λ b. b < 256) all → Shows all limits m report
        → AreValid rules
        → AreTaken [] (first_number volume) (member_lines m rules)
        ↔ (HaveNoZeros m × (has_long_path m.tree ≡ false)) }
{
    accepted_is_lawful();
    image_manifest::laws::lines_are_taken();
    image_manifest::laws::taken_only_then();
}

/// Shows that the manifest of an image that the check accepts is valid, has exactly the lines of
/// its names, and means the image's tree. No link's text may have a zero byte, no path more than
/// 4,095 bytes, and the volume's name has to be valid.
pub fn accepted_is_described()
    ensures { (all : List ℕ) (limits : Limits) (m : Image) (report : Report)
        (volume : List ℕ) (rules : FileRules) → All (λ b. b < 256) all → Shows all limits m report
        → IsVolume volume → AreValid rules → HaveNoZeros m
        → has_long_path m.tree ≡ false → IsDescribedWhole m volume rules }
{
    accepted_is_lawful();
    image_manifest::laws::described_whole();
}

/// Shows the same for the manifest of a checked image with the volume's name from the image. No
/// link's text may have a zero byte, no path more than 4,095 bytes, and the volume's name at most
/// 255.
pub fn extracted_is_described()
    ensures { (all : List ℕ) (limits : Limits) (s : AnyImage) (rules : FileRules)
        → All (λ b. b < 256) all → Shows all limits (any_view s) (report_of s)
        → length (volume_of s) ≤ 255 → AreValid rules → HaveNoZeros (any_view s)
        → has_long_path (any_view s).tree ≡ false
        → IsDescribedWhole (any_view s) (volume_of s) rules }
{
    accepted_is_described();
}

/// Shows that an image built from the manifest of an image that is described whole is like that
/// image, if the sources have the contents of its files. Whatever tree the manifest means has the
/// same at each path, and the same paths share a file.
pub fn built_again_is_alike()
    ensures { (m : Image) (volume : List ℕ) (rules : FileRules) → IsDescribedWhole m volume rules
        → (n : ManifestLines) (bytes : List ℕ) (t : Node)
        → manifest_of (manifest_text volume (member_lines m rules)) ≡ Ok n
        → IsMeant bytes t (file_contents m) n (map length (file_contents m))
        → AreAlike m.bytes m.tree bytes t }
{}

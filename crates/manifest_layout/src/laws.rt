//! Laws on the misfits of a manifest, and on the layout of one that fits.
ghost use Rattle.std.specs.Prelude.{◌≡◌, List, ℕ, Option, MatchOption, map, length};
ghost use Rattle.manifest_tree.specs.Items.{SectionsRise};
ghost use Rattle.manifest.specs.Grammar.{IsManifest};
ghost use Rattle.manifest.specs.Lines.{ManifestLines};
ghost use Rattle.manifest_layout.specs.Compact.{IsCompact};
ghost use Rattle.manifest_layout.specs.Composed.{composed_of};
ghost use Rattle.formats.specs.Format.{Format};
ghost use Rattle.manifest_layout.specs.Format.{HasUsualTree, IsPlannedBy, layout_of};
ghost use Rattle.manifest_layout.specs.Format.{len_of, sections_of};
ghost use Rattle.manifest_layout.specs.Misfit.{IsLeastMisfit, HasNoMisfit};
ghost use Rattle.manifest_layout.specs.Placement.{CopiesStand, HasVolume, IsPlaced};
ghost use Rattle.manifest_layout.specs.Sealed.{HasSeal};
ghost use Rattle.manifest_tree.specs.Meant.{IsMeant};
ghost use Rattle.rom_fields.specs.declared.fault.Fault.{Fault};
ghost use Rattle.rom_tree.specs.Tree.{Node};

/// Shows that a manifest either fits or has exactly one least misfit.
pub fn one_answer()
    ensures given { (f : Format) (m : ManifestLines) (sizes : List ℕ)
        → (o : Option Fault) × MatchOption o (HasNoMisfit f m sizes) (IsLeastMisfit f m sizes) }
    ensures excluded { (f : Format) (m : ManifestLines) (sizes : List ℕ) (e : Fault)
        → HasNoMisfit f m sizes → IsLeastMisfit f m sizes e → ⊥ }
    ensures alone { (f : Format) (m : ManifestLines) (sizes : List ℕ) (d e : Fault)
        → IsLeastMisfit f m sizes d → IsLeastMisfit f m sizes e → d ≡ e }
{}

/// Shows that the volume of a manifest that fits a format can be laid out in it.
pub fn fitting_is_planned()
    ensures { (f : Format) (m : ManifestLines) (contents : List (List ℕ))
        → IsManifest m → HasNoMisfit f m (map length contents) → IsPlannedBy f m contents }
{}

/// Shows that the layout of a manifest that fits holds a tree, which is what the manifest means.
/// Its length depends only on the sizes of the sources.
pub fn layout_is_meant()
    ensures tree { (f : Format) (m : ManifestLines) (contents : List (List ℕ))
        → IsManifest m → HasNoMisfit f m (map length contents)
        → (t : Node) × HasUsualTree f (layout_of f m contents) t
        × IsMeant (layout_of f m contents) t contents m (map length contents) }
    ensures length { (f : Format) (m : ManifestLines) (contents : List (List ℕ))
        → IsManifest m → HasNoMisfit f m (map length contents)
        → length (layout_of f m contents) ≡ len_of f m (map length contents) }
{
    manifest_tree::laws::shape_is_meant();
    romfs_layout::laws::layout_has_tree();
    romfs_layout::laws::layout_length();
    cramfs_layout::laws::layout_has_tree();
    cramfs_layout::laws::layout_length();
    fitting_is_planned();
}

/// Shows that in this tree each file with the contents of a `file` line has its bytes in one run,
/// from a multiple of that line's ALIGN on, and that the volume has the manifest's name. In cramfs,
/// all files with the contents of one `file` line have their bytes at the same offsets. In romfs,
/// files of different lines have no offset in common.
pub fn layout_is_placed()
    ensures runs { (f : Format) (m : ManifestLines) (contents : List (List ℕ))
        → IsManifest m → HasNoMisfit f m (map length contents)
        → (t : Node) × HasUsualTree f (layout_of f m contents) t × IsPlaced t m }
    ensures copies { (f : Format) (m : ManifestLines) (contents : List (List ℕ))
        → IsManifest m → HasNoMisfit f m (map length contents)
        → (t : Node) × HasUsualTree f (layout_of f m contents) t × CopiesStand f t m }
    ensures named { (f : Format) (m : ManifestLines) (contents : List (List ℕ))
        → IsManifest m → HasNoMisfit f m (map length contents)
        → HasVolume f (layout_of f m contents) m.volume }
{
    romfs_layout::laws::layout_is_placed();
    cramfs_layout::laws::layout_is_placed();
    fitting_is_planned();
}

/// Shows that the superblock of a manifest's layout states the length and the checksum that the
/// layout has, and in cramfs also its flags and the numbers of its blocks and files.
pub fn layout_is_sealed()
    ensures { (f : Format) (m : ManifestLines) (contents : List (List ℕ)) → IsManifest m
        → HasNoMisfit f m (map length contents) → HasSeal f (layout_of f m contents) }
{
    romfs_layout::laws::layout_is_sealed();
    cramfs_layout::laws::layout_is_sealed();
    fitting_is_planned();
}

/// Shows that the sections of a manifest that fits are one after the other, none is empty, and the
/// last ends within the image.
pub fn sections_rise()
    ensures { (f : Format) (m : ManifestLines) (sizes : List ℕ) → IsManifest m
        → HasNoMisfit f m sizes
        → SectionsRise 0 (len_of f m sizes) (sections_of f m sizes) }
{}

/// Shows that between these sections is no room that the format and the ALIGN of the `file` lines
/// do not need.
pub fn sections_are_compact()
    ensures { (f : Format) (m : ManifestLines) (sizes : List ℕ) → IsManifest m
        → HasNoMisfit f m sizes
        → IsCompact f m sizes }
{}

/// Shows that the sections of a manifest that fits, each with its bytes at its offset, with zeros
/// between them and the format's check word, are its layout.
pub fn sections_make_layout()
    ensures { (f : Format) (m : ManifestLines) (contents : List (List ℕ))
        → IsManifest m → HasNoMisfit f m (map length contents)
        → layout_of f m contents ≡ composed_of f m contents }
{
    romfs_layout::laws::sections_make_layout();
    cramfs_layout::laws::sections_make_layout();
    fitting_is_planned();
}

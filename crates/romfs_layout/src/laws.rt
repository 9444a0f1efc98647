//! Laws on the layout of a romfs image.
ghost use Rattle.std.specs.Prelude.{◌≡◌, List, ℕ, ◌^◌, length, drop};
ghost use Rattle.rom_fields.specs.Padding.{pad};
ghost use Rattle.std.specs.List.{AllByRecursion as Every};
ghost use Rattle.manifest_tree.specs.Names.{Inode, Names};
ghost use Rattle.manifest_tree.specs.Shape.{HasShape};
ghost use Rattle.rom_tree.specs.Tree.{Node};
ghost use Rattle.romfs_format.specs.Record.{before_zero};
ghost use Rattle.romfs_format.specs.Tree.{RomfsTree};
ghost use Rattle.manifest_tree.specs.Alignments.{HaveAlignments};
ghost use Rattle.manifest_tree.specs.Items.{SectionsRise};
ghost use Rattle.manifest_tree.specs.Placement.{AreInRuns};
ghost use Rattle.romfs_layout.specs.Compact.{AreCompact};
ghost use Rattle.romfs_layout.specs.Composed.{romfs_part, composed};
ghost use Rattle.romfs_layout.specs.Disjoint.{FilesAreApart};
ghost use Rattle.romfs_layout.specs.Items.{items_of, sections_of};
ghost use Rattle.romfs_layout.specs.Layout.{layout, full_size_of, root_at};
ghost use Rattle.romfs_layout.specs.Marked.{AreMarked};
ghost use Rattle.romfs_layout.specs.Planned.{IsPlanned};
ghost use Rattle.romfs_layout.specs.Sealed.{IsSealed};

/// Shows that the layout of a planned volume is a romfs image, within the usual limits, and that
/// its tree has the shape of the volume's names.
pub fn layout_has_tree()
    ensures { (volume : List ℕ) (root : Inode) (n : Names) (contents : List (List ℕ))
        → IsPlanned volume root n contents
        → (t : Node) × RomfsTree (layout volume root n contents) (2 ^ 20) 64 t
        × HasShape (layout volume root n contents) t contents root n }
{}

/// Shows that each file of that tree has its bytes in one run of the image, from a multiple of its
/// alignment on. Files of different lines have no offset in common. The volume's name is at offset
/// 16, up to the first zero.
pub fn layout_is_placed()
    ensures runs { (volume : List ℕ) (root : Inode) (n : Names) (contents : List (List ℕ))
        → IsPlanned volume root n contents
        → (t : Node) × RomfsTree (layout volume root n contents) (2 ^ 20) 64 t
        × AreInRuns t root n }
    ensures apart { (volume : List ℕ) (root : Inode) (n : Names) (contents : List (List ℕ))
        → IsPlanned volume root n contents
        → (t : Node) × RomfsTree (layout volume root n contents) (2 ^ 20) 64 t
        × FilesAreApart t root n }
    ensures named { (volume : List ℕ) (root : Inode) (n : Names) (contents : List (List ℕ))
        → IsPlanned volume root n contents
        → before_zero (drop 16 (layout volume root n contents)) ≡ volume }
{}

/// Shows that the superblock of the layout states the number of its accessible bytes and has their
/// checksum, and that zeros are behind them, up to a multiple of 1,024 bytes.
pub fn layout_is_sealed()
    ensures { (volume : List ℕ) (root : Inode) (n : Names) (contents : List (List ℕ))
        → IsPlanned volume root n contents → IsSealed (layout volume root n contents) }
{}

/// Shows that in that tree the header of a file has the bit "executable" exactly if the file is a
/// directory or a regular file with the mode 0755.
pub fn layout_is_marked()
    ensures { (volume : List ℕ) (root : Inode) (n : Names) (contents : List (List ℕ))
        → IsPlanned volume root n contents
        → (t : Node) × RomfsTree (layout volume root n contents) (2 ^ 20) 64 t
        × AreMarked (layout volume root n contents) t root n }
{}

/// Shows that the layout's length depends only on the names and sizes.
pub fn layout_length()
    ensures { (volume : List ℕ) (root : Inode) (n : Names) (contents : List (List ℕ))
        → IsPlanned volume root n contents
        → length (layout volume root n contents) ≡ pad (full_size_of (root_at volume) n) 1024 }
{}

/// Shows that the sections of a planned volume are one after the other, none is empty, and the last
/// ends within the accessible bytes.
pub fn sections_rise()
    ensures { (volume : List ℕ) (root : Inode) (n : Names) (contents : List (List ℕ))
        → IsPlanned volume root n contents
        → SectionsRise 0 (full_size_of (root_at volume) n)
        (sections_of volume (items_of volume root n)) }
{}

/// Shows that between these sections is no room that alignment does not need. Each header begins
/// less than 16 bytes behind the section before it, or less than the alignment of its file's bytes;
/// these are at once behind the header. The image ends less than 1,024 bytes behind the last
/// section.
pub fn sections_are_compact()
    ensures { (volume : List ℕ) (root : Inode) (n : Names) (contents : List (List ℕ))
        (align : ℕ → ℕ)
        → IsPlanned volume root n contents → HaveAlignments align n
        → AreCompact align (items_of volume root n) 0 (pad (full_size_of (root_at volume) n) 1024)
        (sections_of volume (items_of volume root n)) }
{}

/// Shows that the sections of a planned volume, with their bytes at their offsets and zeros between
/// them, are its layout, and that each section is as long as its bytes.
pub fn sections_make_layout()
    ensures bytes { (volume : List ℕ) (root : Inode) (n : Names) (contents : List (List ℕ))
        → IsPlanned volume root n contents
        → layout volume root n contents
        ≡ composed volume (full_size_of (root_at volume) n) contents (items_of volume root n) }
    ensures length { (volume : List ℕ) (root : Inode) (n : Names) (contents : List (List ℕ))
        → IsPlanned volume root n contents
        → Every (λ s. length (romfs_part volume (full_size_of (root_at volume) n) contents
        (items_of volume root n) s).bytes ≡ s.len) (sections_of volume (items_of volume root n)) }
{}

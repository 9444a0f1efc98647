//! Laws on the layout of a cramfs image.
ghost use Rattle.std.specs.Prelude.{◌≡◌, ◌++◌, ◌-◌, List, ℕ, ◌^◌, length, take, drop, replicate};
ghost use Rattle.std.specs.List.{AllByRecursion as Every};
ghost use Rattle.cramfs_format.specs.declared.order.Order.{Order};
ghost use Rattle.cramfs_format.specs.Tree.{CramfsTree};
ghost use Rattle.cramfs_layout.specs.Compact.{AreCompact};
ghost use Rattle.cramfs_layout.specs.Composed.{cramfs_part, composed};
ghost use Rattle.cramfs_layout.specs.Items.{AreAlignedBy, items_of, sections_of};
ghost use Rattle.cramfs_layout.specs.Layout.{layout, size_of, superblock};
ghost use Rattle.cramfs_layout.specs.Planned.{IsPlanned};
ghost use Rattle.cramfs_layout.specs.Sealed.{IsSealed};
ghost use Rattle.cramfs_layout.specs.Sharing.{SourcesAreShared};
ghost use Rattle.manifest_tree.specs.Alignments.{HaveAlignments};
ghost use Rattle.manifest_tree.specs.Items.{SectionsRise};
ghost use Rattle.manifest_tree.specs.Placement.{AreInRuns};
ghost use Rattle.manifest_tree.specs.Names.{Inode, Names};
ghost use Rattle.manifest_tree.specs.Shape.{HasShape};
ghost use Rattle.rom_tree.specs.Tree.{Node};

/// Shows that the layout of a planned volume is a cramfs image in either byte order, within the
/// usual limits, and that its tree has the shape of the volume's names.
pub fn layout_has_tree()
    ensures { (o : Order) (volume : List ℕ) (root : Inode) (n : Names) (contents : List (List ℕ))
        → IsPlanned volume root n contents
        → (t : Node) × CramfsTree o (layout o volume root n contents) (2 ^ 20) 64 t
        × HasShape (layout o volume root n contents) t contents root n }
{}

/// Shows that each file of that tree has its bytes in one run of the image, from a multiple of its
/// alignment on, if files with the contents of one source have one alignment. Files with the
/// contents of one source have their bytes at the same offsets. The volume's name is at offset 48,
/// with zeros up to 16 bytes.
pub fn layout_is_placed()
    ensures runs { (o : Order) (volume : List ℕ) (root : Inode) (n : Names)
        (contents : List (List ℕ)) (align : ℕ → ℕ)
        → IsPlanned volume root n contents → AreAlignedBy align n
        → (t : Node) × CramfsTree o (layout o volume root n contents) (2 ^ 20) 64 t
        × AreInRuns t root n }
    ensures shared { (o : Order) (volume : List ℕ) (root : Inode) (n : Names)
        (contents : List (List ℕ))
        → IsPlanned volume root n contents
        → (t : Node) × CramfsTree o (layout o volume root n contents) (2 ^ 20) 64 t
        × SourcesAreShared t root n }
    ensures named { (o : Order) (volume : List ℕ) (root : Inode) (n : Names)
        (contents : List (List ℕ))
        → IsPlanned volume root n contents
        → take 16 (drop 48 (layout o volume root n contents))
        ≡ volume ++ replicate (16 - length volume) 0 }
{}

/// Shows that the superblock of the layout states its length, its crc, its flags, and the numbers
/// of its blocks and of the files of its tree.
pub fn layout_is_sealed()
    ensures { (o : Order) (volume : List ℕ) (root : Inode) (n : Names) (contents : List (List ℕ))
        → IsPlanned volume root n contents → IsSealed o (layout o volume root n contents) }
{
    cramfs_format::laws::one_tree();
}

/// Shows that the layout's length depends only on the names and sizes.
pub fn layout_length()
    ensures { (o : Order) (volume : List ℕ) (root : Inode) (n : Names) (contents : List (List ℕ))
        → IsPlanned volume root n contents
        → length (layout o volume root n contents) ≡ size_of n }
{}

/// Shows that the sections of a planned volume are one after the other, none is empty, and the last
/// ends within the image. Files with the contents of one source have to have one alignment.
pub fn sections_rise()
    ensures { (o : Order) (volume : List ℕ) (root : Inode) (n : Names) (contents : List (List ℕ))
        (align : ℕ → ℕ)
        → IsPlanned volume root n contents → AreAlignedBy align n
        → SectionsRise 0 (size_of n) (sections_of (items_of o root n)) }
{}

/// Shows that between the sections of a planned volume is no room that alignment does not need.
/// Contents begin less than the alignment of their source behind the section before them, and all
/// else less than 4 bytes. The image ends less than 4,096 bytes behind the last section.
pub fn sections_are_compact()
    ensures { (o : Order) (volume : List ℕ) (root : Inode) (n : Names) (contents : List (List ℕ))
        (align : ℕ → ℕ)
        → IsPlanned volume root n contents → HaveAlignments align n
        → AreCompact align 0 (size_of n) (sections_of (items_of o root n)) }
{}

/// Shows that the sections of such a volume, with their bytes at their offsets, zeros between them
/// and the crc of the whole, are its layout, and that each section is as long as its bytes.
pub fn sections_make_layout()
    ensures bytes { (o : Order) (volume : List ℕ) (root : Inode) (n : Names)
        (contents : List (List ℕ)) (align : ℕ → ℕ)
        → IsPlanned volume root n contents → AreAlignedBy align n
        → layout o volume root n contents
        ≡ composed o (superblock o volume root n) (size_of n) contents (items_of o root n) }
    ensures length { (o : Order) (volume : List ℕ) (root : Inode) (n : Names)
        (contents : List (List ℕ)) (align : ℕ → ℕ)
        → IsPlanned volume root n contents → AreAlignedBy align n
        → Every (λ s. length (cramfs_part o (superblock o volume root n) contents
        (items_of o root n) s).bytes ≡ s.len)
        (sections_of (items_of o root n)) }
{}

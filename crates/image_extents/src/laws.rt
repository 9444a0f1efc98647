//! Laws of the lines of extents, as functions without code.
ghost use Rattle.std.specs.Prelude.{ℕ, List, None, length, max};
ghost use Rattle.std.specs.List.{All, Contains};
ghost use Rattle.cramfs_format.specs.Superblock.{accessible as cramfs_accessible};
ghost use Rattle.cramfs_format.specs.Tree.{tree_of as cramfs_tree_of};
ghost use Rattle.cramfs_format.specs.declared.order.Order.{Order};
ghost use Rattle.image_extents.specs.Complete.{Finds, HasAllBytes, HasAllBytesOfNodes, HasLine};
ghost use Rattle.image_extents.specs.Complete.{IsPlain};
ghost use Rattle.image_extents.specs.Lines.{extents_text, line_of, owners};
ghost use Rattle.image_extents.specs.Found.{table_in};
ghost use Rattle.image_extents.specs.Owned.{AreOfFiles, HasOwners};
ghost use Rattle.image_extents.specs.Parts.{IsCramfsPart, IsRomfsPart};
ghost use Rattle.image_extents.specs.Ranges.{ShareOut};
ghost use Rattle.image_extents.specs.Sorted.{AreCramfs, AreRomfs};
ghost use Rattle.image_extents.specs.declared.extent.Extent.{Extent};
ghost use Rattle.image_extents.specs.declared.extent.Extents.{Extents};
ghost use Rattle.image_info.specs.Held.{HoldsCramfs, HoldsRomfs};
ghost use Rattle.romfs_format.specs.Superblock.{accessible as romfs_accessible};
ghost use Rattle.romfs_format.specs.Tree.{tree_of as romfs_tree_of};

/// States that the lines of the extents of a checked image share out the bytes of its file: the
/// first line begins at the first byte, each other one begins where the one before it ends or has
/// the same bytes, and the last one ends at the end of the file.
pub fn lines_share_out()
    ensures romfs { (all : List ℕ) (r : ℕ) (e : Extents) (base file : ℕ) → HoldsRomfs all r
        → AreRomfs (romfs_accessible all) r e
        → ShareOut base (max (length (romfs_accessible all)) file) (extents_text base file e) }
    ensures cramfs { (o : Order) (all : List ℕ) (e : Extents) (base file : ℕ) → HoldsCramfs o all
        → AreCramfs o (cramfs_accessible o all) e
        → ShareOut base (max (length (cramfs_accessible o all)) file) (extents_text base file e) }
{}

/// States which bytes of which file data are, in a checked image. The path of an extent of data is
/// the path of a name of the image's tree. The bytes of the extent are those of this name's file or
/// link, from the extent's `offset` on.
pub fn data_are_of_files()
    ensures romfs { (all : List ℕ) (r : ℕ) (e : Extents) (h : HoldsRomfs all r)
        → AreRomfs (romfs_accessible all) r e
        → AreOfFiles (romfs_tree_of (romfs_accessible all) r h.forest) e }
    ensures cramfs { (o : Order) (all : List ℕ) (e : Extents) (h : HoldsCramfs o all)
        → AreCramfs o (cramfs_accessible o all) e
        → AreOfFiles (cramfs_tree_of o (cramfs_accessible o all) h.forest) e }
{}

/// States what an extent is, by its kind: the superblock belongs to the root; a header, a list and
/// block pointers are those of the extent's record, at the offset and with the length that the
/// format gives them, and data belong to a record that has contents.
pub fn extents_are_parts()
    ensures romfs { (b : List ℕ) (r : ℕ) (e : Extents) → AreRomfs b r e
        → All (λ (x : Extent). IsRomfsPart b r e x x.kind) e.extents.items }
    ensures cramfs { (o : Order) (b : List ℕ) (e : Extents) → AreCramfs o b e
        → All (λ (x : Extent). IsCramfsPart o b e x x.kind) e.extents.items }
{}

/// States which records have the bytes of an extent in a checked cramfs image: if the extent's
/// record has block pointers, exactly the records that have these.
pub fn owners_share()
    ensures { (o : Order) (all : List ℕ) (e : Extents) → HoldsCramfs o all
        → AreCramfs o (cramfs_accessible o all) e
        → All (HasOwners (table_in o (cramfs_accessible o all)) e) e.extents.items }
{}

/// States that no byte of a file is left out, in a checked image: each byte of each file and each
/// link of the image's tree is in an extent of data, as this byte of the contents, and a record
/// that has the bytes of the extent has the path of the file. In cramfs this holds for each path of
/// the file; in romfs for one of them, since hard links are records without bytes.
pub fn extents_are_complete()
    ensures romfs { (all : List ℕ) (r : ℕ) (e : Extents) (h : HoldsRomfs all r)
        → AreRomfs (romfs_accessible all) r e
        → HasAllBytesOfNodes (romfs_tree_of (romfs_accessible all) r h.forest) e }
    ensures cramfs { (o : Order) (all : List ℕ) (e : Extents) (h : HoldsCramfs o all)
        → AreCramfs o (cramfs_accessible o all) e
        → HasAllBytes (cramfs_tree_of o (cramfs_accessible o all) h.forest) e }
{}

/// States that `map --all` leaves out no extent: its lines have one for each extent, with each
/// record that has the bytes of the extent.
pub fn map_has_all()
    ensures { (base file : ℕ) (e : Extents) (x : Extent) (i : ℕ) → Contains e.extents.items x
        → Contains (owners e x) i
        → HasLine (extents_text base file e) (line_of base e None x i) }
{}

/// States what `which` writes of the byte of an address that an extent has, in a checked image: the
/// lines of all extents that have the byte, in their order.
pub fn which_has_all()
    ensures romfs { (all : List ℕ) (r : ℕ) (e : Extents) (base file : ℕ) → HoldsRomfs all r
        → AreRomfs (romfs_accessible all) r e → IsPlain base file e }
    ensures cramfs { (o : Order) (all : List ℕ) (e : Extents) (base file : ℕ) → HoldsCramfs o all
        → AreCramfs o (cramfs_accessible o all) e → IsPlain base file e }
{}

/// States the same line by line: there is a line for each extent that has the byte, with each
/// record that has the bytes of this extent, and no other line.
pub fn which_finds()
    ensures romfs { (all : List ℕ) (r : ℕ) (e : Extents) (base file : ℕ) → HoldsRomfs all r
        → AreRomfs (romfs_accessible all) r e → Finds base file e }
    ensures cramfs { (o : Order) (all : List ℕ) (e : Extents) (base file : ℕ) → HoldsCramfs o all
        → AreCramfs o (cramfs_accessible o all) e → Finds base file e }
{}

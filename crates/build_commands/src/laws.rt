//! Laws about what is printed and foreseen.
ghost use Rattle.std.specs.List.{Contains};
ghost use Rattle.std.specs.List.Sorted.{IsPermutation};
ghost use Rattle.std.specs.Prelude.{ℕ, ◌≡◌, ◌≢◌, ◌+◌, ◌*◌, ◌/◌, Bool, IsSomeAnd, List, Ok, Option};
ghost use Rattle.std.specs.Prelude.{Some, [], false, length, true};
ghost use Rattle.build_commands.specs.Contents.{HasItsContents, HaveOneKind};
ghost use Rattle.build_commands.specs.Foreseen.{AreCramfsMisreadAlike, AreMisreadAlike, IsFileOf};
ghost use Rattle.build_commands.specs.Foreseen.{IsKeptAs};
ghost use Rattle.build_commands.specs.Inventory.{has_hard_links, lines_found, path_of};
ghost use Rattle.build_commands.specs.Nearest.{HasSmallNumbers, nearest_in};
ghost use Rattle.build_commands.specs.Planned.{cramfs_path, last_of, romfs_path};
ghost use Rattle.build_commands.specs.Reported.{AreOfOne, AreReportedAlike, kind_named};
ghost use Rattle.build_commands.specs.Reported.{fitted_report, node_report, report_of};
ghost use Rattle.build_commands.specs.Scanned.{AreTaken, Entry, lines_as, scan_text};
ghost use Rattle.build_commands.specs.Scans.{IsScannable, all_shown};
ghost use Rattle.build_commands.specs.declared.inventory.NamedFile.{NamedFile};
ghost use Rattle.cramfs_format.specs.Inode.{name_room};
ghost use Rattle.cramfs_image.specs.Reported.{order_in};
ghost use Rattle.cramfs_image.specs.declared.image.Cramfs.{Cramfs};
ghost use Rattle.directory_walk.specs.Trees.{AreInOrder, Name, Tree, all_below};
ghost use Rattle.formats.specs.Format.{format_of};
ghost use Rattle.formats.specs.declared.format.Format as code;
ghost use Rattle.linux_misreads.specs.Misreads.{in_cramfs, in_romfs};
ghost use Rattle.linux_misreads.specs.Tables.{kept_in, known_of, romfs_view, view};
ghost use Rattle.linux_misreads.specs.declared.seen.Known.{Known};
ghost use Rattle.manifest.specs.Grammar.{manifest_of};
ghost use Rattle.manifest.specs.Lines.{ManifestLines, is_hard, sources_of};
ghost use Rattle.manifest.specs.Paths.{names_of};
ghost use Rattle.manifest.specs.Printed.{IsVolume, as_read, first_number, manifest_text};
ghost use Rattle.manifest.specs.Printed as printed;
ghost use Rattle.manifest.specs.declared.line.Line.{Line};
ghost use Rattle.manifest_layout.specs.Misfit.{HasBadAttribute};
ghost use Rattle.manifest_tree.specs.Meant.{IsMeant};
ghost use Rattle.manifest_tree.specs.Names.{Inode};
ghost use Rattle.manifest_tree.specs.Shape.{node_under};
ghost use Rattle.manifest_tree.specs.Tree.{inode_of};
ghost use Rattle.rom_tree.specs.Image.{contents_of};
ghost use Rattle.rom_tree.specs.Names.{Name as NodeName};
ghost use Rattle.rom_tree.specs.Tree.{IsIn, Node, ino_of, nodes};
ghost use Rattle.rom_tree.specs.declared.types.Kind.TheVariants as kind;
ghost use Rattle.romfs_image.specs.declared.image.Romfs.{Romfs};

/// States that a scan prints a manifest that has exactly one line for each entry, if the grammar
/// accepts each entry after those before it. States the same for a directory as it is: its manifest
/// has exactly the lines of the files that were found, and the volume's name.
pub fn scans_are_manifests()
    ensures plain { (es : List Entry) → AreTaken [] 1 es → manifest_of (scan_text es)
        ≡ Ok (record { lines = lines_as 1 es; volume = []; volume_line = 0 }) }
    ensures all { (format : Option code.Format) (found : List NamedFile) (volume : List ℕ)
        → IsVolume volume
        → printed.AreTaken [] (first_number volume) (lines_found format found)
        → manifest_of (manifest_text volume (lines_found format found))
        ≡ Ok (as_read volume (lines_found format found)) }
{
    manifest::laws::reads_back();
}

/// States that a line with the nearest attributes that a format can hold has no misfit of
/// attributes, whatever the other lines are, if the format can hold the numbers of its device.
pub fn nearest_fits()
    ensures { (f : code.Format) (lines : List Line) (sizes : List ℕ) (l : Line)
        → is_hard l.word ≡ false → HasSmallNumbers f l
        → HasBadAttribute (format_of f) (inode_of lines sizes (nearest_in f l)) → ⊥ }
{}

/// States what the tree has that the manifest of a directory as it is means, whatever format was
/// chosen, if the grammar accepts each line, and if the system reports the same of a file by each
/// of its names: each path that was found has a node with the nearest that the format can hold of
/// what was reported of it, or exactly that, if no format was chosen. Unless the format is cramfs,
/// two names of one file that is no directory have one node.
pub fn found_files_are_meant()
    ensures reported { (format : Option code.Format) (found : List NamedFile)
        (volume image : List ℕ) (t : Node) (contents : List (List ℕ)) (sizes : List ℕ)
        → printed.AreTaken [] (first_number volume) (lines_found format found)
        → IsMeant image t contents (as_read volume (lines_found format found)) sizes
        → AreReportedAlike found
        → (f : NamedFile) (q : List (List ℕ)) → Contains found f → names_of (path_of f) ≡ Some q
        → IsSomeAnd (node_under q t)
        (λ x. node_report image x ≡ fitted_report format (report_of f)) }
    ensures shared { (format : Option code.Format) (found : List NamedFile)
        (volume image : List ℕ) (t : Node) (contents : List (List ℕ)) (sizes : List ℕ)
        → has_hard_links format ≡ true
        → printed.AreTaken [] (first_number volume) (lines_found format found)
        → IsMeant image t contents (as_read volume (lines_found format found)) sizes
        → (f g : NamedFile) (p q : List (List ℕ)) (x y : Node)
        → Contains found f → Contains found g → AreOfOne f g
        → kind_named f.kind ≢ kind.Directory → kind_named g.kind ≢ kind.Directory
        → names_of (path_of f) ≡ Some p → names_of (path_of g) ≡ Some q
        → node_under p t ≡ Some x → node_under q t ≡ Some y → ino_of x ≡ ino_of y }
{}

/// States which contents the regular files of a scanned manifest have, whatever format was chosen,
/// if the grammar accepts each line, and if the system reports one kind of a file by each of its
/// names: the path of each regular file that was found has a node that is a regular file, with the
/// contents of a source whose name is the place by which this file, or another name of the same
/// file, was found; and two names of one regular file have the same contents.
pub fn found_files_have_their_contents()
    ensures sourced { (format : Option code.Format) (found : List NamedFile)
        (volume image : List ℕ) (t : Node) (contents : List (List ℕ)) (sizes : List ℕ)
        → printed.AreTaken [] (first_number volume) (lines_found format found)
        → IsMeant image t contents (as_read volume (lines_found format found)) sizes
        → HaveOneKind found
        → (f : NamedFile) (q : List (List ℕ)) → Contains found f
        → kind_named f.kind ≡ kind.Regular → names_of (path_of f) ≡ Some q
        → IsSomeAnd (node_under q t) (λ x. HasItsContents image found
        (sources_of (as_read volume (lines_found format found)).lines) contents f x) }
    ensures shared { (format : Option code.Format) (found : List NamedFile)
        (volume image : List ℕ) (t : Node) (contents : List (List ℕ)) (sizes : List ℕ)
        → printed.AreTaken [] (first_number volume) (lines_found format found)
        → IsMeant image t contents (as_read volume (lines_found format found)) sizes
        → HaveOneKind found
        → (f g : NamedFile) (p q : List (List ℕ)) (x y : Node)
        → Contains found f → Contains found g → AreOfOne f g
        → kind_named f.kind ≡ kind.Regular
        → names_of (path_of f) ≡ Some p → names_of (path_of g) ≡ Some q
        → node_under p t ≡ Some x → node_under q t ≡ Some y
        → contents_of image x ≡ contents_of image y }
{}

/// States both of the text that is printed of a directory as it is, whatever format was chosen, if
/// the grammar accepts each line, and if the system reports the same of a file by each of its
/// names. In each tree that this text means as a manifest, each path that was found has a node with
/// the nearest that the format can hold of what was reported of it; if it is a regular file, it has
/// the contents of a source whose name is the place by which it, or another name of the same file,
/// was found.
pub fn packed_files_are_found()
    ensures { (format : Option code.Format) (found : List NamedFile)
        (volume image : List ℕ) (t : Node) (contents : List (List ℕ)) (m : ManifestLines)
        (sizes : List ℕ) → IsVolume volume
        → printed.AreTaken [] (first_number volume) (lines_found format found)
        → manifest_of (manifest_text volume (lines_found format found)) ≡ Ok m
        → IsMeant image t contents m sizes
        → AreReportedAlike found
        → (f : NamedFile) (q : List (List ℕ)) → Contains found f → names_of (path_of f) ≡ Some q
        → IsSomeAnd (node_under q t) (λ x.
        (node_report image x ≡ fitted_report format (report_of f))
        × (kind_named f.kind ≡ kind.Regular
        → HasItsContents image found (sources_of m.lines) contents f x)) }
{
    scans_are_manifests();
}

/// States that a scan prints the manifest of a tree. Take the entries of a directory as a walk
/// finds them: all that are below it, each once, in the order of the bytes of their paths. Their
/// lines are a manifest with exactly one line for each entry.
pub fn scan_is_the_tree()
    ensures { (path : List ℕ) (t : Tree Bool) (ns : List (Name Bool)) → IsScannable path t
        → IsPermutation (all_below path t) ns → AreInOrder ns
        → manifest_of (scan_text (all_shown (length path) ns))
        ≡ Ok (record {
          lines = lines_as 1 (all_shown (length path) ns);
          volume = [];
          volume_line = 0;
        }) }
{
    scans_are_manifests();
}

/// States that Linux misreads a name, a device or the text of a link of a romfs image exactly if it
/// is foreseen of the path in the manifest, if the path leads to a node with the attributes, the
/// contents and the size of the file of a line, as in each image of the manifest.
pub fn romfs_names_are_foreseen()
    ensures { (s : Romfs) (contents : List (List ℕ)) (lines : List Line) (sizes : List ℕ)
        (path own : List ℕ) (o : Line) (x : Node) → IsIn x (nodes (romfs_view s).tree)
        → IsFileOf (romfs_view s).bytes contents x (inode_of lines sizes o)
        → AreMisreadAlike (in_romfs s (last_of path) x)
        (romfs_path path own (inode_of lines sizes o)) }
{
    linux_misreads::laws::romfs_device_numbers();
}

/// States that Linux misreads the last block of a file, a device, the text of a link or the mode of
/// the root of a cramfs image exactly if it is foreseen of the path in the manifest, if the path
/// leads to a node with the attributes, the contents and the size of the file of a line. States the
/// same of a name, if its record has exactly the room that the name needs, and of a shared table,
/// if Linux keeps the facts that are foreseen, or only the file's own if none are.
pub fn cramfs_names_are_foreseen()
    ensures file { (s : Cramfs) (ns : List NodeName) (contents : List (List ℕ))
        (lines : List Line) (sizes path : List ℕ) (kept : Option Known) (o : Line) (x : Node)
        → IsIn x (nodes (view s).tree)
        → IsFileOf (view s).bytes contents x (inode_of lines sizes o)
        → AreCramfsMisreadAlike (in_cramfs s ns (last_of path) x)
        (cramfs_path path (inode_of lines sizes o) kept) }
    ensures name { (s : Cramfs) (ns : List NodeName) (path : List ℕ) (i : Inode)
        (kept : Option Known) (x : Node)
        → name_room (order_in s) (view s).bytes (ino_of x) ≡ (length (last_of path) + 3) / 4 * 4
        → (in_cramfs s ns (last_of path) x).name_padded ≡ (cramfs_path path i kept).name_padded }
    ensures table { (s : Cramfs) (ns : List NodeName) (contents : List (List ℕ)) (path : List ℕ)
        (i : Inode) (kept : Option Known) (x : Node) → IsFileOf (view s).bytes contents x i
        → IsKeptAs (known_of x) (kept_in s ns x) kept
        → (in_cramfs s ns (last_of path) x).shared_table
        ≡ (cramfs_path path i kept).shared_table }
{
    linux_misreads::laws::cramfs_device_numbers();
}

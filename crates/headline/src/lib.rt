//! What romtool promises, on one page.
//!
//! `specs/Headline.antt` defines its words, `specs/Lent.antt` what is lent, and `specs/Alike.antt`
//! when two trees are alike. docs/internals/PROVED.md explains each clause of `headline`.
//!
//! Proved:
//!
//! - `headline`, `streamed`: **if the check accepts an image, `serve` answers any lines as the one
//!   tree does that the format gives those bytes; if not, it prints the least fault and reads no
//!   line; and an image that was built from a manifest is accepted, and is served as the tree that
//!   the manifest means.** The clauses on built images also hold of streamed ones. What the
//!   superblock of such an image states is true of it. If such a cramfs image is in flash, Linux
//!   maps each page of a file whose ALIGN is a multiple of 4,096 at the address of its bytes,
//!   except a last page with other data.
//! - `streamed`: a streamed image is refused only for memory, and served as the tree that the
//!   manifest means, even for sources that report nothing. Each `file` and each `same` line has
//!   contents of its own, of the planned size: what the reads of its source returned. If no source
//!   is used twice, they are the contents of the sources.
//! - `laws::accepted_is_lawful`, `laws::accepted_is_taken`, `laws::accepted_is_described`,
//!   `laws::extracted_is_described`: **the manifest of an accepted image, of either format, is
//!   valid, has exactly the lines of its names, and means the image's tree**, if no link's text has
//!   a zero byte, no path has more than 4,095 bytes, and the volume name has at most 255. If one of
//!   the first two fails, the grammar refuses the lines.
//! - `laws::built_again_is_alike`, `built_again`: take the contents of the image's files as the
//!   sources of a manifest that describes all of it. Any tree that the manifest means, and that of
//!   an image which is built of them in any format, is like the first: the same at each path, and
//!   the same paths share a file. The built image has no fault.
//! - `naming::built_is_named`, `naming::streamed_is_named`: the volume name that
//!   `image_info::volume` returns for a built or streamed image is the manifest's.
//! - `lent`: whatever lines came before, a reply `ok` to `lend` or `map` has a slice of the image's
//!   own bytes, from the reported PLACE on: the bytes of the open file from its position, or from
//!   the requested offset on. So has the text of a link. A file in one run is lent whole by one
//!   `map`.
//! - `durable::replaced_by_an_image`: if an image replaces a file (`image_build::put`), in a
//!   directory whose files report their bytes, the file's name leads at each moment, and after a
//!   crash, to what it led to before, or to a whole image of the manifest's plan, without a fault.
//! - `in_place::built_is_in_place`: if a built cramfs image is in flash that begins with a page,
//!   Linux maps each page of a file whose ALIGN is a multiple of 4,096 at the address of the flash
//!   plus the page's place in the image. This is so for mappings that cannot be written, and not
//!   for the file's last page if something else is in it.
//! - `in_place::built_is_mapped_whole`: without an MMU, Linux maps all pages of each file of a
//!   built cramfs image.
//! - `in_place::romfs_is_mapped`: the same of each file of any romfs image.
//! - `in_place::streamed_is_in_place`: the first two of a streamed cramfs image.
//! - `in_place::built_is_found`: with an MMU, what `xip` finds of a file of a built image is what
//!   the contents of its source say at the place that the plan gives them, except whether its last
//!   page is in place.
//! - `in_place::planned_is_not_refused`: if by the plan no program is out of place, `xip` with an
//!   MMU finds none that is, at any path of the built image, and counts none.
//! - `in_place::streamed_is_found`: the same two of a streamed image; with copies in romfs, each
//!   file is found as the bytes that the reads of its source returned say.
#![tactic(auto)]

pub mod durable;
pub mod in_place;
pub mod laws;
pub mod naming;

ghost use Rattle.std.specs.Prelude.{◌≡◌, ◌⊎◌, ◌*◌, ◌^◌, ◌<◌, ◌≤◌, ℕ, List, Option, Some, Ok, false};
ghost use Rattle.std.specs.Prelude.{length, map};
ghost use Rattle.headline.specs.Headline.{IsServedUnder, IsMeantUnder, IsServedAsMeant};
ghost use Rattle.headline.specs.Headline.{IsServedAsGiven, IsUnserved};
ghost use Rattle.headline.specs.Lent.{AreOpenedWhole, IsMappedWhole, IsPieceOf, open_after};
ghost use Rattle.image_build.specs.Builds.{Builds};
ghost use Rattle.image_build.specs.Streamed.{HasNoCopies, IsPlanOfText, form_in, image_with};
ghost use Rattle.image_build.specs.Streamed.{stored_in};
ghost use Rattle.image_check.specs.Checked.{HasTree, IsFaultless};
ghost use Rattle.image_manifest.specs.Lines.{member_lines};
ghost use Rattle.image_manifest.specs.Sources.{file_contents};
ghost use Rattle.image_manifest.specs.Describable.{IsDescribedWhole};
ghost use Rattle.image_manifest.specs.declared.rules.FileRules.{FileRules};
ghost use Rattle.headline.specs.Alike.{AreAlike};
ghost use Rattle.image_stream.specs.Outcomes.{IsWritten};
ghost use Rattle.manifest.specs.Printed.{manifest_text};
ghost use Rattle.manifest_tree.specs.Placement.{IsRun};
ghost use Rattle.manifest.specs.Grammar.{manifest_of};
ghost use Rattle.manifest.specs.Lines.{ManifestLines};
ghost use Rattle.headline.specs.Files.{AreInPlace, AreMappedWhole, HoldsImage};
ghost use Rattle.headline.specs.Romfs.{AreMappedInRomfs, FillsPages};
ghost use Rattle.cramfs_format.specs.declared.order.Order.{Order};
ghost use Rattle.program_pages.specs.Physmem.{Flash};
ghost use Rattle.formats.specs.Format.{Format, cramfs};
ghost use Rattle.manifest_layout.specs.Placement.{CopiesStand, HasVolume, IsPlaced};
ghost use Rattle.manifest_layout.specs.Sealed.{HasSeal};
ghost use Rattle.open_files.specs.Calls.{Of, Lent};
ghost use Rattle.open_files.specs.Machine.{Open, image_calls, open_at};
ghost use Rattle.path_walk.specs.Resolution.{resolution, tree_namespace};
ghost use Rattle.manifest_layout.specs.Plans.{Planned};
ghost use Rattle.rom_commands.specs.Answers.{IsFaultTextUnder, usual_limits};
ghost use Rattle.rom_commands.specs.Serving.{Input, EndsRefused, ServingEnds, ServingEndsUnder};
ghost use Rattle.rom_commands.specs.declared.serving.Serving.{Serving};
ghost use Rattle.rom_fields.specs.Written.{Output};
ghost use Rattle.rom_tree.specs.Image.{Image};
ghost use Rattle.rom_tree.specs.Tree.{Node, places_of};
ghost use Rattle.rom_tree.specs.declared.types.Limits.{Limits};
ghost use Rattle.romfs_format.specs.Tree.{RomfsTree};

/// States what follows from the clause of `rom_commands::serve_under`, for all bytes and all
/// limits. Either lines are answered from the one tree that the format gives the bytes, or the
/// bytes are refused with their least fault, and no line is read. `serve_image` is the same under
/// the usual limits.
///
/// Under the usual limits, an image that was built from a manifest is refused only if memory is
/// refused. Otherwise it is served as the tree that the manifest means. Under other limits it is
/// served as that tree if it is served at all. This holds in each format. What the superblock of
/// the image states is true of it: its length and its checksum, and in cramfs its flags and the
/// numbers of its blocks and files.
///
/// In that image, each file with the contents of a `file` line has its bytes in one run, which
/// begins at a multiple of that line's ALIGN. The volume has the manifest's name. In cramfs, all
/// files with the contents of one `file` line have their bytes at the same offsets. In romfs, the
/// files of different lines have no offset in common. So `open` of the line's path and then one
/// `map` of the whole file return all its bytes. Their first offset is a multiple of that ALIGN.
///
/// If the image is cramfs, and is at the front of flash that has an address and begins with a page,
/// Linux maps the pages of each file whose ALIGN is a multiple of 4,096 to the flash itself: each
/// page at the flash's address plus the page's offset, in each mapping that cannot be written,
/// except a last page with other data behind the file. Without an MMU, Linux maps each such mapping
/// of any file whole, and each mapping of a file of any romfs image at the front of flash of whole
/// pages, if the name in the file's record has at most 128 bytes.
pub fn headline()
    ensures accepted { (limits : Limits) (bytes : List ℕ) (r₀ r : Input) (w₀ w : Output)
        (o : Serving) → ServingEndsUnder limits bytes r₀ r w₀ w o
        → ((t : Node) × IsServedUnder limits bytes t r₀ r w₀ w o)
        ⊎ EndsRefused (IsFaultTextUnder limits bytes) r₀ r w₀ w o }
    ensures one { (bytes : List ℕ) (limits others : Limits) (t u : Node)
        → HasTree bytes limits t → HasTree bytes others u → t ≡ u }
    ensures built { (f : Format) (text : List ℕ) (contents : List (List ℕ)) (bytes : List ℕ)
        (r₀ r : Input) (w₀ w : Output) (o : Serving) → Builds f text contents (Ok bytes)
        → ServingEnds bytes r₀ r w₀ w o
        → IsServedAsMeant text contents bytes r₀ r w₀ w o ⊎ IsUnserved r₀ r w₀ w o }
    ensures built_under { (limits : Limits) (f : Format) (text : List ℕ)
        (contents : List (List ℕ)) (bytes : List ℕ) (r₀ r : Input) (w₀ w : Output) (o : Serving)
        → Builds f text contents (Ok bytes) → ServingEndsUnder limits bytes r₀ r w₀ w o
        → IsMeantUnder limits text contents bytes r₀ r w₀ w o
        ⊎ EndsRefused (IsFaultTextUnder limits bytes) r₀ r w₀ w o }
    ensures placed { (f : Format) (text : List ℕ) (contents : List (List ℕ)) (bytes : List ℕ)
        (m : ManifestLines) → Builds f text contents (Ok bytes) → manifest_of text ≡ Ok m
        → HasVolume f bytes m.volume
        × ((t : Node) → HasTree bytes usual_limits t → IsPlaced t m × CopiesStand f t m) }
    ensures mapped { (f : Format) (text : List ℕ) (contents : List (List ℕ)) (bytes : List ℕ)
        (m : ManifestLines) (image : Image) → Builds f text contents (Ok bytes)
        → manifest_of text ≡ Ok m → HasTree bytes usual_limits image.tree
        → AreOpenedWhole image m }
    ensures in_place { (o : Order) (text : List ℕ) (contents : List (List ℕ)) (bytes : List ℕ)
        (m : ManifestLines) (t : Node) (f : Flash) → Builds (cramfs o) text contents (Ok bytes)
        → manifest_of text ≡ Ok m → HasTree bytes usual_limits t → HoldsImage f bytes
        → AreInPlace o f t m × AreMappedWhole o f t m }
    ensures in_romfs { (bytes : List ℕ) (most deepest : ℕ) (t : Node) (f : Flash)
        → RomfsTree bytes most deepest t → length bytes < 2 ^ 32 → FillsPages f bytes
        → AreMappedInRomfs f t }
    ensures sealed { (f : Format) (text : List ℕ) (contents : List (List ℕ)) (bytes : List ℕ)
        → Builds f text contents (Ok bytes) → HasSeal f bytes }
{
    in_place::built_is_in_place();
    in_place::built_is_mapped_whole();
    in_place::romfs_is_mapped();
    image_build::laws::built_is_accepted();
    image_build::laws::built_is_placed();
    image_check::laws::one_tree();
    image_check::laws::exact();
}

/// States what follows for an image that is taken apart and built again, in any format. Take a
/// manifest that describes the whole image, and the contents of its files. The image that is built
/// from them has no fault. Its tree is like the first image's: it is the same at each path, and the
/// same paths share a file. `crate::laws::extracted_is_described` says which accepted images a
/// manifest describes whole.
pub fn built_again()
    ensures { (m : Image) (volume : List ℕ) (rules : FileRules) (f : Format) (bytes : List ℕ)
        → IsDescribedWhole m volume rules
        → Builds f (manifest_text volume (member_lines m rules)) (file_contents m) (Ok bytes)
        → IsFaultless bytes usual_limits
        × ((t : Node) → HasTree bytes usual_limits t → AreAlike m.bytes m.tree bytes t) }
{
    image_build::laws::built_is_accepted();
    crate::laws::built_again_is_alike();
}

/// States what follows for an image that was streamed, whatever the sources report; a file reports
/// nothing of its contents. An image that `image_build::stream` wrote with `Ok` is refused only if
/// memory is refused. Otherwise it is served as the tree that the manifest means. In it, each
/// `file` and each `same` line has its own contents, of the planned size: the bytes that the reads
/// of its source returned, one after the other, in the pass that wrote the image. If no source has
/// a copy in the image, it is served as the tree that the manifest means with some contents of the
/// sources. Its files, their copies and its volume's name are as in an image that was built, and so
/// is what Linux maps of a cramfs image. What its superblock states is true of it, too. If the
/// sources are files that are opened by their names, `file_sources::laws::streamed_is_told` says of
/// which file each read was.
pub fn streamed()
    ensures each { (text : List ℕ) (p : Planned) (known : Option (List (List ℕ)))
        (old new : Option (List ℕ)) (r₀ r : Input) (w₀ w : Output) (o : Serving)
        → (is : IsPlanOfText text p)
        → (s : IsWritten known (form_in p.format p) (stored_in p.format) old new)
        → ServingEnds (image_with p s.rest) r₀ r w₀ w o
        → IsServedAsGiven s.answers is.lines p.sizes (image_with p s.rest) r₀ r w₀ w o
        ⊎ IsUnserved r₀ r w₀ w o }
    ensures built { (text : List ℕ) (p : Planned) (known : Option (List (List ℕ)))
        (old new : Option (List ℕ)) (r₀ r : Input) (w₀ w : Output) (o : Serving)
        → (is : IsPlanOfText text p) → HasNoCopies p.format is.lines
        → (s : IsWritten known (form_in p.format p) (stored_in p.format) old new)
        → ServingEnds (image_with p s.rest) r₀ r w₀ w o
        → ((contents : List (List ℕ)) × (map length contents ≡ p.sizes)
        × IsServedAsMeant text contents (image_with p s.rest) r₀ r w₀ w o)
        ⊎ IsUnserved r₀ r w₀ w o }
    ensures placed { (text : List ℕ) (p : Planned) (known : Option (List (List ℕ)))
        (old new : Option (List ℕ)) → (is : IsPlanOfText text p)
        → (s : IsWritten known (form_in p.format p) (stored_in p.format) old new)
        → HasVolume p.format (image_with p s.rest) is.lines.volume
        × ((t : Node) → HasTree (image_with p s.rest) usual_limits t
        → IsPlaced t is.lines × CopiesStand p.format t is.lines) }
    ensures mapped { (text : List ℕ) (p : Planned) (known : Option (List (List ℕ)))
        (old new : Option (List ℕ)) (image : Image) → (is : IsPlanOfText text p)
        → (s : IsWritten known (form_in p.format p) (stored_in p.format) old new)
        → HasTree (image_with p s.rest) usual_limits image.tree → AreOpenedWhole image is.lines }
    ensures in_place { (o : Order) (text : List ℕ) (p : Planned) (known : Option (List (List ℕ)))
        (old new : Option (List ℕ)) (t : Node) (f : Flash) → (is : IsPlanOfText text p)
        → p.format ≡ cramfs o
        → (s : IsWritten known (form_in p.format p) (stored_in p.format) old new)
        → HasTree (image_with p s.rest) usual_limits t → HoldsImage f (image_with p s.rest)
        → AreInPlace o f t is.lines × AreMappedWhole o f t is.lines }
    ensures sealed { (text : List ℕ) (p : Planned) (known : Option (List (List ℕ)))
        (old new : Option (List ℕ)) → IsPlanOfText text p
        → (s : IsWritten known (form_in p.format p) (stored_in p.format) old new)
        → HasSeal p.format (image_with p s.rest) }
{
    in_place::streamed_is_in_place();
    image_build::laws::streamed_is_accepted();
    image_build::laws::streamed_is_placed();
    image_build::laws::built_is_accepted();
}

/// States what is lent, whatever lines came before. A reply to `lend` or `map` has a slice of the
/// image's own bytes, from the reported offset on. They are exactly the bytes of the open file,
/// from its position or from the requested offset on. The same holds for the whole text of a link
/// that `readlink` reports, if the tree of the image is the one that a format gives some bytes. If
/// an open file with bytes is in one run, `map` from 0 on lends all of it. The reply has all its
/// bytes and their first offset, which is a multiple of its alignment.
pub fn lent()
    ensures lend { (m : Image) (lines : List (List ℕ)) (fd most : ℕ) (l : Of Lent)
        → ((image_calls 64 m).lend_piece (open_after m lines) fd most).reply ≡ Ok l
        → (o : Open Node) × (open_at (open_after m lines) fd ≡ Some o)
        × IsPieceOf m o.place o.position l.1 × (length l.1.bytes ≤ most) }
    ensures map { (m : Image) (lines : List (List ℕ)) (fd off len : ℕ) (l : Of Lent)
        → ((image_calls 64 m).map_piece (open_after m lines) fd off len).reply ≡ Ok l
        → (o : Open Node) × (open_at (open_after m lines) fd ≡ Some o)
        × IsPieceOf m o.place off l.1 × (length l.1.bytes ≡ len) }
    ensures link { (all : List ℕ) (limits : Limits) (m : Image) (lines : List (List ℕ))
        (path : List ℕ) (l : Of Lent) → HasTree all limits m.tree
        → ((image_calls 64 m).readlink (open_after m lines) path).reply ≡ Ok l
        → (x : Node) × (resolution (tree_namespace m.bytes m.tree) path false ≡ Ok x)
        × IsPieceOf m x 0 l.1 × (length l.1.bytes ≡ length (places_of x)) }
    ensures whole { (m : Image) (lines : List (List ℕ)) (fd align : ℕ) (o : Open Node)
        → open_at (open_after m lines) fd ≡ Some o → IsRun align (places_of o.place)
        → 0 < length (places_of o.place)
        → IsMappedWhole m (open_after m lines) fd o.place align }
{}

//! Laws on what is built.
ghost use Rattle.std.specs.Prelude.{ℕ, ◌≡◌, ◌≢◌, Err, List, Ok, Option, Result, length, map};
ghost use Rattle.atomic_file.specs.Log.{Event};
ghost use Rattle.atomic_file.specs.Moments.{IsOldOrNew};
ghost use Rattle.atomic_file.specs.declared.names.Names.{Names};
ghost use Rattle.formats.specs.Format.{Format};
ghost use Rattle.image_build.specs.Accepted.{usual};
ghost use Rattle.image_build.specs.Builds.{Builds};
ghost use Rattle.image_build.specs.Each.{AreRead, IsMeantEach};
ghost use Rattle.image_build.specs.Images.{IsCheckedImage, IsImageWritten};
ghost use Rattle.image_build.specs.Streamed.{HasNoCopies, IsBuiltOfSome, IsPlanOfText, form_in};
ghost use Rattle.image_build.specs.Streamed.{image_with, stored_in};
ghost use Rattle.image_build.specs.declared.error.BuildError.{BuildError};
ghost use Rattle.image_build.specs.declared.padding.Padding.{Padding};
ghost use Rattle.image_check.specs.Checked.{HasTree, IsFaultless, IsRefused};
ghost use Rattle.image_stream.specs.Outcomes.{IsWritten};
ghost use Rattle.manifest.specs.Grammar.{manifest_of};
ghost use Rattle.manifest.specs.Lines.{ManifestLines};
ghost use Rattle.manifest_layout.specs.Format.{HasUsualTree};
ghost use Rattle.manifest_layout.specs.Placement.{CopiesStand, HasVolume, IsPlaced};
ghost use Rattle.manifest_layout.specs.Sealed.{HasSeal};
ghost use Rattle.manifest_tree.specs.Meant.{IsMeant};
ghost use Rattle.manifest_layout.specs.Plans.{Planned};
ghost use Rattle.rom_fields.specs.declared.check_error.CheckError.{CheckError};
ghost use Rattle.rom_tree.specs.Tree.{Node};

use crate::image::LastCheck;
use image_stream::Sources;

/// Shows that a build has exactly one answer to each text and contents, apart from the refusal of
/// memory. So it refuses exactly if it may.
pub fn one_answer()
    ensures given { (f : Format) (text : List ℕ) (contents : List (List ℕ))
        → (answer : Result (List ℕ) BuildError) × (answer ≢ Err BuildError.OutOfMemory)
        × Builds f text contents answer }
    ensures alone { (f : Format) (text : List ℕ) (contents : List (List ℕ))
        (one other : Result (List ℕ) BuildError) → one ≢ Err BuildError.OutOfMemory
        → other ≢ Err BuildError.OutOfMemory → Builds f text contents one
        → Builds f text contents other → one ≡ other }
{
    manifest_layout::laws::one_answer();
    manifest_layout::laws::layout_is_meant();
}

/// Shows that a check of a built image under the usual limits finds no fault, and refuses nothing
/// except memory. The tree that it finds is what the manifest means. What the superblock states is
/// true of the image.
pub fn built_is_accepted()
    ensures faultless { (f : Format) (text : List ℕ) (contents : List (List ℕ)) (bytes : List ℕ)
        → Builds f text contents (Ok bytes) → IsFaultless bytes usual }
    ensures refused { (f : Format) (text : List ℕ) (contents : List (List ℕ)) (bytes : List ℕ)
        (e : CheckError) → Builds f text contents (Ok bytes) → IsRefused bytes usual e
        → e ≡ CheckError.OutOfMemory }
    ensures meant { (f : Format) (text : List ℕ) (contents : List (List ℕ)) (bytes : List ℕ)
        → Builds f text contents (Ok bytes) → (t : Node) → HasTree bytes usual t
        → (m : ManifestLines) × (manifest_of text ≡ Ok m)
        × IsMeant bytes t contents m (map length contents) }
    ensures sealed { (f : Format) (text : List ℕ) (contents : List (List ℕ)) (bytes : List ℕ)
        → Builds f text contents (Ok bytes) → HasSeal f bytes }
{
    manifest_layout::laws::layout_is_sealed();
    image_check::laws::exact();
    image_check::laws::one_tree();
}

/// Shows that what `stream` writes at `Ok` is an image, whatever the sources are. A check finds no
/// fault in it, and refuses nothing except memory. The tree that it finds is what the manifest
/// means, if each `file` and each `same` line has contents of its own, of the planned size; these
/// are what the reads of its source answered last. If no source has a copy, the image is what a
/// build answers to some contents of the sources. What the superblock states is true of the image.
/// `w` has the bytes that were written.
pub fn streamed_is_accepted()
    ensures faultless { (text : List ℕ) (p : Planned) (known : Option (List (List ℕ)))
        (old new : Option (List ℕ)) → IsPlanOfText text p
        → (w : IsWritten known (form_in p.format p) (stored_in p.format) old new)
        → IsFaultless (image_with p w.rest) usual }
    ensures refused { (text : List ℕ) (p : Planned) (known : Option (List (List ℕ)))
        (old new : Option (List ℕ)) (e : CheckError) → IsPlanOfText text p
        → (w : IsWritten known (form_in p.format p) (stored_in p.format) old new)
        → IsRefused (image_with p w.rest) usual e → e ≡ CheckError.OutOfMemory }
    ensures each { (text : List ℕ) (p : Planned) (known : Option (List (List ℕ)))
        (old new : Option (List ℕ)) (t : Node) → (is : IsPlanOfText text p)
        → (w : IsWritten known (form_in p.format p) (stored_in p.format) old new)
        → HasTree (image_with p w.rest) usual t
        → (b : ℕ → List ℕ) × IsMeantEach (image_with p w.rest) t b is.lines p.sizes
        × AreRead w.answers b is.lines p.sizes }
    ensures built { (text : List ℕ) (p : Planned) (known : Option (List (List ℕ)))
        (old new : Option (List ℕ)) → (is : IsPlanOfText text p) → HasNoCopies p.format is.lines
        → (w : IsWritten known (form_in p.format p) (stored_in p.format) old new)
        → IsBuiltOfSome text p (image_with p w.rest) }
    ensures sealed { (text : List ℕ) (p : Planned) (known : Option (List (List ℕ)))
        (old new : Option (List ℕ)) → IsPlanOfText text p
        → (w : IsWritten known (form_in p.format p) (stored_in p.format) old new)
        → HasSeal p.format (image_with p w.rest) }
{
    manifest_layout::laws::layout_is_meant();
    manifest_layout::laws::layout_is_sealed();
    manifest_layout::laws::fitting_is_planned();
    romfs_layout::laws::layout_has_tree();
    romfs_layout::laws::layout_is_sealed();
    manifest_tree::laws::names_lead_to_files();
    image_check::laws::exact();
    image_check::laws::one_tree();
}

/// Shows that in a built image each file with the contents of a `file` line has its bytes in one
/// run, from a multiple of that line's ALIGN on, and that the volume has the manifest's name. In
/// cramfs, all files with the contents of one `file` line have their bytes at the same offsets. In
/// romfs, files of different lines have no offset in common.
pub fn built_is_placed()
    ensures runs { (f : Format) (text : List ℕ) (contents : List (List ℕ)) (bytes : List ℕ)
        (m : ManifestLines) → Builds f text contents (Ok bytes) → manifest_of text ≡ Ok m
        → (t : Node) → HasTree bytes usual t → IsPlaced t m }
    ensures copies { (f : Format) (text : List ℕ) (contents : List (List ℕ)) (bytes : List ℕ)
        (m : ManifestLines) → Builds f text contents (Ok bytes) → manifest_of text ≡ Ok m
        → (t : Node) → HasTree bytes usual t → CopiesStand f t m }
    ensures named { (f : Format) (text : List ℕ) (contents : List (List ℕ)) (bytes : List ℕ)
        (m : ManifestLines) → Builds f text contents (Ok bytes) → manifest_of text ≡ Ok m
        → HasVolume f bytes m.volume }
{
    manifest_layout::laws::layout_is_placed();
    image_check::laws::one_tree();
}

/// Shows the same for an image that was streamed, whatever the sources are. It has a tree in the
/// plan's format.
pub fn streamed_is_placed()
    ensures runs { (text : List ℕ) (p : Planned) (known : Option (List (List ℕ)))
        (old new : Option (List ℕ)) (t : Node) → (is : IsPlanOfText text p)
        → (w : IsWritten known (form_in p.format p) (stored_in p.format) old new)
        → HasTree (image_with p w.rest) usual t → IsPlaced t is.lines }
    ensures copies { (text : List ℕ) (p : Planned) (known : Option (List (List ℕ)))
        (old new : Option (List ℕ)) (t : Node) → (is : IsPlanOfText text p)
        → (w : IsWritten known (form_in p.format p) (stored_in p.format) old new)
        → HasTree (image_with p w.rest) usual t → CopiesStand p.format t is.lines }
    ensures holds { (text : List ℕ) (p : Planned) (known : Option (List (List ℕ)))
        (old new : Option (List ℕ)) → IsPlanOfText text p
        → (w : IsWritten known (form_in p.format p) (stored_in p.format) old new)
        → (t : Node) × HasUsualTree p.format (image_with p w.rest) t }
    ensures named { (text : List ℕ) (p : Planned) (known : Option (List (List ℕ)))
        (old new : Option (List ℕ)) → (is : IsPlanOfText text p)
        → (w : IsWritten known (form_in p.format p) (stored_in p.format) old new)
        → HasVolume p.format (image_with p w.rest) is.lines.volume }
{
    manifest_layout::laws::layout_is_meant();
    manifest_layout::laws::fitting_is_planned();
    manifest_layout::laws::layout_is_placed();
    romfs_layout::laws::layout_is_placed();
    image_check::laws::one_tree();
}

/// States that a file that is what it was or a checked image, without bytes after it, is what it
/// was or an image.
pub fn checked_is_written<S: Sources, K: LastCheck>()
    ensures { (names : Names) (last : K) (padding : Padding) (known : Option (List (List ℕ)))
        (was is : S) (p : Planned) (fresh : Option (List ℕ)) (old log : List Event)
        → padding.len ≡ 0
        → IsOldOrNew names (IsCheckedImage (K.passed last) padding known (S.IsLog was)
        (S.IsLog is) p fresh) old log
        → IsOldOrNew names (IsImageWritten known (S.IsLog was) (S.IsLog is) p fresh) old log }
{}

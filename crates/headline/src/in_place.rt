//! What Linux maps of the files of a built image.
ghost use Rattle.std.specs.Prelude.{◌≡◌, ◌<◌, ◌^◌, ℕ, IfSome, List, Ok, Option, Some};
ghost use Rattle.std.specs.Prelude.{length, map};
ghost use Rattle.headline.specs.Files.{AreInPlace, AreMappedWhole, HoldsImage};
ghost use Rattle.headline.specs.Programs.{AreFound, AreFoundEach, HasNoRefused, HasNoRefusedEach};
ghost use Rattle.headline.specs.Programs.{IsAccepted, IsAskedAt, IsNotRefused};
ghost use Rattle.headline.specs.Romfs.{AreMappedInRomfs, FillsPages};
ghost use Rattle.cramfs_format.specs.declared.order.Order.{Order};
ghost use Rattle.program_pages.specs.Physmem.{Flash};
ghost use Rattle.formats.specs.Format.{Format, cramfs, romfs};
ghost use Rattle.image_build.specs.Accepted.{usual};
ghost use Rattle.image_build.specs.Builds.{Builds};
ghost use Rattle.image_build.specs.Each.{AreRead};
ghost use Rattle.image_build.specs.Streamed.{HasNoCopies, IsPlanOfText, form_in, image_with};
ghost use Rattle.image_build.specs.Streamed.{stored_in};
ghost use Rattle.image_check.specs.Any.{any_view};
ghost use Rattle.image_check.specs.Checked.{HasTree};
ghost use Rattle.image_check.specs.declared.any.AnyImage.{AnyImage};
ghost use Rattle.image_stream.specs.Outcomes.{IsWritten};
ghost use Rattle.manifest.specs.Grammar.{manifest_of};
ghost use Rattle.manifest.specs.Lines.{ManifestLines};
ghost use Rattle.manifest_tree.specs.Shape.{node_under};
ghost use Rattle.manifest_layout.specs.Plans.{Planned};
ghost use Rattle.program_report.specs.Found.{found_in};
ghost use Rattle.program_report.specs.Lines.{tally_of};
ghost use Rattle.program_report.specs.declared.question.Question.{Question};
ghost use Rattle.rom_tree.specs.Tree.{Node};
ghost use Rattle.romfs_format.specs.Tree.{RomfsTree};

/// Shows that each file of a built cramfs image, whose ALIGN is a multiple of 4,096, is mapped in
/// place by Linux, if the image is at the front of flash whose address is such a multiple, too.
pub fn built_is_in_place()
    ensures { (o : Order) (text : List ℕ) (contents : List (List ℕ)) (bytes : List ℕ)
        (m : ManifestLines) (t : Node) (f : Flash) → Builds (cramfs o) text contents (Ok bytes)
        → manifest_of text ≡ Ok m → HasTree bytes usual t → HoldsImage f bytes
        → AreInPlace o f t m }
{
    image_build::laws::built_is_accepted();
    image_build::laws::built_is_placed();
    image_check::laws::one_tree();
    manifest_layout::laws::layout_is_meant();
    program_pages::laws::aligned_is_in_place();
}

/// Shows that without an MMU each file of a built cramfs image is mapped whole by Linux, whatever
/// its ALIGN, if the image is at the front of the flash.
pub fn built_is_mapped_whole()
    ensures { (o : Order) (text : List ℕ) (contents : List (List ℕ)) (bytes : List ℕ)
        (m : ManifestLines) (t : Node) (f : Flash) → Builds (cramfs o) text contents (Ok bytes)
        → manifest_of text ≡ Ok m → HasTree bytes usual t → HoldsImage f bytes
        → AreMappedWhole o f t m }
{
    image_build::laws::built_is_accepted();
    image_build::laws::built_is_placed();
    image_check::laws::one_tree();
    manifest_layout::laws::layout_is_meant();
    program_pages::laws::run_is_whole();
}

/// Shows that Linux without an MMU maps all pages of each file of a romfs image to the flash,
/// whatever its ALIGN and whoever made the image, if the image is at the front of the flash, which
/// has whole pages.
pub fn romfs_is_mapped()
    ensures { (bytes : List ℕ) (most deepest : ℕ) (t : Node) (f : Flash)
        → RomfsTree bytes most deepest t → length bytes < 2 ^ 32 → FillsPages f bytes
        → AreMappedInRomfs f t }
{}

/// Shows the first two for an image that was streamed, whatever the sources are.
pub fn streamed_is_in_place()
    ensures in_place { (o : Order) (text : List ℕ) (p : Planned) (known : Option (List (List ℕ)))
        (old new : Option (List ℕ)) (t : Node) (f : Flash) → (is : IsPlanOfText text p)
        → p.format ≡ cramfs o
        → (w : IsWritten known (form_in p.format p) (stored_in p.format) old new)
        → HasTree (image_with p w.rest) usual t
        → HoldsImage f (image_with p w.rest) → AreInPlace o f t is.lines }
    ensures whole { (o : Order) (text : List ℕ) (p : Planned) (known : Option (List (List ℕ)))
        (old new : Option (List ℕ)) (t : Node) (f : Flash) → (is : IsPlanOfText text p)
        → p.format ≡ cramfs o
        → (w : IsWritten known (form_in p.format p) (stored_in p.format) old new)
        → HasTree (image_with p w.rest) usual t → HoldsImage f (image_with p w.rest)
        → AreMappedWhole o f t is.lines }
{
    image_build::laws::streamed_is_accepted();
    built_is_in_place();
    built_is_mapped_whole();
}

/// Shows that with an MMU, what `xip` finds of each file of a built image is what the contents of
/// its source say, at the place that the plan gives them. Only the last page of a program may be in
/// place as well, if no other data are in it.
pub fn built_is_found()
    ensures { (f : Format) (text : List ℕ) (contents : List (List ℕ)) (bytes : List ℕ)
        (m : ManifestLines) (base : ℕ) (a : AnyImage) (q : Question)
        → Builds f text contents (Ok bytes) → manifest_of text ≡ Ok m → IsAccepted bytes a
        → IsAskedAt base q → AreFound f m contents base a q }
{
    image_check::laws::one_tree();
    manifest_layout::laws::fitting_is_planned();
    program_report::laws::planned_is_found();
}

/// Shows that if by the plan no program is out of place, `xip` with an MMU finds none that is, at
/// any path of the built image: it has no line `not`, and counts none.
pub fn planned_is_not_refused()
    ensures found { (f : Format) (text : List ℕ) (contents : List (List ℕ)) (bytes : List ℕ)
        (m : ManifestLines) (base : ℕ) (a : AnyImage) (q : Question) (path : List (List ℕ))
        (x : Node) → Builds f text contents (Ok bytes) → manifest_of text ≡ Ok m
        → IsAccepted bytes a → IsAskedAt base q → HasNoRefused f m contents base
        → node_under path (any_view a).tree ≡ Some x
        → IfSome (found_in a q x) (λ v. IsNotRefused v.verdict) }
    ensures total { (f : Format) (text : List ℕ) (contents : List (List ℕ)) (bytes : List ℕ)
        (m : ManifestLines) (base : ℕ) (a : AnyImage) (q : Question)
        → Builds f text contents (Ok bytes) → manifest_of text ≡ Ok m → IsAccepted bytes a
        → IsAskedAt base q → HasNoRefused f m contents base → (tally_of a q).not ≡ 0 }
{
    image_check::laws::one_tree();
    manifest_layout::laws::fitting_is_planned();
    program_report::laws::planned_is_found();
}

/// Shows the same two for an image that was streamed, whatever the sources are. If no source has a
/// copy, the image has some contents of the planned sizes. In romfs, where each `same` line has a
/// copy of its own, each line has contents of its own: the bytes that the reads of its source
/// returned. What `xip` finds of its file is what these bytes say, at a place that the plan gives
/// the source. If they are out of place at none of the places of their source, `xip` counts none.
pub fn streamed_is_found()
    ensures built { (text : List ℕ) (p : Planned) (known : Option (List (List ℕ)))
        (old new : Option (List ℕ)) (base : ℕ) (a : AnyImage) (q : Question)
        → (is : IsPlanOfText text p) → HasNoCopies p.format is.lines
        → (w : IsWritten known (form_in p.format p) (stored_in p.format) old new)
        → IsAccepted (image_with p w.rest) a → IsAskedAt base q
        → (contents : List (List ℕ)) × (map length contents ≡ p.sizes)
        × AreFound p.format is.lines contents base a q
        × (HasNoRefused p.format is.lines contents base → (tally_of a q).not ≡ 0) }
    ensures each { (text : List ℕ) (p : Planned) (known : Option (List (List ℕ)))
        (old new : Option (List ℕ)) (base : ℕ) (a : AnyImage) (q : Question)
        → (is : IsPlanOfText text p) → p.format ≡ romfs
        → (w : IsWritten known (form_in p.format p) (stored_in p.format) old new)
        → IsAccepted (image_with p w.rest) a → IsAskedAt base q
        → (given : ℕ → List ℕ) × AreRead w.answers given is.lines p.sizes
        × AreFoundEach is.lines p.sizes given base a q
        × (HasNoRefusedEach is.lines p.sizes given base → (tally_of a q).not ≡ 0) }
{
    image_build::laws::streamed_is_accepted();
    image_check::laws::one_tree();
    manifest_layout::laws::fitting_is_planned();
    romfs_layout::laws::layout_has_tree();
    manifest_tree::laws::names_lead_to_files();
    program_report::laws::planned_is_found();
    built_is_found();
    planned_is_not_refused();
}

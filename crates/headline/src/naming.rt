//! The name of the volume of a built or streamed image, as it is printed.
ghost use Rattle.std.specs.Prelude.{◌≡◌, ℕ, List, Ok, Option};
ghost use Rattle.image_build.specs.Builds.{Builds};
ghost use Rattle.image_build.specs.Streamed.{IsPlanOfText, form_in, image_with, stored_in};
ghost use Rattle.image_check.specs.Any.{any_view, report_of};
ghost use Rattle.image_check.specs.Checked.{HasFormat, Shows};
ghost use Rattle.image_check.specs.declared.any.AnyImage.{AnyImage};
ghost use Rattle.image_info.specs.Volumes.{volume_of};
ghost use Rattle.image_stream.specs.Outcomes.{IsWritten};
ghost use Rattle.manifest.specs.Grammar.{manifest_of};
ghost use Rattle.manifest.specs.Lines.{ManifestLines};
ghost use Rattle.formats.specs.Format.{Format};
ghost use Rattle.manifest_layout.specs.Plans.{Planned};
ghost use Rattle.rom_tree.specs.declared.types.Limits.{Limits};

/// States that `image_info::volume` returns the manifest's name for the volume of a built image
/// that a check accepts, under any limits.
pub fn built_is_named()
    ensures { (limits : Limits) (f : Format) (text : List ℕ) (contents : List (List ℕ))
        (bytes : List ℕ) (m : ManifestLines) (v : AnyImage) → Builds f text contents (Ok bytes)
        → manifest_of text ≡ Ok m → Shows bytes limits (any_view v) (report_of v)
        → HasFormat bytes v → volume_of v ≡ m.volume }
{
    image_build::laws::built_is_placed();
}

/// States the same for an image that `image_build::stream` wrote with `Ok`, whatever the sources
/// report.
pub fn streamed_is_named()
    ensures { (limits : Limits) (text : List ℕ) (p : Planned) (known : Option (List (List ℕ)))
        (old new : Option (List ℕ)) (v : AnyImage) → (is : IsPlanOfText text p)
        → (w : IsWritten known (form_in p.format p) (stored_in p.format) old new)
        → Shows (image_with p w.rest) limits (any_view v) (report_of v)
        → HasFormat (image_with p w.rest) v → volume_of v ≡ is.lines.volume }
{
    image_build::laws::streamed_is_placed();
}

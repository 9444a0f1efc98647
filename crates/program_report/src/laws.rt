//! What is found of a program before its image exists.
ghost use Rattle.std.specs.Prelude.{◌≡◌, ◌+◌, ◌≤◌, ℕ, false, length, true};
ghost use Rattle.image_check.specs.Any.{any_view};
ghost use Rattle.image_check.specs.declared.any.AnyImage.{AnyImage};
ghost use Rattle.program_pages.specs.Physmem.{shares_page};
ghost use Rattle.program_report.specs.Alike.{IsFoundAs};
ghost use Rattle.program_report.specs.Found.{found_in, is_romfs, verdict_at};
ghost use Rattle.program_report.specs.declared.question.Question.{Question};
ghost use Rattle.rom_fields.specs.Words.{part_of};
ghost use Rattle.rom_tree.specs.Tree.{Node, is_regular, places_of, row_from};

/// Shows that what is found of a file in an image is what its bytes and their address say alone, if
/// the bytes are in one run and the machine has an MMU. Only the last page of a program may be in
/// place as well, if no other data are in it.
pub fn planned_is_found()
    ensures { (a : AnyImage) (q : Question) (x : Node) (start : ℕ) → q.no_mmu ≡ false
        → is_regular x ≡ true → places_of x ≡ row_from start (length (places_of x))
        → start + length (places_of x) ≤ length (any_view a).bytes
        → IsFoundAs
        (shares_page (any_view a).bytes (start + length (places_of x)) (length (places_of x)))
        (verdict_at (is_romfs a) (q.base + start)
        (part_of (any_view a).bytes start (length (places_of x))))
        start (length (places_of x)) (found_in a q x) }
{}

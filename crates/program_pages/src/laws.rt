//! What Linux maps of a program.
ghost use Rattle.std.specs.Prelude.{ℕ, ◌%◌, ◌++◌, ◌+◌, ◌<◌, ◌^◌, ◌≡◌, ◌≢◌, ◌≤◌, List, false};
ghost use Rattle.std.specs.Prelude.{length, true};
ghost use Rattle.cramfs_format.specs.Inode.{block_count};
ghost use Rattle.cramfs_format.specs.Tree.{CramfsTree};
ghost use Rattle.cramfs_format.specs.declared.order.Order.{Order};
ghost use Rattle.elf_format.specs.declared.header.Header.{Header};
ghost use Rattle.program_pages.specs.Counted.{pages_sum};
ghost use Rattle.program_pages.specs.InPlace.{IsInPlace, pages_in_place};
ghost use Rattle.program_pages.specs.Mapped.{mapped_sum};
ghost use Rattle.program_pages.specs.Physmem.{Flash, is_whole, mapped_pages};
ghost use Rattle.program_pages.specs.declared.mapping.Mapping.{Mapping};
ghost use Rattle.rom_tree.specs.Tree.{IsIn, Node, ino_of, is_regular, nodes, places_of, row_from};

/// Shows that the counted pages of a program in a cramfs image are those that Linux maps to the
/// flash, without those that the dynamic linker fills with zeros, if the file's bytes are in one
/// run.
pub fn counted_is_mapped()
    ensures { (o : Order) (bytes rest : List ℕ) (most deepest start : ℕ) (t x : Node) (f : Flash)
        (b : List ℕ) (h : Header) (n : ℕ) → CramfsTree o bytes most deepest t
        → length bytes < 2 ^ 32 → f.bytes ≡ bytes ++ rest → f.address ≢ 0 → IsIn x (nodes t)
        → is_regular x ≡ true → places_of x ≡ row_from start (length (places_of x))
        → (pages_sum f false start (length (places_of x)) b h n).in_place
        ≡ mapped_sum o f (ino_of x) (length (places_of x)) b h n }
{
    run_is_mapped();
}

/// Shows how many pages of a file Linux maps, whose bytes are in one run. The image is at the front
/// of the flash.
pub fn run_is_mapped()
    ensures { (o : Order) (bytes rest : List ℕ) (most deepest start : ℕ) (t x : Node) (f : Flash)
        (m : Mapping) → CramfsTree o bytes most deepest t → length bytes < 2 ^ 32
        → f.bytes ≡ bytes ++ rest → f.address ≢ 0 → IsIn x (nodes t) → is_regular x ≡ true
        → places_of x ≡ row_from start (length (places_of x))
        → mapped_pages o f (ino_of x) m ≡ pages_in_place f start (length (places_of x)) m }
{}

/// Shows that each page of such a file is mapped at the place of its first byte, if the run begins
/// with a page of the flash. Of the last page nothing is said if something else is in it.
pub fn aligned_is_in_place()
    ensures { (o : Order) (bytes rest : List ℕ) (most deepest start : ℕ) (t x : Node) (f : Flash)
        → CramfsTree o bytes most deepest t → length bytes < 2 ^ 32 → f.bytes ≡ bytes ++ rest
        → f.address ≢ 0 → IsIn x (nodes t) → is_regular x ≡ true
        → places_of x ≡ row_from start (length (places_of x)) → (f.address + start) % 4096 ≡ 0
        → IsInPlace o f x start }
{}

/// Shows that without an MMU Linux maps all pages of each mapping of such a file that cannot be
/// written and is within the file, wherever the run begins.
pub fn run_is_whole()
    ensures { (o : Order) (bytes rest : List ℕ) (most deepest start : ℕ) (t x : Node) (f : Flash)
        (m : Mapping) → CramfsTree o bytes most deepest t → length bytes < 2 ^ 32
        → f.bytes ≡ bytes ++ rest → f.address ≢ 0 → IsIn x (nodes t) → is_regular x ≡ true
        → places_of x ≡ row_from start (length (places_of x)) → m.writable ≡ false
        → m.first < block_count (length (places_of x))
        → m.first + m.count ≤ block_count (length (places_of x))
        → is_whole o f (ino_of x) m ≡ true }
{}

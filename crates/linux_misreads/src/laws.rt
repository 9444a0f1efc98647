//! Laws of the definitions of what Linux misreads.
ghost use Rattle.std.specs.Prelude.{◌≡◌, ◌≢◌, ◌<◌, ◌≤◌, ◌+◌, ◌*◌, ◌/◌, ◌%◌, ◌^◌, ◌==◌, ◌↔◌, nat_lt};
ghost use Rattle.std.specs.Prelude.{not, true, ℕ, List, length};
ghost use Rattle.romfs_format.specs.Record.{end_of, name_of, pad16};
ghost use Rattle.cramfs_format.specs.Inode.{block_count, block_len};
ghost use Rattle.cramfs_image.specs.Reported.{order_in};
ghost use Rattle.cramfs_image.specs.declared.image.Cramfs.{Cramfs};
ghost use Rattle.linux_misreads.specs.Readers.{device_number, names_device, old_device, listed_len};
ghost use Rattle.linux_misreads.specs.Readers.{cramfs_device, romfs_device};
ghost use Rattle.linux_misreads.specs.Readers.{romfs_data, romfs_finds, romfs_root, page_filled};
ghost use Rattle.linux_misreads.specs.Differences.{ends_with_a_block, is_cut_name};
ghost use Rattle.linux_misreads.specs.Seen.{is_regular_kind};
ghost use Rattle.linux_misreads.specs.Tables.{romfs_view, view};
ghost use Rattle.linux_misreads.specs.declared.seen.Seen.{Seen};
ghost use Rattle.rom_tree.specs.Tree.{IsIn, Node, attributes_of, ino_of, is_device, nodes};
ghost use Rattle.romfs_image.specs.declared.image.Romfs.{Romfs};

/// States that a regular file ends with a whole block exactly if Linux fills some page of it with
/// another number of bytes than the file has there.
pub fn last_block()
    ensures { (x : Seen) → is_regular_kind x.kind ≡ true → (ends_with_a_block x ≡ true)
        ↔ ((i : ℕ) × (i < block_count x.size) × (page_filled x.size i ≢ block_len x.size i)) }
{}

/// States that Linux uses another offset for the root than the one behind the volume's name exactly
/// if the name has more than 143 bytes.
pub fn long_volume()
    ensures { (volume : List ℕ) → (romfs_root volume ≢ 16 + pad16 (length volume + 1))
        ↔ (143 < length volume) }
{}

/// States that a name of romfs is cut exactly if it has 128 bytes, and not found exactly if it has
/// more.
pub fn long_names()
    ensures cut { (name : List ℕ) → is_cut_name name ≡ (length name == 128) }
    ensures lost { (name : List ℕ) → not (romfs_finds name) ≡ nat_lt 128 (length name) }
{}

/// States that Linux reads the data of a romfs record from another offset than the record's end
/// exactly if its name has more than 143 bytes.
#[tactic(auto, unfolding(romfs_format::specs::Record::end_of, romfs_format::specs::Record::name_of))]
pub fn long_records()
    ensures { (b : List ℕ) (p : ℕ) → (romfs_data b p ≢ end_of b p) ↔ (143 < length (name_of b p)) }
{}

/// States that a device of romfs keeps its numbers exactly if its major number is below 4,096.
pub fn romfs_devices()
    ensures { (spec : ℕ) → spec < 2 ^ 32
        → (names_device (device_number (spec / 2 ^ 16) (spec % 2 ^ 16)) (spec / 2 ^ 16)
        (spec % 2 ^ 16)
        ≡ true) ↔ (spec / 2 ^ 16 < 4096) }
{}

/// States that a device of cramfs keeps its numbers exactly if its major number is below 256.
pub fn cramfs_devices()
    ensures { (size : ℕ) → size < 2 ^ 24
        → (names_device (old_device size) (size / 2 ^ 8) (size % 2 ^ 8) ≡ true)
        ↔ (size / 2 ^ 8 < 256) }
{}

/// States that Linux makes of a device of a romfs image the number of the major and the minor
/// number that the tree has for it.
pub fn romfs_device_numbers()
    ensures { (s : Romfs) (x : Node) → IsIn x (nodes (romfs_view s).tree) → is_device x ≡ true
        → romfs_device (romfs_view s).bytes (ino_of x)
        ≡ device_number (attributes_of x).major (attributes_of x).minor }
{}

/// States that Linux makes of a device of a cramfs image the number of the lower eight bits of the
/// major and of the minor number that the tree has for it.
pub fn cramfs_device_numbers()
    ensures { (s : Cramfs) (x : Node) → IsIn x (nodes (view s).tree) → is_device x ≡ true
        → cramfs_device (order_in s) (view s).bytes (ino_of x)
        ≡ old_device ((attributes_of x).major % 256 * 256 + (attributes_of x).minor % 256) }
{}

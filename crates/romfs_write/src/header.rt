//! The superblock and the headers, with their sums.
ghost use Rattle.std.specs.Prelude.{◌≡◌, ◌+◌, ◌≤◌, ◌++◌, length, take, drop, replicate, get_or};
ghost use Rattle.byteorder.specs.Endian.{big_bytes};
ghost use Rattle.romfs_layout.specs.Layout.{header_bytes, record_len, root_at};
ghost use Rattle.romfs_write.specs.Form.{superblock_storing};

use rom_fields::{put_be32, word_sum};
use romfs_format::disk::MAGIC;

/// Sets all bytes to zero.
fn clear(out: &mut [u8])
    ensures { out.new ≡ replicate (length out.old) 0 }
{
    out.fill(0);
}

/// Puts bytes over others, from `start` on.
fn put(out: &mut [u8], start: usize, bytes: &[u8])
    requires { start + length bytes.now ≤ length out.old }
    ensures { out.new ≡ take start out.old
        ++ (bytes.now ++ drop (start + length bytes.now) out.old) }
{
    out[start..start + bytes.len()].copy_from_slice(bytes);
}

/// Puts a word over four bytes, from `start` on, with the highest byte first.
#[tactic(auto, unfolding(rom_fields::specs::Words::with_word_be))]
fn put_word(out: &mut [u8], start: usize, word: u32)
    requires { start + 4 ≤ length out.old }
    ensures { out.new ≡ take start out.old ++ (big_bytes 4 word ++ drop (start + 4) out.old) }
{
    let _ = put_be32(out, start, word);
}

/// Puts the superblock that stores this size and this sum.
pub fn put_superblock(volume: &[u8], size: u32, sum: u32, out: &mut [u8])
    requires { length out.old ≡ root_at volume.now }
    ensures { out.new ≡ superblock_storing sum size volume.now }
{
    clear(out);
    put(out, 0, &MAGIC);
    put_word(out, 8, size);
    put_word(out, 12, sum);
    put(out, 16, volume);
}

/// Puts a header with the word that brings its sum to zero. Its three words are next, spec and
/// size.
pub fn put_header(words: [u32; 3], name: &[u8], out: &mut [u8])
    requires { length out.old ≡ record_len name.now }
    ensures { out.new
        ≡ header_bytes (get_or words 0 0) (get_or words 1 0) (get_or words 2 0) name.now }
{
    clear(out);
    put_word(out, 0, words[0]);
    put_word(out, 4, words[1]);
    put_word(out, 8, words[2]);
    put(out, 16, name);
    let sum = word_sum(out);
    put_word(out, 12, 0u32.wrapping_sub(sum));
}

//! The superblock, the inodes and the tables of block pointers.
ghost use Rattle.std.specs.Prelude.{◌≡◌, ◌+◌, ◌-◌, ◌*◌, ◌/◌, ◌%◌, ◌^◌, ◌<◌, ◌≤◌, ◌++◌, length};
ghost use Rattle.std.specs.Prelude.{take, replicate, get_or};
ghost use Rattle.cramfs_layout.specs.Layout.{word_bytes, entry_len, pointers};
ghost use Rattle.cramfs_write.specs.Form.{words_bytes, inode_bytes, front_storing};
ghost use Rattle.cramfs_write.specs.Form.{superblock_storing};

use cramfs_format::Order;
use cramfs_format::disk::{MAGIC, SIGNATURE};

/// Size and crc are stored, lists are sorted, and pointers have bits for the kind of their blocks.
const FLAGS: u32 = 0x803;

/// Puts bytes from `start` on. Returns their end.
fn put(out: &mut [u8], start: usize, bytes: &[u8]) -> usize
    requires { start + length bytes.now ≤ length out.old }
    ensures end { result ≡ start + length bytes.now }
    ensures length { length out.new ≡ length out.old }
    ensures put { take result out.new ≡ take start out.old ++ bytes.now }
{
    let end = start + bytes.len();
    out[start..end].copy_from_slice(bytes);
    end
}

/// Puts a word in this byte order. Returns its end.
fn put_word(order: Order, out: &mut [u8], start: usize, word: u32) -> usize
    requires { start + 4 ≤ length out.old }
    ensures end { result ≡ start + 4 }
    ensures length { length out.new ≡ length out.old }
    ensures put { take result out.new ≡ take start out.old ++ word_bytes order word }
{
    order.put_word(out, start, word);
    start + 4
}

/// Puts `count` zeros. Returns their end.
fn put_zeros(out: &mut [u8], start: usize, count: usize) -> usize
    requires { start + count ≤ length out.old }
    ensures end { result ≡ start + count }
    ensures length { length out.new ≡ length out.old }
    ensures put { take result out.new ≡ take start out.old ++ replicate count 0 }
{
    let end = start + count;
    out[start..end].fill(0);
    end
}

/// Puts the three words of an inode. Returns their end.
fn put_words(order: Order, out: &mut [u8], start: usize, words: [u32; 3]) -> usize
    requires { start + 12 ≤ length out.old }
    ensures end { result ≡ start + 12 }
    ensures length { length out.new ≡ length out.old }
    ensures put { take result out.new ≡ take start out.old
        ++ words_bytes order (get_or words 0 0) (get_or words 1 0) (get_or words 2 0) }
{
    let second = put_word(order, out, start, words[0]);
    let third = put_word(order, out, second, words[1]);
    put_word(order, out, third, words[2])
}

/// Puts an inode with its name at the front. Returns its length.
pub fn put_inode(order: Order, words: [u32; 3], name: &[u8], out: &mut [u8]) -> usize
    requires short { length name.now < 256 }
    requires room { entry_len name.now ≤ length out.old }
    ensures end { result ≡ entry_len name.now }
    ensures length { length out.new ≡ length out.old }
    ensures put { take result out.new
        ≡ inode_bytes order (get_or words 0 0) (get_or words 1 0) (get_or words 2 0) name.now }
{
    let at = put_words(order, out, 0, words);
    let at = put(out, at, name);
    put_zeros(out, at, (4 - name.len() % 4) % 4)
}

/// Fills `out` with pointers to blocks without gaps. The first block is at `place`.
pub fn put_pointers(order: Order, place: u32, out: &mut [u8])
    requires words { length out.old % 4 ≡ 0 }
    requires small { place / 4 + 256 * length out.old < 2 ^ 30 }
    ensures { out.new ≡ pointers order place (length out.old / 4) }
{
    let mut at = 0;
    for i in 0..out.len() / 4 {
        at = put_word(order, out, at, (3 << 30) + place / 4 + 1024 * i as u32);
    }
}

/// Puts the front of the superblock, up to the number of blocks. Returns its end.
fn put_front(order: Order, size: u32, crc: u32, out: &mut [u8]) -> usize
    requires { 76 ≤ length out.old }
    ensures end { result ≡ 40 }
    ensures length { length out.new ≡ length out.old }
    ensures put { take 40 out.new ≡ front_storing order crc size }
{
    let at = put_word(order, out, 0, MAGIC);
    let at = put_word(order, out, at, size);
    let at = put_word(order, out, at, FLAGS);
    let at = put_word(order, out, at, 0);
    let at = put(out, at, SIGNATURE.as_slice());
    let at = put_word(order, out, at, crc);
    put_word(order, out, at, 0)
}

/// Puts the superblock with this size, this number of files, this crc, and the root's inode.
pub fn put_superblock(
    order: Order,
    size: u32,
    files: u32,
    volume: &[u8],
    root: [u32; 3],
    crc: u32,
    out: &mut [u8],
)
    requires volume { length volume.now ≤ 16 }
    requires room { length out.old ≡ 76 }
    ensures { out.new ≡ superblock_storing order crc size files volume.now
        (get_or root 0 0) (get_or root 1 0) (get_or root 2 0) }
{
    let at = put_front(order, size, crc, out);
    let at = put_word(order, out, at, size / 4096);
    let at = put_word(order, out, at, files);
    let at = put(out, at, volume);
    let at = put_zeros(out, at, 16 - volume.len());
    put_words(order, out, at, root);
}

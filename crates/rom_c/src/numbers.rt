//! The description of a checked image as 48 bytes, and the image that it makes again.
ghost use Rattle.std.specs.Prelude.{◌≡◌, ◌≢◌, ◌+◌, ◌≤◌, ◌⊎◌, length, replicate};
ghost use Rattle.std.specs.Bool.{OnTrue, OnFalse};
ghost use Rattle.rom_c.specs.declared.image.RomtoolImage.{RomtoolImage as AnyRomtoolImage};
ghost use Rattle.rom_c.specs.Numbers.{word_at, Describes, HasNumbers, IsDescription};

use crate::image::{OPEN, RomtoolImage, refused};

/// The error: the numbers are not those of these bytes.
const NUMBERS: u32 = 17;

/// The version of the description.
const VERSION: u32 = 1;

/// Returns the bytes of a word, the least first.
fn bytes_of(word: u32) -> [u8; 4]
    ensures { word_at result 0 ≡ word }
{
    [
        (word % 256) as u8,
        (word / 256 % 256) as u8,
        (word / 65536 % 256) as u8,
        (word / 16_777_216) as u8,
    ]
}

/// Returns the word at an offset.
fn word(numbers: &[u8; 48], at: usize) -> u32
    requires { at + 4 ≤ 48 }
    ensures { result ≡ word_at numbers.now at }
{
    u32::from(numbers[at])
        + 256 * u32::from(numbers[at + 1])
        + (65536 * u32::from(numbers[at + 2]) + 16_777_216 * u32::from(numbers[at + 3]))
}

/// Returns whether numbers are the description of an image with so many bytes.
fn is_description(numbers: &[u8; 48], len: u64) -> bool
    ensures yes { OnTrue result (IsDescription numbers.now len) }
    ensures no { OnFalse result (IsDescription numbers.now len → ⊥) }
{
    &numbers[..8] == b"romtool\0".as_slice()
        && word(numbers, 8) == VERSION
        && u64::from(word(numbers, 16)) + 4_294_967_296 * u64::from(word(numbers, 20)) == len
        && word(numbers, 40) == 0
        && word(numbers, 44) == 0
}

/// Writes the description of an image that a check opened: 48 bytes, from which
/// `romtool_from_numbers` makes the image again over the same bytes. If no image is open, all of
/// them are 0.
///
/// Its words have 32 bits, and the least byte comes first. At 0 are the bytes `romtool` and a zero,
/// at 8 the version 1, at 12 the format, at 16 and 20 the lower and the upper half of the number of
/// bytes, at 24 the number of accessible bytes, at 28 the root, at 32 the number of references, at
/// 36 the depth, and then 8 zeros.
#[unsafe(no_mangle)]
pub extern "C" fn romtool_numbers_v3(image: &RomtoolImage<'_>, numbers: &mut [u8; 48])
    ensures closed { image.now.status ≢ 1 → numbers.new ≡ replicate 48 0 }
    ensures describes { image.now.status ≡ 1 → Describes numbers.new image.now }
{
    if image.status != OPEN {
        *numbers = [0; 48];
        return;
    }
    let len = image.bytes.len() as u64;
    let v = bytes_of(VERSION);
    let f = bytes_of(image.format);
    let l = bytes_of((len % 4_294_967_296) as u32);
    let h = bytes_of((len / 4_294_967_296) as u32);
    let a = bytes_of(image.accessible);
    let r = bytes_of(image.root);
    let n = bytes_of(image.references);
    let d = bytes_of(image.depth);
    *numbers = [
        b'r', b'o', b'm', b't', b'o', b'o', b'l', 0, v[0], v[1], v[2], v[3], f[0], f[1], f[2],
        f[3], l[0], l[1], l[2], l[3], h[0], h[1], h[2], h[3], a[0], a[1], a[2], a[3], r[0], r[1],
        r[2], r[3], n[0], n[1], n[2], n[3], d[0], d[1], d[2], d[3], 0, 0, 0, 0, 0, 0, 0, 0,
    ];
}

/// Returns the image that numbers describe.
fn described<'a>(bytes: &'a [u8], numbers: &[u8; 48]) -> RomtoolImage<'a>
    requires { (i : AnyRomtoolImage) × (i.status ≡ 1) × (i.bytes.now ≡ bytes.now)
        × HasNumbers numbers.now i }
    ensures bytes { result.bytes.now ≡ bytes.now }
    ensures open { result.status ≡ 1 }
    ensures numbers { HasNumbers numbers.now result }
    ensures fault { (result.fault ≡ 0) × (result.at ≡ 0) }
{
    RomtoolImage {
        bytes,
        status: OPEN,
        format: word(numbers, 12),
        fault: 0,
        at: 0,
        accessible: word(numbers, 24),
        root: word(numbers, 28),
        references: word(numbers, 32),
        depth: word(numbers, 36),
    }
}

/// Opens an image by its description, without a check, and without reading its bytes. Returns 0, or
/// 17 if the description does not begin as one, is of another version, or is one of another number
/// of bytes; then the image is closed.
///
/// A description that is not refused has to be one that `romtool_numbers` wrote for a checked image
/// with exactly these bytes.
#[unsafe(no_mangle)]
pub extern "C" fn romtool_from_numbers_v3<'a>(
    image: &mut RomtoolImage<'a>,
    bytes: &'a [u8],
    numbers: &[u8; 48],
) -> u32
    requires { IsDescription numbers.now (length bytes.now) → (i : AnyRomtoolImage)
        × (i.status ≡ 1) × (i.bytes.now ≡ bytes.now) × Describes numbers.now i }
    ensures bytes { image.new.bytes.now ≡ bytes.now }
    ensures codes { (result ≡ 0) ⊎ (result ≡ 17) }
    ensures open { result ≡ 0 → (image.new.status ≡ 1) × Describes numbers.now image.new }
    ensures sound { (image.new.fault ≡ 0) × (image.new.at ≡ 0) }
    ensures refused { result ≡ 17 → (IsDescription numbers.now (length bytes.now) → ⊥)
        × (image.new.status ≡ 0) × (image.new.format ≡ 0) }
    ensures numbers { result ≡ 17 → (image.new.accessible ≡ 0) × (image.new.root ≡ 0)
        × (image.new.references ≡ 0) × (image.new.depth ≡ 0) }
    ensures same { (i : AnyRomtoolImage) → i.status ≡ 1 → i.bytes.now ≡ bytes.now
        → Describes numbers.now i → (result ≡ 0) × (image.new.format ≡ i.format)
        × (image.new.accessible ≡ i.accessible) × (image.new.root ≡ i.root)
        × (image.new.references ≡ i.references) × (image.new.depth ≡ i.depth) }
{
    if !is_description(numbers, bytes.len() as u64) {
        *image = refused(bytes, 0, 0);
        return NUMBERS;
    }
    *image = described(bytes, numbers);
    0
}

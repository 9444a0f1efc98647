//! The example image `hello`.
ghost use Rattle.std.specs.Prelude.{◌≡◌, ◌+◌, ◌*◌, ◌≤◌, length};
ghost use Rattle.rom_commands.specs.Hello.{with_words, hello_image};

use rom_fields::put_be32;

/// Puts words one after the other from offset `at` on.
fn put_words(image: &mut [u8], at: usize, words: &[u32])
    requires { at + 4 * length words.now ≤ length image.old }
    ensures { image.new ≡ with_words image.old at words.now }
{
    let mut place = at;
    let mut rest = words;
    while !rest.is_empty() {
        let _ = put_be32(image, place, rest[0]);
        place += 4;
        rest = &rest[1..];
    }
}

/// Returns the image. Its root holds one file, `a`, with the bytes `hello`. Its size is 144.
pub fn hello() -> [u8; 144]
    ensures { result ≡ hello_image }
{
    let mut image = [0u8; 144];
    put_words(&mut image, 0, &[0x2d72_6f6d, 0x3166_732d, 144, 0xc9c1_b06a]);
    put_words(&mut image, 32, &[0x49, 32, 0, 0xd1ff_ff97, 0x2e00_0000]);
    put_words(&mut image, 64, &[0x60, 32, 0, 0xd1d1_ff80, 0x2e2e_0000]);
    put_words(&mut image, 96, &[0x02, 0, 5, 0x9eff_fff9, 0x6100_0000]);
    put_words(&mut image, 128, &[0x6865_6c6c, 0x6f00_0000]);
    image
}

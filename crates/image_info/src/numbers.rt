//! The numbers of an image.
ghost use Rattle.std.specs.Prelude.{◌≡◌};
ghost use Rattle.image_info.specs.Images.{number_of, numbers_of};

use formats::Format;
use image_check::AnyImage;
use rom_tree::TreeImage;

/// What a description says of an image.
#[derive(Clone, Copy, Debug, PartialEq, Eq)]
pub struct Numbers {
    /// The number of the format in the library for C.
    pub format: u32,
    /// The number of accessible bytes.
    pub size: u32,
    /// The number of the root's node.
    pub root: u32,
    pub references: u32,
    pub depth: u32,
}

/// Returns the number of a format in the library for C.
fn number_of(format: Format) -> u32
    ensures { result ≡ number_of format }
{
    match format {
        Format::Romfs => 1,
        Format::Cramfs => 2,
        Format::CramfsBig => 3,
    }
}

impl Numbers {
    /// Returns the numbers of a checked image.
    pub fn of(image: &AnyImage<'_>) -> Numbers
        ensures { result ≡ numbers_of image.now }
    {
        let report = image.report();
        Numbers {
            format: number_of(image.format()),
            size: image.size(),
            root: image.root().0,
            references: report.references,
            depth: report.depth,
        }
    }
}

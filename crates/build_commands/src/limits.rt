//! What is asked for of an image, what may refuse a planned one, and what follows it in its file.
ghost use Rattle.std.specs.Prelude.{◌≡◌};
ghost use Rattle.build_commands.specs.Limits.{most_of, padding_of};

use formats::Format;
use image_build::Padding;
use manifest_layout::Plan;

/// A partition that is filled: the number of its bytes, and each byte after the image.
#[derive(Clone, Copy, Debug, PartialEq, Eq)]
pub struct Partition {
    pub size: u64,
    pub fill: u8,
}

/// What is asked for of an image.
#[derive(Clone, Copy)]
pub struct Wanted<'a> {
    pub format: Format,
    /// The directory from which the sources' names start, if one is given.
    pub sources: Option<&'a str>,
    /// Whether it is refused if Linux would misread it.
    pub strict: bool,
    /// Whether it is refused if a program would not be executed in place.
    pub xip: bool,
    /// The most bytes that it may have, if there is a limit.
    pub max_size: Option<u64>,
    /// The partition that its file fills, if there is one.
    pub partition: Option<Partition>,
}

/// What Linux would misread: the line of the manifest, and the number of `romtool linux`.
#[derive(Clone, Copy, Debug, PartialEq, Eq)]
pub struct Misread {
    /// 0 if it is the whole image.
    pub line: u64,
    pub number: u32,
}

/// What Linux would make of a planned image, as a build foresees it.
#[derive(Clone, Copy, Debug, PartialEq, Eq)]
pub struct Foreseen {
    /// The first thing that Linux would misread, if it was looked for and there is one.
    pub misread: Option<Misread>,
    /// The number of programs, each of which Linux would execute in place, if they were looked at.
    pub programs: Option<u64>,
}

/// Returns the most bytes that an image may have, if there is a limit: that of `max_size`, or the
/// size of a partition if that is less.
pub fn most_bytes(wanted: &Wanted<'_>) -> Option<u64>
    ensures { result ≡ most_of wanted.now }
{
    let partition = wanted.partition.map(|partition| partition.size);
    match (wanted.max_size, partition) {
        (Some(most), Some(size)) => Some(most.min(size)),
        (most, size) => most.or(size),
    }
}

/// Returns the bytes that follow the image of a plan in its file.
pub(crate) fn padding_after(wanted: &Wanted<'_>, plan: &Plan) -> Padding
    ensures { result ≡ padding_of wanted.now plan.now.image_len }
{
    match wanted.partition {
        Some(partition) => Padding {
            len: partition.size.saturating_sub(plan.image_len() as u64),
            byte: partition.fill,
        },
        None => Padding { len: 0, byte: 0 },
    }
}

//! Parts of files, of which one is open at a time.
ghost use Rattle.std.specs.Prelude.{◌≡◌, ◌≢◌, ◌<◌, IfErr, length, map};
ghost use Rattle.std.specs.IoError.{error_kind};
ghost use Rattle.std.specs.Option.{ForSome};
ghost use Rattle.std.specs.Io.{ReadsAtMost};
ghost use Rattle.program_streams.specs.Streams.{ReadsFrom};
ghost use Rattle.file_sources.specs.Told.{Tells, told_by, contents_of, name_at};

use crate::opener::Opener;
use std::io::{self, ErrorKind};

/// The file that was opened last, by its number.
#[derive(Drop)]
pub(crate) struct Opened<F> {
    pub number: usize,
    pub file: F,
}

/// Reads a part of an open file, and repeats the call if a signal interrupted it.
fn read_again<O: Opener>(
    opener: &mut O,
    file: &O::File,
    at: u64,
    buf: &mut [u8],
) -> io::Result<usize>
    ensures bound { ReadsAtMost result buf.new }
    ensures bytes { ReadsFrom (contents_of (O.contents opener.old) (O.name_of file.now)) at result
        buf.new }
    ensures contents { O.contents opener.new ≡ O.contents opener.old }
    ensures log { Tells (O.IsLog opener.old) (O.IsLog opener.new)
        (told_by (O.name_of file.now) at result buf.new) }
    ensures retried { IfErr result (λ e. error_kind e ≢ ErrorKind.Interrupted) }
{
    for _ in 0..u64::MAX {
        match opener.read_at(file, at, buf) {
            Ok(n) => return Ok(n),
            Err(e) => {
                if e.kind() != ErrorKind::Interrupted {
                    return Err(e);
                }
            }
        }
    }
    Err(io::Error::from(ErrorKind::TimedOut))
}

/// Reads a part of the file of this number, which is opened if another one was open.
pub(crate) fn read_part<O: Opener>(
    opener: &mut O,
    from: (&[O::Name], &[O::State]),
    opened: &mut Option<Opened<O::File>>,
    number: usize,
    at: u64,
    buf: &mut [u8],
) -> io::Result<usize>
    requires number { number < length from.0.now }
    requires open { ForSome opened.old (λ o. O.name_of o.file
        ≡ name_at (map O.spelled from.0.now) o.number) }
    ensures open { ForSome opened.new (λ o. O.name_of o.file
        ≡ name_at (map O.spelled from.entry.0.now) o.number) }
    ensures bound { ReadsAtMost result buf.new }
    ensures bytes { ReadsFrom (contents_of (O.contents opener.old)
        (name_at (map O.spelled from.entry.0.now) number)) at result buf.new }
    ensures contents { O.contents opener.new ≡ O.contents opener.old }
    ensures log { Tells (O.IsLog opener.old) (O.IsLog opener.new)
        (told_by (name_at (map O.spelled from.entry.0.now) number) at result buf.new) }
{
    match opened {
        Some(open) if open.number == number => read_again(opener, &open.file, at, buf),
        _ => {
            let (names, states) = from;
            let (Some(name), Some(state)) = (names.get(number), states.get(number)) else {
                return Err(io::Error::from(ErrorKind::NotFound));
            };
            let file = opener.open(name, state)?;
            let n = read_again(opener, &file, at, buf)?;
            *opened = Some(Opened { number, file });
            Ok(n)
        }
    }
}

//! A dump that is compared with an image.
ghost use Rattle.std.specs.Prelude.{◌≤◌};
ghost use Rattle.rom_tree.specs.Tree.{IsShallow};
ghost use Rattle.image_check.specs.Any.{any_view};

use crate::reporter::Reporter;
use command_line::Verify;
use image_check::AnyImage;
use image_compare::{Dump, find_holder};
use memchr::memmem;
use program_streams::{Ahead, read_until};
use rom_fields::Plain;
use rom_tree::TreeImage;
use std::alloc::AllocError;
use std::fs::File;
use std::io::{self, BufReader, Seek, SeekFrom};
use std::str;
use system_files::open;

/// The number of bytes by which the front of an image is found in a dump.
const FRONT: usize = 64;

/// The most bytes of a dump that are searched for it.
const SEARCHED: u64 = 64 << 20;

/// A dump in a file.
#[derive(Drop)]
pub struct DumpFile<'a> {
    pub rt: &'a HostRuntime,
    pub name: &'a str,
}

impl Dump for DumpFile<'_> {
    type Reader = Ahead<BufReader<File>>;

    fn open(self, offset: u64) -> io::Result<(Ahead<BufReader<File>>, u64)> {
        let mut file = open(self.rt, self.name)?;
        // a pipe, for example, is read from its beginning on
        let before = match file.seek(SeekFrom::Start(offset)) {
            Ok(_) => 0,
            Err(_) => offset,
        };
        Ok((Ahead::new(BufReader::new(self.rt.alloc(), file)?), before))
    }
}

/// The offset in the dump at which the image begins, if its front is there.
fn offset_in(rt: &HostRuntime, dump: &str, image: &[u8]) -> Option<usize> {
    let front = image.get(..FRONT)?;
    let mut file = open(rt, dump).ok()?;
    let len = file.metadata().ok()?.len().min(SEARCHED);
    let mut bytes = Vec::new(rt.alloc());
    read_until(&mut file, &mut bytes, SEARCHED, len).ok()?;
    memmem::find(&bytes, front)
}

/// Explains where the dump differs.
///
/// # Errors
///
/// `AllocError` if memory was refused.
pub fn explain(
    reporter: &Reporter<'_>,
    image: &AnyImage<'_>,
    asked: Verify<'_>,
    at: usize,
) -> Result<(), AllocError>
    requires { IsShallow (any_view image.now).tree }
{
    let alloc = reporter.rt.alloc();
    let place = asked.offset.saturating_add(at as u64);
    let holder = match u32::try_from(at) {
        Ok(at) => find_holder(image, at),
        Err(_) => None,
    };
    let what = match holder {
        None => format!(in alloc; "the header or a list of the image")?,
        Some(walk) => {
            let mut path = Plain::new(Vec::new(alloc));
            walk.put_path(&mut path, &mut false);
            let path = path.into_inner();
            format!(in alloc; "the file {}", str::from_utf8(&path).unwrap_or(""))?
        }
    };
    let words = format!(in alloc;
        "byte {place} differs or is missing; it is byte {at} of the \
        image, in {what}"
    )?;
    reporter.explain(asked.dump.as_bytes(), &words);
    if at == 0
        && let Some(begin) = offset_in(reporter.rt, asked.dump, image.bytes())
    {
        let words = format!(in alloc; "the image begins at byte {begin}: --offset {begin}")?;
        reporter.explain(asked.dump.as_bytes(), &words);
    }
    Ok(())
}

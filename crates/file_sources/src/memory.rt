//! Files in memory, as an opener.
ghost use Rattle.std.specs.Prelude.{◌≡◌, ◌≤◌, Some, length, map};

use crate::opener::Opener;
use crate::sources::FileSources;
use image_stream::Sources;
use program_streams::ReadAt;
use std::io;
use std::marker::PhantomData;

/// Files in memory. The name of a file is a slice, and the file holds its bytes.
#[derive(Clone, Copy)]
pub struct InMemory<'c>(PhantomData<&'c [u8]>);

impl<'c> Opener for InMemory<'c> {
    ghost use Rattle.file_sources.specs.Told.{AreOfNames};

    type Name = &'c [u8];

    type State = ();

    type File = &'c [u8];

    ghost spelled = { λ n. n.now };

    ghost name_of = { λ f. f.now };

    ghost contents = { λ _. Some (λ name. name) };

    ghost IsLog = { λ _ log. AreOfNames log };

    fn open(&mut self, name: &&'c [u8], _: &()) -> io::Result<&'c [u8]> {
        Ok(*name)
    }

    fn read_at(&mut self, file: &&'c [u8], at: u64, buf: &mut [u8]) -> io::Result<usize> {
        file.read_at(buf, at)
    }

    fn end(&mut self) {}
}

/// Returns files in memory as sources. They tell these contents, as `image_stream::Slices` does.
pub fn in_memory<'c>(contents: &'c [&'c [u8]], states: &'c [()]) -> FileSources<'c, InMemory<'c>>
    requires { length contents.now ≤ length states.now }
    ensures files { ⟦<FileSources<'c, InMemory<'c>> as Sources>⟧.files result
        ≡ length contents.now }
    ensures known { ⟦<FileSources<'c, InMemory<'c>> as Sources>⟧.known result
        ≡ Some (map (λ c. c.now) contents.now) }
{
    FileSources::new(InMemory(PhantomData), contents, states)
}

//! An image that is extracted, with what reports how that goes.
ghost use Rattle.std.specs.Prelude.{◌≡◌, ◌<◌, length};
ghost use Rattle.image_check.specs.Any.{any_view};
ghost use Rattle.image_manifest.specs.ExtractedMembers.{made_in};

use crate::reporter::Reporter;
use crate::stop::{Line, Stop};
use crate::words::Words;
use image_check::AnyImage;
use image_manifest::ImageTree;
use rom_commands::Ending;
use system_files::Refusal;
use system_tree::{Members, Syncing};

/// An image, and the directory that it is extracted into, without slashes at its end.
#[derive(Clone, Copy)]
pub struct Extraction<'a> {
    pub reporter: &'a Reporter<'a>,
    pub tree: &'a ImageTree<'a, 'a, AnyImage<'a>>,
    pub directory: &'a str,
    /// Whether all names of the image are made, and not only those that patterns choose.
    pub is_whole: bool,
    /// How many programs begin at a page of the image, and have no such place in the manifest.
    pub unaligned: u64,
    /// Whether what is made is synced to the disk.
    pub syncing: Syncing,
}

impl<'a> Extraction<'a> {
    /// Returns what is made of the image.
    pub fn members(&self) -> Members<'a>
        ensures { result.tree ≡ self.now.tree }
    {
        Members {
            rt: self.reporter.rt,
            tree: self.tree,
            syncing: self.syncing,
        }
    }

    /// Checks that the system accepts the path of the member at an index, and a link's text.
    pub fn try_name(&self, index: usize) -> Result<(), Refusal>
        requires { index < length (made_in self.now.tree.now.giving
            (any_view self.now.tree.now.image.now) self.now.tree.now.kinds.now) }
    {
        self.members().try_name(index, self.directory.len())
    }

    /// Returns why an extraction stops if the member at an index cannot be made, or could not be.
    pub fn refused(&self, index: usize, why: Refusal) -> Stop
        requires { index < length (made_in self.now.tree.now.giving
            (any_view self.now.tree.now.image.now) self.now.tree.now.kinds.now) }
    {
        let alloc = self.reporter.rt.alloc();
        match self.members().named_in(self.directory, index) {
            Ok(name) if !why.is_memory() => Stop::of_file(alloc, &name, why),
            _ => Stop::Told(Line::Of(Ending::Memory), Words::new(alloc, true)),
        }
    }
}

//! The members of an image that is extracted, and the path of each in the directory.
ghost use Rattle.std.specs.Prelude.{◌≡◌, ◌<◌, ◌++◌, codes, length, string_bytes, IfOk};
ghost use Rattle.image_check.specs.Any.{any_view};
ghost use Rattle.image_manifest.specs.ExtractedMembers.{made_in};
ghost use Rattle.tree_extract.specs.Members.{path_at};

use crate::making::Syncing;
use arrayvec::ArrayVec;
use image_check::AnyImage;
use image_manifest::{ImageTree, PATH_MAX};
use std::alloc::AllocError;
use std::str;
use system_files::{Reason, Refusal};
use tree_extract::{Kind, Tree};

/// The most bytes of a name in Linux.
const LONGEST_NAME: usize = 255;

/// The most bytes of a path, or of a link's text, in Linux.
const LONGEST_PATH: usize = 4095;

/// Returns the text of a link, if the system accepts it.
///
/// # Errors
///
/// `LinkUnfit` if it is empty or too long, has a zero byte, or is no UTF-8.
pub fn accepted_text(text: &[u8]) -> Result<&str, Reason>
    ensures { IfOk result (λ s. s.now ≡ text.now) }
{
    if text.is_empty() || text.len() > LONGEST_PATH || text.contains(&0) {
        return Err(Reason::LinkUnfit);
    }
    match str::from_utf8(text) {
        Ok(text) => Ok(text),
        Err(_) => Err(Reason::LinkUnfit),
    }
}

/// The members of an image that are made in the current directory.
#[derive(Clone, Copy)]
pub struct Members<'a> {
    pub rt: &'a HostRuntime,
    pub tree: &'a ImageTree<'a, 'a, AnyImage<'a>>,
    /// Whether what is made is synced to the disk.
    pub syncing: Syncing,
}

impl Members<'_> {
    /// Returns the path of the member at an index, after that of a directory.
    ///
    /// # Errors
    ///
    /// `AllocError` if memory was refused.
    pub fn named_in(&self, directory: &str, index: usize) -> Result<Vec<u8>, AllocError>
        requires { index < length (made_in self.now.tree.now.giving
            (any_view self.now.tree.now.image.now) self.now.tree.now.kinds.now) }
        ensures { IfOk result (λ v. v.items ≡ directory.now
            ++ path_at (made_in self.now.tree.now.giving
            (any_view self.now.tree.now.image.now) self.now.tree.now.kinds.now) index) }
    {
        let mut path: ArrayVec<u8, PATH_MAX> = ArrayVec::new();
        self.tree.path(index, &mut path);
        let mut name = Vec::new(self.rt.alloc());
        name.extend_from_slice(directory.as_bytes())?;
        name.extend_from_slice(path.as_slice())?;
        Ok(name)
    }

    /// Returns the path at which the member at an index is made: from the current directory on,
    /// which is the one that the image is extracted into.
    ///
    /// # Errors
    ///
    /// The system's `OutOfMemory`; `NoText` if the path is no UTF-8.
    pub fn place(&self, index: usize) -> Result<String, Refusal>
        requires { index < length (made_in self.now.tree.now.giving
            (any_view self.now.tree.now.image.now) self.now.tree.now.kinds.now) }
        ensures { IfOk result (λ p. string_bytes p ≡ codes "."
            ++ path_at (made_in self.now.tree.now.giving
            (any_view self.now.tree.now.image.now) self.now.tree.now.kinds.now) index) }
    {
        match String::from_utf8(self.named_in(".", index)?) {
            Ok(place) => Ok(place),
            Err(_) => Err(Refusal::Reason(Reason::NoText)),
        }
    }

    /// Checks that the system accepts the path of the member at an index, and a link's text, and
    /// that the path after that of a directory of this length fits a manifest.
    ///
    /// # Errors
    ///
    /// The system's `OutOfMemory`; `NoText`; `NameUnfit`; `LinkUnfit`.
    pub fn try_name(&self, index: usize, before: usize) -> Result<(), Refusal>
        requires { index < length (made_in self.now.tree.now.giving
            (any_view self.now.tree.now.image.now) self.now.tree.now.kinds.now) }
    {
        let place = self.place(index)?;
        let longest = place.split('/').map(str::len).max().unwrap_or(0);
        // in the manifest, the path follows that of the directory
        let whole = place.len().saturating_add(before);
        if longest > LONGEST_NAME || whole > LONGEST_PATH + 1 {
            return Err(Refusal::Reason(Reason::NameUnfit));
        }
        match self.tree.kind(index) {
            Kind::Symlink => {
                accepted_text(self.tree.link_text(index))?;
                Ok(())
            }
            _ => Ok(()),
        }
    }
}

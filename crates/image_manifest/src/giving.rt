//! The rights of what is made.
ghost use Rattle.std.specs.Prelude.{◌≡◌};
ghost use Rattle.image_manifest.specs.Rights.{given_rights};

use rom_tree::Stat;
use tree_extract::{Owner, Rights};

/// The set-user and set-group bits of a mode.
pub const LENDING: u32 = 0o6000;

/// How the rights of an image's nodes are given to what is made of them.
#[derive(Clone, Copy, Debug, PartialEq, Eq)]
pub struct Giving {
    /// Whether modes and owners are those of the image.
    pub owners: bool,
    /// The bits of a mode that the process's mask removes from new files.
    pub masked: u32,
}

impl Giving {
    /// Returns the rights of what is made of a node with these attributes. With `owners` they are
    /// those of the node. Otherwise the owner is the user of the process, and the mode has no
    /// set-user and set-group bits, and no bits that the mask removes.
    pub fn rights(self, stat: Stat) -> Rights
        ensures { result ≡ given_rights self stat }
    {
        let Stat { mode, uid, gid, .. } = stat;
        if self.owners {
            Rights {
                mode,
                owner: Some(Owner { uid, gid }),
            }
        } else {
            Rights {
                mode: mode & !LENDING & !self.masked,
                owner: None,
            }
        }
    }
}

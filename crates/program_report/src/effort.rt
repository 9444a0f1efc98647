//! How much may be looked at for the needs of files.
ghost use Rattle.std.specs.Prelude.{◌≡◌, ◌+◌, ◌*◌, ◌<◌, ◌^◌, MatchOption, Some};
ghost use Rattle.std.specs.Bool.{OnFalse, OnTrue};
ghost use Rattle.rom_tree.specs.Image.{image_node, HasNode};
ghost use Rattle.rom_tree.specs.Names.{names};
ghost use Rattle.rom_tree.specs.Tree.{IsShallow, Node};
ghost use Rattle.program_report.specs.Effort.{effort, link_size, longest_link};

use crate::needs::FileNeeds;
use rom_tree::{NodeId, TreeImage, Walk, is_link_at};
use std::marker::Model;

/// How much may still be looked at for the needs of the files of an image. The prices, in bytes:
///
/// - a look-up costs 1, and one more for each 32 bytes of the image's longest link;
/// - an interpreter costs a look-up;
/// - an entry of a dynamic segment costs 1, and one more for each KiB of its file;
/// - a library costs 27 look-ups, and one for each byte of the run path, if that has at most 4,095.
///
/// Contracts see the bytes of the longest link, and how much is left.
#[derive(Drop)]
pub struct Effort {
    longest: u32,
    left: u64,
}

impl Model for Effort {
    ghost use Rattle.program_report.specs.Effort.{Allowance};

    ghost Value = { Allowance };

    ghost view = { λ e. record { longest = e.longest; left = e.left } };
}

/// Returns the number of bytes of a link's text, and 0 for other nodes.
fn link_size<'a, T: TreeImage<'a>>(image: &T, n: NodeId) -> u32
    requires { HasNode (T.image image.now) n.0 }
    ensures { (x : Node) → image_node (T.image image.now) n.0 ≡ Some x → result ≡ link_size x }
{
    if !is_link_at(image, n) {
        return 0;
    }
    image.stat(n).size
}

/// Returns the number of bytes of the longest link's text, or 0 if there is no link.
fn longest_link<'a, T: TreeImage<'a>>(image: &T) -> u32
    requires { IsShallow (T.image image.now).tree }
    ensures { result ≡ longest_link (names (T.image image.now).tree) }
{
    let mut longest = 0;
    let mut walk = Walk::new();
    while let Some(node) = walk.next(image) {
        let size = link_size(image, node);
        if size > longest {
            longest = size;
        }
    }
    longest
}

/// Returns what is left after so many things of a price, or `None` if they cost more.
fn paid(left: u64, price: u64, count: usize) -> Option<u64>
    requires { 0 < price }
    ensures { MatchOption result (left < count * price) (λ rest. rest + count * price ≡ left) }
{
    if left / price < count as u64 {
        return None;
    }
    Some(left - count as u64 * price)
}

/// Returns what is left after a file of this size, or `None` if it costs more.
#[tactic(auto, unfolding(crate::specs::Effort::effort))]
fn rest_after(longest: u32, left: u64, needs: &FileNeeds<'_>, size: u32) -> Option<u64>
    ensures { MatchOption result (left < effort longest size needs.now)
        (λ rest. rest + effort longest size needs.now ≡ left) }
{
    let look = 1 + u64::from(longest) / 32;
    let left = paid(left, look, needs.interpreters())?;
    let left = paid(left, 1 + u64::from(size) / 1_024, needs.entries())?;
    let directories = 27 + needs.run_path_size() as u64;
    paid(left, look * directories, needs.libraries())
}

impl Effort {
    /// Starts for the links of an image, with so many bytes and 2^20 more.
    pub fn of<'a, T: TreeImage<'a>>(image: &T, bytes: u64) -> Effort
        requires shallow { IsShallow (T.image image.now).tree }
        requires few { bytes < 2 ^ 63 }
        ensures { result ≡ record {
          longest = longest_link (names (T.image image.now).tree);
          left = 1048576 + bytes;
        } }
    {
        Effort {
            longest: longest_link(image),
            left: 1_048_576 + bytes,
        }
    }

    /// Takes what it costs to look at the needs of a file of this size. Returns `false` if that is
    /// more than is left. Then nothing is taken.
    pub fn take(&mut self, needs: &FileNeeds<'_>, size: u32) -> bool
        ensures longest { self.new.longest ≡ self.old.longest }
        ensures taken { OnTrue result
            (self.new.left + effort self.old.longest size needs.now ≡ self.old.left) }
        ensures too_much { OnFalse result
            (self.old.left < effort self.old.longest size needs.now) }
        ensures kept { OnFalse result (self.new.left ≡ self.old.left) }
    {
        match rest_after(self.longest, self.left, needs, size) {
            Some(left) => {
                self.left = left;
                true
            }
            None => false,
        }
    }
}

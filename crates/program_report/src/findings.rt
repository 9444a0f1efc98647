//! What is found of files, looked for once for all files that share their bytes.
ghost use Rattle.std.specs.Prelude.{◌≡◌, ◌<◌, IfSome, Some, length};
ghost use Rattle.rom_tree.specs.Tree.{Node};
ghost use Rattle.rom_tree.specs.Image.{image_node, HasNode};
ghost use Rattle.image_check.specs.Any.{any_view};
ghost use Rattle.program_report.specs.Found.{found_in};
ghost use Rattle.program_report.specs.Findings.{AreFindings};

use crate::finding::{Found, found_in};
use crate::question::Question;
use image_check::{AnyImage, Parts};
use image_info::{Data, LEAST_KEPT, data_of};
use rom_tree::{NodeId, is_regular_at};
use std::alloc::Global;
use std::collections::BTreeMap;

/// What is kept of an image while its programs are looked for: its numbers, and what was found so
/// far, by where the bytes are.
#[derive(Drop)]
pub(crate) struct Findings {
    parts: Parts,
    known: BTreeMap<Data, Option<Found>>,
}

impl Findings {
    /// Returns that nothing was looked for yet.
    pub(crate) fn new(alloc: Global, image: &AnyImage<'_>, question: &Question) -> Findings
        ensures { AreFindings image.now question.now result }
    {
        Findings {
            parts: image.parts(),
            known: BTreeMap::new(alloc),
        }
    }

    /// Returns what is found of a node, or `None` if it is no program. Its bytes are looked at
    /// again only if memory was refused to keep what was found, or if the file is small.
    pub(crate) fn of(
        &mut self,
        image: &AnyImage<'_>,
        question: &Question,
        n: NodeId,
    ) -> Option<Found>
        requires node { HasNode (any_view image.now) n.0 }
        requires known { AreFindings image.now question.now self.old }
        ensures is { (x : Node) → image_node (any_view image.now) n.0 ≡ Some x
            → result ≡ found_in image.now question.now x }
        ensures within { IfSome result (λ f. f.start < length (any_view image.now).bytes) }
        ensures known { AreFindings image.now question.now self.new }
    {
        if !is_regular_at(image, n) {
            return None;
        }
        let data = data_of(image, self.parts, n);
        if let Some(found) = self.known.get(&data) {
            return *found;
        }
        let found = found_in(image, question, n);
        if data.size >= LEAST_KEPT {
            match self.known.insert(data, found) {
                Ok(_) => {}
                Err(_) => {}
            }
        }
        found
    }
}

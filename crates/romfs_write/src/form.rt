//! A plan as an image that can be written segment by segment.
ghost use Rattle.std.specs.Prelude.{◌≡◌, ◌+◌, ◌<◌, ◌≤◌, ◌^◌, ℕ, List, [], length, take, drop};
ghost use Rattle.std.specs.Prelude.{get_or};
ghost use Rattle.image_stream.specs.Segments.{fixed};
ghost use Rattle.manifest_tree.specs.Bodies.{item_at};
ghost use Rattle.manifest_tree.specs.Items.{section, super};
ghost use Rattle.formats.specs.Format.{romfs};
ghost use Rattle.manifest_tree.specs.Names.{bytes_of};
ghost use Rattle.manifest_layout.specs.Views.{fill_view, item_view, section_view};
ghost use Rattle.romfs_format.specs.Record.{pad16};
ghost use Rattle.romfs_layout.specs.Composed.{written};
ghost use Rattle.romfs_layout.specs.Layout.{record_len};
ghost use Rattle.romfs_write.specs.Form.{form_of, full_size, segment_of};
ghost use Rattle.romfs_write.specs.Known.{IsBody, IsRomfsPlan};

use crate::header::{put_header, put_superblock};
use image_stream::{Outline, Segmented};
use manifest_layout::{Body, Fill, Item, Plan, Section};

/// The plan of a romfs image.
#[derive(Clone, Copy)]
pub struct RomfsForm<'p> {
    plan: &'p Plan,
    ghost romfs: { plan.now.format ≡ romfs },
}

/// Shows the known facts of the plan of a romfs image.
pub fn facts(plan: &Plan)
    requires { plan.now.format ≡ romfs }
    ensures plan { IsRomfsPlan plan.now }
    ensures count { length plan.now.sections < 2 ^ 64 }
{
    let _ = (plan.image_len(), plan.sections());
    manifest_layout::laws::fitting_is_planned();
}

/// Returns the least multiple of 16 that is at least the length of a name with its zero.
fn padded_len(name: &[u8]) -> usize
    ensures { result ≡ pad16 (length name.now + 1) }
{
    (name.len() + 16) / 16 * 16
}

/// Fills `out` with the bytes from `from` on of an item's header.
fn fill_record(item: &Item, from: usize, out: &mut [u8])
    requires short { length item.now.name < 256 }
    requires within { from + length out.old ≤ record_len item.now.name }
    ensures { out.new ≡ take (length out.new) (drop from (written (item_view item.now))) }
{
    let mut space: [u8; 272] = [0; 272];
    let name = item.name.as_bytes();
    let whole = &mut space[..16 + padded_len(name)];
    put_header(item.words, name, whole);
    out.copy_from_slice(&whole[from..from + out.len()]);
}

/// Fills `out` with the bytes from `from` on of a link's text.
fn fill_text(fill: &Fill, from: usize, out: &mut [u8])
    requires { from + length out.old ≤ length (bytes_of [] (fill_view fill.now)) }
    ensures { out.new ≡ take (length out.new) (drop from (bytes_of [] (fill_view fill.now))) }
{
    if let Fill::Text(text) = fill {
        out.copy_from_slice(&text.as_bytes()[from..from + out.len()]);
    }
}

impl<'p> RomfsForm<'p> {
    /// Returns the form of a plan.
    pub fn new(plan: &'p Plan) -> RomfsForm<'p>
        requires { plan.now.format ≡ romfs }
        ensures { result.plan.now ≡ plan.now }
    {
        RomfsForm { plan }
    }

    /// Returns the size that the superblock stores.
    fn full_size(&self) -> u32
        ensures { result ≡ full_size self.now.plan.now.items }
    {
        facts(self.plan);
        let items = self.plan.items();
        let item = &items[items.len() - 1];
        let record = 16 + padded_len(item.name.as_bytes());
        let end = item.place as usize + record + item.len as usize;
        ((end + 15) / 16 * 16) as u32
    }

    /// Returns the section at an index behind the superblock.
    fn section_behind(&self, i: usize) -> Section
        requires { i < length (drop 1 self.now.plan.now.sections) }
        ensures is { section_view result
            ≡ get_or (drop 1 self.now.plan.now.sections) i (section 0 0 super) }
        ensures body { IsBody self.now.plan.now.items self.now.plan.now.sizes result.len
            (section_view result).body }
    {
        facts(self.plan);
        match self.plan.section(i + 1) {
            Some(section) => section,
            None => Section {
                place: 0,
                len: 0,
                body: Body::Super,
            },
        }
    }

    /// Fills `out` with the bytes from `from` on of a section that is not a file's contents.
    fn fill_section(&self, section: Section, from: usize, out: &mut [u8])
        requires body { IsBody self.now.plan.now.items self.now.plan.now.sizes section.len
            (section_view section).body }
        requires within { from + length out.old ≤ section.len }
        ensures { (place : ℕ) (bytes : List ℕ)
            → segment_of self.now.plan.now.items (section_view section) ≡ fixed place bytes
            → out.new ≡ take (length out.new) (drop from bytes) }
    {
        match section.body {
            Body::Record { item } => fill_record(&self.plan.items()[item], from, out),
            Body::Text { item } => fill_text(&self.plan.items()[item].fill, from, out),
            _ => {}
        }
    }
}

impl Segmented for RomfsForm<'_> {
    ghost form = { λ s. form_of s.plan.now };

    fn files(&self) -> usize {
        self.plan.sizes().len()
    }

    fn size(&self, file: usize) -> u64 {
        self.plan.sizes()[file]
    }

    fn head_len(&self) -> usize {
        16 + padded_len(self.plan.volume())
    }

    fn image_len(&self) -> usize {
        self.plan.image_len()
    }

    fn fill_head(&self, stored: u32, out: &mut [u8]) {
        put_superblock(self.plan.volume(), self.full_size(), stored, out);
    }

    fn count(&self) -> usize {
        self.plan.sections().saturating_sub(1)
    }

    fn segment(&self, i: usize) -> Outline {
        let section = self.section_behind(i);
        Outline {
            place: section.place,
            len: section.len,
            source: match section.body {
                Body::Content { file } => Some(file),
                _ => None,
            },
        }
    }

    fn fill(&self, i: usize, from: usize, out: &mut [u8]) {
        self.fill_section(self.section_behind(i), from, out);
    }
}

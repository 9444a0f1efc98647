//! A plan as an image that can be written segment by segment.
ghost use Rattle.std.specs.Prelude.{◌≡◌, ◌+◌, ◌*◌, ◌%◌, ◌<◌, ◌≤◌, ◌^◌, ℕ, List, [], length, take};
ghost use Rattle.std.specs.Prelude.{drop, get_or};
ghost use Rattle.cramfs_format.specs.Inode.{block_count};
ghost use Rattle.cramfs_format.specs.declared.order.Order.{Order};
ghost use Rattle.cramfs_layout.specs.Composed.{written, table};
ghost use Rattle.cramfs_layout.specs.Layout.{entry_len};
ghost use Rattle.image_stream.specs.Segments.{fixed};
ghost use Rattle.manifest_tree.specs.Items.{section, super};
ghost use Rattle.formats.specs.Format.{cramfs};
ghost use Rattle.manifest_tree.specs.Names.{bytes_of};
ghost use Rattle.manifest_layout.specs.Views.{fill_view, item_view, section_view};
ghost use Rattle.cramfs_write.specs.Form.{form_of, segment_of};
ghost use Rattle.cramfs_write.specs.Known.{IsBody, IsCramfsPlan};

use crate::record::{put_inode, put_pointers, put_superblock};
use cramfs_format::Order;
use image_stream::{Outline, Segmented};
use manifest_layout::{Body, Fill, Item, Plan, Section};

/// The plan of a cramfs image.
#[derive(Clone, Copy)]
pub struct CramfsForm<'p> {
    plan: &'p Plan,
    order: Order,
    ghost cramfs: { plan.now.format ≡ cramfs order },
}

/// Shows the known facts of the plan of a cramfs image.
pub fn facts(order: Order, plan: &Plan)
    requires { plan.now.format ≡ cramfs order }
    ensures plan { IsCramfsPlan plan.now }
    ensures count { length plan.now.sections < 2 ^ 64 }
{
    let _ = (plan.image_len(), plan.sections());
    manifest_layout::laws::fitting_is_planned();
}

/// Returns the byte order of the plan of a cramfs image.
pub fn order_of(plan: &Plan) -> Order
    requires { (o : Order) × (plan.now.format ≡ cramfs o) }
    ensures { plan.now.format ≡ cramfs result }
{
    let Some(order) = plan.format().order() else {
        unreachable!();
    };
    order
}

/// Fills `out` with the bytes from `from` on of an item's inode.
fn fill_record(order: Order, item: &Item, from: usize, out: &mut [u8])
    requires short { length item.now.name ≤ 252 }
    requires within { from + length out.old ≤ entry_len item.now.name }
    ensures { out.new ≡ take (length out.new) (drop from (written order (item_view item.now))) }
{
    let mut space: [u8; 264] = [0; 264];
    let end = put_inode(
        order,
        item.words,
        item.name.as_bytes(),
        space.as_mut_slice(),
    );
    let whole = &space[..end];
    out.copy_from_slice(&whole[from..from + out.len()]);
}

/// Fills `out` with the bytes from `from` on of an item's table.
fn fill_table(order: Order, item: &Item, from: usize, out: &mut [u8])
    requires low { item.now.start + item.now.len ≤ 2 ^ 28 }
    requires within { from + length out.old ≤ 4 * block_count item.now.len }
    requires from_word { from % 4 ≡ 0 }
    requires words { length out.old % 4 ≡ 0 }
    ensures { out.new ≡ take (length out.new) (drop from (table order (item_view item.now))) }
{
    put_pointers(order, item.start + 1024 * from as u32, out);
}

/// Fills `out` with the bytes from `from` on of a link's text.
fn fill_text(fill: &Fill, from: usize, out: &mut [u8])
    requires { from + length out.old ≤ length (bytes_of [] (fill_view fill.now)) }
    ensures { out.new ≡ take (length out.new) (drop from (bytes_of [] (fill_view fill.now))) }
{
    if let Fill::Text(text) = fill {
        out.copy_from_slice(&text.as_bytes()[from..from + out.len()]);
    }
}

impl<'p> CramfsForm<'p> {
    /// Returns the form of a plan in this byte order.
    pub fn new(plan: &'p Plan, order: Order) -> CramfsForm<'p>
        requires { plan.now.format ≡ cramfs order }
        ensures plan { result.plan.now ≡ plan.now }
        ensures order { result.order ≡ order }
    {
        CramfsForm { plan, order }
    }

    /// Fills `out` with the superblock that stores this crc.
    fn fill_super(&self, stored: u32, out: &mut [u8])
        requires { length out.old ≡ 76 }
        ensures { out.new ≡ (form_of self.now.order self.now.plan.now).head stored }
    {
        facts(self.order, self.plan);
        let items = self.plan.items();
        put_superblock(
            self.order,
            self.plan.image_len() as u32,
            items.len() as u32,
            self.plan.volume(),
            items[0].words,
            stored,
            out,
        );
    }

    /// Returns the section at an index behind the superblock.
    fn section_behind(&self, i: usize) -> Section
        requires { i < length (drop 1 self.now.plan.now.sections) }
        ensures is { section_view result
            ≡ get_or (drop 1 self.now.plan.now.sections) i (section 0 0 super) }
        ensures body { IsBody self.now.plan.now.items self.now.plan.now.sizes result.len
            (section_view result).body }
    {
        facts(self.order, self.plan);
        match self.plan.section(i + 1) {
            Some(section) => section,
            None => Section {
                place: 0,
                len: 0,
                body: Body::Super,
            },
        }
    }

    /// Fills `out` with the bytes from `from` on of a section that is not a file's contents.
    fn fill_section(&self, section: Section, from: usize, out: &mut [u8])
        requires body { IsBody self.now.plan.now.items self.now.plan.now.sizes section.len
            (section_view section).body }
        requires within { from + length out.old ≤ section.len }
        requires from_word { from % 4 ≡ 0 }
        requires words { section.len % 4 ≡ 0 → length out.old % 4 ≡ 0 }
        ensures { (place : ℕ) (bytes : List ℕ)
            → segment_of self.now.order self.now.plan.now.items (section_view section)
            ≡ fixed place bytes
            → out.new ≡ take (length out.new) (drop from bytes) }
    {
        let order = self.order;
        match section.body {
            Body::Record { item } => fill_record(order, &self.plan.items()[item], from, out),
            Body::Table { item } => fill_table(order, &self.plan.items()[item], from, out),
            Body::Text { item } => fill_text(&self.plan.items()[item].fill, from, out),
            _ => {}
        }
    }
}

impl Segmented for CramfsForm<'_> {
    ghost form = { λ s. form_of s.order s.plan.now };

    fn files(&self) -> usize {
        self.plan.sizes().len()
    }

    fn size(&self, file: usize) -> u64 {
        self.plan.sizes()[file]
    }

    fn head_len(&self) -> usize {
        76
    }

    fn image_len(&self) -> usize {
        self.plan.image_len()
    }

    fn fill_head(&self, stored: u32, out: &mut [u8]) {
        self.fill_super(stored, out);
    }

    fn count(&self) -> usize {
        self.plan.sections().saturating_sub(1)
    }

    fn segment(&self, i: usize) -> Outline {
        let section = self.section_behind(i);
        Outline {
            place: section.place,
            len: section.len,
            source: match section.body {
                Body::Content { file } => Some(file),
                _ => None,
            },
        }
    }

    fn fill(&self, i: usize, from: usize, out: &mut [u8]) {
        self.fill_section(self.section_behind(i), from, out);
    }
}

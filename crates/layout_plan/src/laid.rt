//! The items and the sections of an image, in each format.
ghost use Rattle.std.specs.List.{AllByRecursion as Every};
ghost use Rattle.std.specs.Prelude.{◌≡◌, ◌<◌, ℕ, List, map, length, IfOk, MatchOption};
ghost use Rattle.layout_plan.specs.Ready.{IsReady};
ghost use Rattle.manifest_tree.specs.Items as terms;
ghost use Rattle.manifest.specs.Grammar.{IsManifest};
ghost use Rattle.manifest.specs.Lines.{ManifestLines};
ghost use Rattle.formats.specs.Format.{romfs, cramfs};
ghost use Rattle.manifest_layout.specs.Format.{items_of, sections_of, len_of};
ghost use Rattle.manifest_layout.specs.Misfit.{HasWholeMisfit, HasNoMisfit};
ghost use Rattle.plan_rows.specs.Rows.{inode_view, row_view};
ghost use Rattle.formats.specs.Format.{format_of};
ghost use Rattle.manifest_layout.specs.Views.{item_view, section_view};

use cramfs_format::Order;
use manifest_layout::{Format, Item, Laid, Section};
use plan_rows::{Inode, Row};
use rom_fields::OutOfMemory;
use std::alloc::Global;

/// Returns the layout in romfs of a manifest whose lines fit, or nothing if the whole is too large.
fn place_romfs<'a>(
    alloc: Global,
    volume: &[u8],
    root: &Inode<'a>,
    rows: &[Row<'a>],
) -> Result<Option<Laid>, OutOfMemory>
    requires { (m : ManifestLines) × (sizes : List ℕ)
        × IsReady romfs m sizes volume.now (inode_view root.now) (map row_view rows.now) }
    ensures { (m : ManifestLines) (sizes : List ℕ)
        → IsReady romfs m sizes volume.now (inode_view root.now) (map row_view rows.now)
        → IfOk result (λ o. MatchOption o (HasWholeMisfit romfs m sizes)
        (λ l. HasNoMisfit romfs m sizes × (l.image_len ≡ len_of romfs m sizes)
        × (map item_view l.items.items ≡ items_of romfs m sizes))) }
{
    let Some(image_len) = romfs_plan::image_len(volume, rows) else {
        return Ok(None);
    };
    let items = romfs_plan::items(alloc, volume, root, rows)?;
    Ok(Some(Laid { image_len, items }))
}

/// Returns the layout in cramfs of a manifest whose lines fit, or nothing if the whole is too
/// large.
fn place_cramfs<'a>(
    alloc: Global,
    order: Order,
    volume: &[u8],
    root: &Inode<'a>,
    rows: &[Row<'a>],
) -> Result<Option<Laid>, OutOfMemory>
    requires { (m : ManifestLines) × (sizes : List ℕ)
        × IsReady (cramfs order) m sizes volume.now (inode_view root.now) (map row_view rows.now) }
    ensures { (m : ManifestLines) (sizes : List ℕ)
        → IsReady (cramfs order) m sizes volume.now (inode_view root.now) (map row_view rows.now)
        → IfOk result (λ o. MatchOption o (HasWholeMisfit (cramfs order) m sizes)
        (λ l. HasNoMisfit (cramfs order) m sizes × (l.image_len ≡ len_of (cramfs order) m sizes)
        × (map item_view l.items.items ≡ items_of (cramfs order) m sizes))) }
{
    cramfs_plan::lay_out(alloc, order, root, rows)
}

/// Returns the layout of a manifest whose lines fit, or nothing if the whole is too large.
pub fn place<'a>(
    alloc: Global,
    format: Format,
    volume: &[u8],
    root: &Inode<'a>,
    rows: &[Row<'a>],
) -> Result<Option<Laid>, OutOfMemory>
    requires { (m : ManifestLines) × (sizes : List ℕ)
        × IsReady (format_of format) m sizes volume.now (inode_view root.now)
        (map row_view rows.now) }
    ensures { (m : ManifestLines) (sizes : List ℕ)
        → IsReady (format_of format) m sizes volume.now (inode_view root.now)
        (map row_view rows.now)
        → IfOk result (λ o. MatchOption o (HasWholeMisfit (format_of format) m sizes)
        (λ l. HasNoMisfit (format_of format) m sizes
        × (l.image_len ≡ len_of (format_of format) m sizes)
        × (map item_view l.items.items ≡ items_of (format_of format) m sizes))) }
{
    match format {
        Format::Romfs => place_romfs(alloc, volume, root, rows),
        Format::Cramfs => place_cramfs(alloc, Order::Little, volume, root, rows),
        Format::CramfsBig => place_cramfs(alloc, Order::Big, volume, root, rows),
    }
}

/// Returns the sections of these items.
pub fn sections(
    alloc: Global,
    format: Format,
    volume: &[u8],
    items: &[Item],
) -> Result<Vec<Section>, OutOfMemory>
    requires { (m : ManifestLines) × (sizes : List ℕ) × IsManifest m
        × HasNoMisfit (format_of format) m sizes
        × (volume.now ≡ m.volume) ×
        (map item_view items.now ≡ items_of (format_of format) m sizes) }
    ensures { (m : ManifestLines) (sizes : List ℕ) → IsManifest m
        → HasNoMisfit (format_of format) m sizes
        → volume.now ≡ m.volume → map item_view items.now ≡ items_of (format_of format) m sizes
        → IfOk result (λ found. map section_view found.items
        ≡ sections_of (format_of format) m sizes) }
{
    match format {
        Format::Romfs => romfs_plan::sections(alloc, volume, items),
        Format::Cramfs | Format::CramfsBig => cramfs_plan::sections(alloc, items),
    }
}

//! The sections of a romfs image.
ghost use Rattle.std.specs.Prelude.{◌≡◌, ◌<◌, IfOk, map, length};
ghost use Rattle.std.specs.List.{AllByRecursion as Every};
ghost use Rattle.std.specs.Option.{option_map, option_to_list};
ghost use Rattle.manifest_tree.specs.Items.{section, record_of, bytes_section};
ghost use Rattle.manifest_layout.specs.Views.{item_view, section_view};
ghost use Rattle.romfs_layout.specs.Items.{sections_of};
ghost use Rattle.romfs_layout.specs.Layout.{record_len};

use crate::places::record_len;
use crate::size::root_at;
use manifest_layout::{Body, Fill, Item, Section};
use rom_fields::OutOfMemory;
use std::alloc::Global;

/// Returns the section of an item's header.
fn record_section(index: usize, item: &Item) -> Section
    requires { length (item_view item.now).name < 256 }
    ensures { section_view result
        ≡ section item.now.place (record_len (item_view item.now).name) (record_of index) }
{
    Section {
        place: item.place,
        len: record_len(item.name.as_bytes()),
        body: Body::Record { item: index },
    }
}

/// Returns the section of an item's bytes, if it has any.
fn bytes_section(index: usize, item: &Item) -> Option<Section>
    ensures { option_to_list (option_map section_view result)
        ≡ bytes_section index (item_view item.now) }
{
    if item.len == 0 {
        return None;
    }
    let body = match item.fill {
        Fill::Nothing => return None,
        Fill::Text(_) => Body::Text { item: index },
        Fill::File(file) => Body::Content { file },
    };
    Some(Section {
        place: item.start,
        len: item.len,
        body,
    })
}

/// Returns the sections of an image with these items, in the order of their offsets: the
/// superblock, and each header with its bytes behind it.
pub fn sections(alloc: Global, volume: &[u8], items: &[Item]) -> Result<Vec<Section>, OutOfMemory>
    requires volume { length volume.now < 256 }
    requires names { Every (λ i. length i.name < 256) (map item_view items.now) }
    ensures { IfOk result (λ v. map section_view v.items
        ≡ sections_of volume.now (map item_view items.now)) }
{
    let mut found = Vec::new(alloc);
    found.push(Section {
        place: 0,
        len: root_at(volume) as u32,
        body: Body::Super,
    })?;
    for index in 0..items.len() {
        let item = &items[index];
        found.push(record_section(index, item))?;
        if let Some(section) = bytes_section(index, item) {
            found.push(section)?;
        }
    }
    Ok(found)
}

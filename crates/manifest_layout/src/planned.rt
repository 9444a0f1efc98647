//! The plan of an image.
ghost use Rattle.std.specs.Prelude.{◌≡◌, map, length};
ghost use Rattle.std.specs.Option.{option_map};
ghost use Rattle.formats.specs.Format.{format_of};
ghost use Rattle.manifest_layout.specs.Plans.{IsPlan, section_at};
ghost use Rattle.manifest_layout.specs.Views.{item_view, plan_view, section_view};

use crate::item::Item;
use crate::laid::Laid;
use crate::section::Section;
use formats::Format;
use manifest::Name;
use std::marker::Model;

/// The offsets of all that an image of some manifest holds. Contracts see it in the words of the
/// layout's definitions.
#[derive(Drop)]
pub struct Plan {
    format: Format,
    volume: Name,
    image_len: usize,
    items: Vec<Item>,
    sections: Vec<Section>,
    sizes: Vec<u64>,
}

impl Model for Plan {
    ghost use Rattle.manifest_layout.specs.Plans.{IsPlan, Planned};
    ghost use Rattle.manifest_layout.specs.Views.{plan_view};

    ghost Value = { Planned };

    ghost view = { λ p. plan_view p.format p.volume p.image_len p.items.items p.sections.items
        p.sizes.items };

    ghost invariant = { λ p. IsPlan (plan_view p.format p.volume p.image_len p.items.items
        p.sections.items p.sizes.items) };
}

impl Plan {
    /// Returns the plan of what was laid out, in this format, with these sizes of the sources.
    pub fn new(
        format: Format,
        volume: Name,
        laid: Laid,
        sections: Vec<Section>,
        sizes: Vec<u64>,
    ) -> Plan
        requires { IsPlan (plan_view format volume laid.image_len laid.items.items sections.items
            sizes.items) }
        ensures { result ≡ plan_view format volume laid.image_len laid.items.items sections.items
            sizes.items }
    {
        Plan {
            format,
            volume,
            image_len: laid.image_len,
            items: laid.items,
            sections,
            sizes,
        }
    }

    /// Returns the length of the image in bytes. It is the image of a manifest that fits.
    pub fn image_len(&self) -> usize
        ensures len { result ≡ self.now.image_len }
        ensures planned { IsPlan self.now }
    {
        self.image_len
    }

    /// Returns the format of the image.
    pub fn format(&self) -> Format
        ensures { format_of result ≡ self.now.format }
    {
        self.format
    }

    /// Returns the name of the volume.
    pub fn volume(&self) -> &[u8]
        ensures { result.now ≡ self.now.volume }
    {
        self.volume.as_bytes()
    }

    /// Returns the records, the root's first, in the order of their offsets.
    pub fn items(&self) -> &[Item]
        ensures { map item_view result.now ≡ self.now.items }
    {
        self.items.as_slice()
    }

    /// Returns the number of bytes that each source is to have.
    pub fn sizes(&self) -> &[u64]
        ensures { result.now ≡ self.now.sizes }
    {
        self.sizes.as_slice()
    }

    /// Returns the number of sections of the image.
    pub fn sections(&self) -> usize
        ensures { result ≡ length self.now.sections }
    {
        self.sections.len()
    }

    /// Returns the section at an index, or nothing past the last. Sections are one after the other,
    /// and none is empty.
    pub fn section(&self, i: usize) -> Option<Section>
        ensures { option_map section_view result ≡ section_at self.now.sections i }
    {
        if i < self.sections.len() {
            Some(self.sections[i])
        } else {
            None
        }
    }
}

//! The length of an image, and its records.
use crate::item::Item;

/// The length of an image in bytes, and its items in the order of their offsets, the root's first.
#[derive(Drop)]
pub struct Laid {
    pub image_len: usize,
    pub items: Vec<Item>,
}

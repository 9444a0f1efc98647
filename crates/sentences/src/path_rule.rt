//! The rule of docs/MANIFEST.md that a path, a link's text or a volume's name breaks.
use percent_encoding::percent_decode;
use std::alloc::{AllocError, Global};

/// The most bytes of a path, and of a link's text.
const PATH_MOST: usize = 4095;

/// The most bytes of a name.
const NAME_MOST: usize = 255;

/// What a field of a manifest has to be.
#[derive(Clone, Copy, PartialEq, Eq)]
pub enum Meant {
    /// A path, which may be that of the root.
    Directory,
    /// A path that is not that of the root.
    Path,
    /// The text of a symbolic link.
    Target,
    /// The name of a volume.
    Volume,
}

/// The rule that a name on a path breaks, if it breaks one.
fn rule_of_name(name: &[u8]) -> Option<&'static str> {
    match name {
        [] => Some("has an empty name, between two slashes or at its end"),
        [b'.'] | [b'.', b'.'] => Some("has a name . or .."),
        _ if name.len() > NAME_MOST => Some("has a name of more than 255 bytes"),
        _ => None,
    }
}

/// The rule that the names after a path's first slash break, if they break one.
fn rule_of_names(names: &[u8]) -> Option<&'static str> {
    names.split(|byte| *byte == b'/').find_map(rule_of_name)
}

/// The rule of paths that a text breaks, if it breaks one.
fn rule_of_path(path: &[u8], meant: Meant) -> Option<&'static str> {
    match path {
        [b'/'] if meant == Meant::Directory => None,
        [b'/'] => Some("is the root, which is not allowed here"),
        [b'/', names @ ..] => rule_of_names(names),
        _ => Some("does not begin with a slash"),
    }
}

/// The rule that a decoded text breaks, if it breaks one.
fn rule_of(text: &[u8], meant: Meant) -> Option<&'static str> {
    if text.contains(&0) {
        return Some("has a zero byte");
    }
    match meant {
        Meant::Volume if text.len() > NAME_MOST => Some("has more than 255 bytes"),
        Meant::Volume => None,
        _ if text.len() > PATH_MOST => Some("has more than 4095 bytes"),
        Meant::Target => None,
        Meant::Directory | Meant::Path => rule_of_path(text, meant),
    }
}

/// Returns the rule that an escaped field of a manifest breaks, if it breaks one.
///
/// # Errors
///
/// `OutOfMemory`.
pub fn broken(
    alloc: Global,
    field: &[u8],
    meant: Meant,
) -> Result<Option<&'static str>, AllocError> {
    let mut text = Vec::new(alloc);
    percent_decode(field).append_to(&mut text)?;
    Ok(rule_of(&text, meant))
}

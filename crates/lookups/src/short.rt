//! The keys under which answers are kept.
ghost use Rattle.std.specs.Prelude.{◌≡◌, ◌<◌, length, IfSome, IfNone};

use arrayvec::ArrayVec;

/// A directory's number and a name.
#[derive(PartialEq, Eq, Hash, Drop)]
pub(crate) struct Key {
    pub(crate) directory: u32,
    pub(crate) name: ArrayVec<u8, 255>,
}

/// The key of a name in a directory, or `None` if the name is longer than 255 bytes.
pub(crate) fn short_name(directory: u32, name: &[u8]) -> Option<Key>
    ensures directory { IfSome result (λ k. k.directory ≡ directory) }
    ensures name { IfSome result (λ k. k.name.items ≡ name.now) }
    ensures none { IfNone result (255 < length name.now) }
{
    let mut short: ArrayVec<u8, 255> = ArrayVec::new();
    match short.try_extend_from_slice(name) {
        Ok(()) => Some(Key {
            directory,
            name: short,
        }),
        Err(_) => None,
    }
}

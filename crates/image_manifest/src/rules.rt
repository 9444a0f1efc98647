//! What the lines of an image's files have besides what the image stores.

/// The directory of the sources, and the alignment of files that are executed in place.
#[derive(Clone, Copy)]
pub struct FileRules<'a> {
    /// The directory of the sources: `/bin/sh` has the source `app/bin/sh` in the directory `app`.
    pub directory: &'a [u8],
    /// The alignment of programs and libraries that need pages of their own to be executed in
    /// place (`elf_format::needs_pages`). All other files have 4.
    pub align: u32,
}

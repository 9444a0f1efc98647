//! What is asked of an image.

/// How the programs of an image are to be executed.
#[derive(Clone, Copy, Debug, PartialEq, Eq)]
pub struct Question {
    /// The address of the image's first byte in the flash.
    pub base: u64,
    /// Whether the machine has no MMU.
    pub no_mmu: bool,
    /// Whether advice is asked for as well.
    pub advice: bool,
}

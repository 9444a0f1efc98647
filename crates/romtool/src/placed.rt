//! How a file got an image.
use atomic_file::{Account, Durability};

/// How a file got an image.
#[derive(Drop)]
pub enum Placed {
    /// A part got the name of the file: the calls that were made, and what they returned.
    Renamed(Account),
    /// The file was written in place, synchronized with this answer, and closed.
    Written(Durability),
}

//! The faults of a line.

/// The reason why a line is not a command.
#[derive(Clone, Copy, PartialEq, Eq)]
pub enum Bad {
    /// The first field is not a word.
    Command,
    /// The line has more than 8,191 bytes, an empty field, or more or fewer fields than its word
    /// has.
    Line,
    /// A field is not a decimal number, has leading zeros, or is more than 4,294,967,295; or the
    /// second field of `read` is more than 4,096.
    Number,
    /// There are sessions, and the line does not begin with a digit from 0 to 7 and a space.
    Session,
}

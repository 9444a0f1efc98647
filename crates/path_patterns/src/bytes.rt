//! Paths as bytes.
ghost use Rattle.std.specs.Prelude.{◌≡◌, IfOk};
ghost use Rattle.std.specs.Str.{chars};
ghost use Rattle.path_patterns.specs.Patterns.{fits_bytes};

use crate::matching::matches;
use crate::pattern::Piece;
use std::alloc::{AllocError, Global};
use std::str;

/// Returns the characters of a text.
///
/// # Errors
///
/// Memory was refused.
pub fn characters(alloc: Global, text: &str) -> Result<Vec<char>, AllocError>
    ensures { IfOk result (λ v. v.items ≡ chars text.now) }
{
    let mut found = Vec::new(alloc);
    for c in text.chars() {
        found.push(c)?;
    }
    Ok(found)
}

/// Returns whether the pieces of a pattern match the whole of a path. No pattern matches bytes that
/// are no UTF-8.
///
/// # Errors
///
/// Memory was refused.
pub fn matches_bytes(alloc: Global, pieces: &[Piece], path: &[u8]) -> Result<bool, AllocError>
    ensures { IfOk result (λ b. b ≡ fits_bytes pieces.now path.now) }
{
    match str::from_utf8(path) {
        Ok(text) => {
            let path = characters(alloc, text)?;
            matches(alloc, pieces, path.as_slice())
        }
        Err(_) => Ok(false),
    }
}

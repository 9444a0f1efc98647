//! Several patterns.
ghost use Rattle.std.specs.Prelude.{◌≡◌, map, IfOk};
ghost use Rattle.path_patterns.specs.Several.{behind_slash, fits_any};

use crate::bytes::matches_bytes;
use crate::pattern::Piece;
use std::alloc::{AllocError, Global};

/// A path without its first byte, which is a slash.
fn behind_slash(path: &[u8]) -> &[u8]
    ensures { result.now ≡ behind_slash path.now }
{
    match path {
        [] => path,
        [_, rest @ ..] => rest,
    }
}

/// Returns whether the pieces of one of these patterns match the whole of a path, except its first
/// slash. No pattern matches bytes that are no UTF-8.
///
/// # Errors
///
/// Memory was refused.
pub fn any_matches(alloc: Global, patterns: &[Vec<Piece>], path: &[u8]) -> Result<bool, AllocError>
    ensures { IfOk result (λ b. b ≡ fits_any (map (λ p. p.items) patterns.now) path.now) }
{
    let path = behind_slash(path);
    for pieces in patterns {
        if matches_bytes(alloc, pieces, path)? {
            return Ok(true);
        }
    }
    Ok(false)
}

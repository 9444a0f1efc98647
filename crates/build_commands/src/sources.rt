//! The names by which the sources of a manifest are opened.
ghost use Rattle.std.specs.Prelude.{◌≡◌, IfOk};
ghost use Rattle.build_commands.specs.Sources.{joined, needs_slash};

use std::alloc::{AllocError, Global};

/// Whether a slash stands between a directory and a name in it.
fn needs_slash(directory: &[u8]) -> bool
    ensures { result ≡ needs_slash directory.now }
{
    match directory.last() {
        Some(last) => *last != b'/',
        None => false,
    }
}

/// Returns the name of a source in a directory. A name that begins with a slash stays.
///
/// # Errors
///
/// `AllocError` if memory was refused.
pub fn joined_name(alloc: Global, directory: &[u8], source: &[u8]) -> Result<Vec<u8>, AllocError>
    ensures { IfOk result (λ name. name.items ≡ joined directory.now source.now) }
{
    let mut name = Vec::new(alloc);
    if source.first() != Some(&b'/') {
        name.extend_from_slice(directory)?;
        if needs_slash(directory) {
            name.push(b'/')?;
        }
    }
    name.extend_from_slice(source)?;
    Ok(name)
}

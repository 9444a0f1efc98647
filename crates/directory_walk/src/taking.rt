//! What a directory has in it goes to the entries that were found, and to the directories that are
//! still to be listed.
ghost use Rattle.std.specs.Prelude.{◌≡◌, [], ◌∷◌, ◌++◌, OnOk, string_bytes};
ghost use Rattle.directory_walk.specs.Trees.{entered};
ghost use Rattle.directory_walk.specs.Views.{listed_name, listed_names, names_of, paths_of};

use crate::lister::{Directory, Entry, Listed};
use rom_fields::OutOfMemory;

/// Adds an entry to those that were found, and to the directories that are still to be listed, if
/// it is one.
fn take_one<T: Drop, S: Drop>(
    found: &mut Vec<Entry<T>>,
    waiting: &mut Vec<Directory<S>>,
    one: Listed<T, S>,
) -> Result<(), OutOfMemory>
    ensures found { OnOk result (names_of found.new.items
        ≡ names_of found.old.items ++ listed_name one ∷ []) }
    ensures waiting { OnOk result (paths_of waiting.new.items
        ≡ paths_of waiting.old.items ++ entered (listed_name one ∷ [])) }
{
    let Listed { path, known, state } = one;
    let is_entered = match state {
        Some(state) => {
            let path = path.clone()?;
            waiting.push(Directory { path, state })?;
            true
        }
        None => false,
    };
    found.push(Entry {
        path,
        known,
        is_entered,
    })?;
    Ok(())
}

/// Adds the entries of a directory to those that were found, and its directories to those that are
/// still to be listed.
pub(crate) fn take_in<T: Drop, S: Drop>(
    found: &mut Vec<Entry<T>>,
    waiting: &mut Vec<Directory<S>>,
    listed: Vec<Listed<T, S>>,
) -> Result<(), OutOfMemory>
    ensures found { OnOk result (names_of found.new.items
        ≡ names_of found.old.items ++ listed_names listed.items) }
    ensures waiting { OnOk result (paths_of waiting.new.items
        ≡ paths_of waiting.old.items ++ entered (listed_names listed.items)) }
{
    for one in listed {
        take_one(found, waiting, one)?;
    }
    Ok(())
}

//! Names that occur twice in one list.
ghost use Rattle.std.specs.Prelude.{IsTrue, ◌↔◌, IfOk};
ghost use Rattle.record_forest.specs.Listed.{AreNumbered, AreAlike, MarksRepeats};

use rom_fields::OutOfMemory;
use std::alloc::Global;

/// A name in the list of the directory at `list`, and its index among all names.
#[derive(Clone, Copy, PartialEq, Eq, PartialOrd, Ord)]
pub struct ListedName<'a> {
    pub list: u32,
    pub name: &'a [u8],
    pub index: usize,
}

/// Whether both are in one list and are the same.
fn are_alike(one: ListedName, other: ListedName) -> bool
    ensures { IsTrue result ↔ AreAlike one.entry other.entry }
{
    one.list == other.list && one.name == other.name
}

/// Returns, for each name by its index, whether an earlier name of the same list is the same.
///
/// Sorts the names, which allocates no memory, and allocates one mark for each.
pub fn repeats(alloc: Global, names: Vec<ListedName>) -> Result<Vec<bool>, OutOfMemory>
    requires { AreNumbered names.items }
    ensures { IfOk result (λ marks. MarksRepeats names.entry.items marks.items) }
{
    let mut names = names;
    let mut marks = vec![in alloc; false; names.len()]?;
    names.sort_unstable();
    for i in 1..names.len() {
        let here = names[i];
        if are_alike(names[i - 1], here) {
            marks[here.index] = true;
        }
    }
    Ok(marks)
}

//! The line and the contents at each path of a manifest.
ghost use Rattle.std.specs.Prelude.{◌≡◌, true, ◌<◌, [], ◌∷◌, IfOk, OnOk, length, reverse, List, ℕ};
ghost use Rattle.manifest.specs.Lines as lines;
ghost use Rattle.manifest.specs.Lines.{led};
ghost use Rattle.manifest.specs.declared.line.Line.{Line};
ghost use Rattle.plan_rows.specs.Files.{contents_at, noted, own_target, or_nowhere};
ghost use Rattle.plan_rows.specs.Files.{HasMore, IsIndexOf, IsOf};

use manifest::{Line, Manifest, Seeded, Word, seeded_by};
use rom_fields::OutOfMemory;
use std::alloc::Global;
use std::collections::HashMap;

/// The contents of a regular file.
#[derive(Clone, Copy, PartialEq, Eq)]
pub struct SourceUse {
    /// The alignment of the contents, in bytes: their offset is to be a multiple of it.
    pub align: u32,
    /// The number of bytes.
    pub size: u64,
    /// The index of the source.
    pub source: usize,
}

/// The line and the contents to which a path leads.
#[derive(Clone, Copy, PartialEq, Eq)]
struct Target {
    /// The index of a line.
    line: Option<usize>,
    contents: Option<SourceUse>,
}

/// The line and the contents to which each path of the lines that were read leads.
#[derive(Drop)]
pub struct PathTargets {
    paths: HashMap<Vec<u8>, Target, Seeded>,
}

/// Returns whether a line is a `file` line.
fn is_file(line: &Line) -> bool
    ensures { result ≡ lines.is_file line.now.word }
{
    matches!(line.word, Word::File)
}

/// Puts a path into the map, with what it leads to.
fn note_path(
    alloc: Global,
    paths: &mut HashMap<Vec<u8>, Target, Seeded>,
    path: &[u8],
    target: Target,
) -> Result<(), OutOfMemory>
    ensures { OnOk result (HasMore path.now target paths.old paths.new) }
{
    let key = path.to_vec(alloc)?;
    paths.insert(key, target)?;
    Ok(())
}

/// Returns what a path leads to; nothing if the map does not have it.
fn leads_to(paths: &HashMap<Vec<u8>, Target, Seeded>, path: &[u8]) -> Target
    ensures { result ≡ or_nowhere (noted paths.now path.now) }
{
    match paths.get(path) {
        None => Target {
            line: None,
            contents: None,
        },
        Some(target) => *target,
    }
}

/// Returns what the path of the line at this index leads to. `source` is the number of sources
/// before it.
fn own_target(
    paths: &HashMap<Vec<u8>, Target, Seeded>,
    sizes: &[u64],
    source: usize,
    index: usize,
    line: &Line,
) -> Target
    requires { lines.is_file line.now.word ≡ true → source < length sizes.now }
    ensures { result ≡ own_target paths.now sizes.now source index line.now }
{
    let contents = match line.word {
        Word::Hard => return leads_to(paths, line.text.as_bytes()),
        Word::Same => leads_to(paths, line.text.as_bytes()).contents,
        Word::File => Some(SourceUse {
            align: line.align,
            size: sizes[source],
            source,
        }),
        Word::Dir | Word::Slink | Word::Block => None,
        Word::Character | Word::Fifo | Word::Socket => None,
    };
    Target {
        line: Some(index),
        contents,
    }
}

impl PathTargets {
    /// Returns what the paths of a manifest lead to, if its sources have these sizes. The time is
    /// expected to grow with the number of lines.
    pub fn new(alloc: Global, m: &Manifest, sizes: &[u64]) -> Result<PathTargets, OutOfMemory>
        requires { length sizes.now ≡ length (lines.sources_of m.now.lines) }
        ensures { IfOk result (IsOf m.now.lines sizes.now) }
    {
        let mut paths = HashMap::with_hasher(alloc, seeded_by(m.lines()));
        let mut source = 0;
        let mut index = 0;
        let all = m.lines();
        for line in all {
            let target = own_target(&paths, sizes, source, index, line);
            note_path(alloc, &mut paths, line.path.as_bytes(), target)?;
            index += 1;
            if is_file(line) {
                source += 1;
            }
        }
        Ok(PathTargets { paths })
    }

    /// Returns the contents to which a path leads, if it leads to a regular file.
    pub fn contents(&self, path: &[u8]) -> Option<SourceUse>
        ensures { (lines : List Line) (sizes : List ℕ) → IsOf lines sizes self.now
            → result ≡ contents_at lines sizes path.now }
    {
        leads_to(&self.paths, path).contents
    }

    /// Returns the index of the line to which a path leads, if it leads to one.
    pub fn line(&self, path: &[u8]) -> Option<usize>
        ensures { (lines : List Line) (sizes : List ℕ) → IsOf lines sizes self.now
            → IsIndexOf lines result (led (reverse lines) path.now) }
    {
        leads_to(&self.paths, path).line
    }
}

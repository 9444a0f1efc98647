//! The files that the lines of a manifest make.
ghost use Rattle.std.specs.Prelude.{◌≡◌, ℕ, List};
ghost use Rattle.std.specs.Option.{option_map};
ghost use Rattle.manifest.specs.declared.line.Line as decl;
ghost use Rattle.manifest_tree.specs.Tree as tree;
ghost use Rattle.plan_rows.specs.Files.{IsOf};
ghost use Rattle.plan_rows.specs.Made.{inode_from, regular_from};
ghost use Rattle.plan_rows.specs.Rows.{bytes_view, inode_view};

use crate::files::{PathTargets, SourceUse};
use crate::row::{Bytes, Inode};
use manifest::{Line, Manifest, Word};
use rom_tree::Kind;

/// The alignment of a file's bytes if no line has one.
const ALIGN: u32 = 4;

/// The mode of a root without a line.
const ROOT_MODE: u32 = 0o755;

/// Returns the file of a line, with these bytes.
fn plain<'a>(line: &Line, kind: Kind, align: u32, size: u64, bytes: Bytes<'a>) -> Inode<'a>
    ensures { inode_view result
        ≡ tree.plain line.now kind align size (bytes_view bytes.entry) }
{
    Inode {
        line: line.number,
        kind,
        mode: line.mode,
        uid: line.uid,
        gid: line.gid,
        major: line.major,
        minor: line.minor,
        align,
        size,
        bytes,
    }
}

/// Returns a regular file with these contents, or an empty one.
fn regular<'a>(line: &Line, contents: Option<SourceUse>) -> Inode<'a>
    ensures { inode_view result ≡ regular_from line.now contents }
{
    match contents {
        None => plain(line, Kind::Regular, ALIGN, 0, Bytes::Nothing),
        Some(c) => plain(
            line,
            Kind::Regular,
            c.align,
            c.size,
            Bytes::Source(c.source),
        ),
    }
}

/// Returns the file that a line makes, if its path leads to these contents.
fn inode_from<'a>(line: &'a Line, contents: Option<SourceUse>) -> Inode<'a>
    ensures { inode_view result ≡ inode_from line.now.word line.now contents }
{
    let kind = match line.word {
        Word::File | Word::Same => return regular(line, contents),
        Word::Slink => {
            let text = line.text.as_bytes();
            return plain(
                line,
                Kind::Symlink,
                ALIGN,
                text.len() as u64,
                Bytes::Text(text),
            );
        }
        Word::Dir => Kind::Directory,
        Word::Block => Kind::Block,
        Word::Character => Kind::Character,
        Word::Fifo => Kind::Fifo,
        Word::Socket => Kind::Socket,
        Word::Hard => Kind::Regular,
    };
    plain(line, kind, ALIGN, 0, Bytes::Nothing)
}

/// Returns the file that a line makes. A `hard` line makes none of its own.
pub fn inode_of<'a>(line: &'a Line, files: &PathTargets) -> Inode<'a>
    ensures { (lines : List decl.Line) (sizes : List ℕ) → IsOf lines sizes files.now
        → inode_view result ≡ tree.inode_of lines sizes line.now }
{
    inode_from(line, files.contents(line.path.as_bytes()))
}

/// Returns the file to which a path leads, if it leads to one.
pub fn inode_at<'a>(m: &'a Manifest, files: &PathTargets, path: &[u8]) -> Option<Inode<'a>>
    ensures { (sizes : List ℕ) → IsOf m.now.lines sizes files.now
        → option_map inode_view result ≡ tree.file_at m.now.lines sizes path.now }
{
    let Some(index) = files.line(path) else {
        return None;
    };
    match m.lines().get(index) {
        None => None,
        Some(line) => Some(inode_of(line, files)),
    }
}

/// Returns the root's file: that of its line, or a directory of mode 0755 with owner and group 0.
#[tactic(auto, unfolding(manifest_tree::specs::Tree::root_of))]
pub fn root<'a>(m: &'a Manifest, files: &PathTargets) -> Inode<'a>
    ensures { (sizes : List ℕ) → IsOf m.now.lines sizes files.now
        → inode_view result ≡ tree.root_of m.now.lines sizes }
{
    match inode_at(m, files, b"/") {
        Some(inode) => inode,
        None => Inode {
            line: 0,
            kind: Kind::Directory,
            mode: ROOT_MODE,
            uid: 0,
            gid: 0,
            major: 0,
            minor: 0,
            align: ALIGN,
            size: 0,
            bytes: Bytes::Nothing,
        },
    }
}

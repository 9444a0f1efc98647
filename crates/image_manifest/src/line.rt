//! The line of one name.
ghost use Rattle.std.specs.Prelude.{◌≡◌, ◌≢◌, ◌++◌, ◌<◌, ◌≤◌, ℕ, Some, IfSome, codes, length};
ghost use Rattle.manifest.specs.Printed.{line_text};
ghost use Rattle.rom_fields.specs.Written.{Puts, sink};
ghost use Rattle.rom_tree.specs.Tree.{Node};
ghost use Rattle.rom_tree.specs.Image.{image_node, HasNode};
ghost use Rattle.rom_tree.specs.declared.types.Kind.TheVariants.{Regular};
ghost use Rattle.image_manifest.specs.Composed.{path_at};
ghost use Rattle.image_manifest.specs.Lines.{file_align, hard_line, line_with, node_line, word_of};
ghost use Rattle.image_manifest.specs.Known.{line_described};

use crate::composing::path_of;
use crate::naming::Member;
use crate::rules::FileRules;
use arrayvec::ArrayVec;
use elf_format::needs_pages;
use manifest::{Entry, Word, put_line};
use rom_fields::{ByteWrite, put, put_decimal, put_escaped, put_octal};
use rom_tree::{Kind, NodeId, Stat, TreeImage, front_bytes, link_text};

/// The alignment of a file that needs no other one.
const LEAST_ALIGN: u32 = 4;

/// Returns the word of a kind of node.
fn word_of(kind: Kind) -> Word
    ensures { result ≡ word_of kind }
{
    match kind {
        Kind::Directory => Word::Dir,
        Kind::Regular => Word::File,
        Kind::Symlink => Word::Slink,
        Kind::Block => Word::Block,
        Kind::Character => Word::Character,
        Kind::Socket => Word::Socket,
        Kind::Fifo => Word::Fifo,
    }
}

/// Returns the alignment of a regular file's line.
fn file_align<'a, T: TreeImage<'a>>(image: &T, rules: FileRules<'_>, node: NodeId) -> u32
    requires { HasNode (T.image image.now) node.0 }
    ensures { (x : Node) → image_node (T.image image.now) node.0 ≡ Some x
        → result ≡ file_align (T.image image.now) rules.entry x }
{
    if needs_pages(front_bytes(image, node)) {
        rules.align
    } else {
        LEAST_ALIGN
    }
}

/// Puts the line of a regular file, which has the alignment of these rules. Its source is its path
/// in the directory.
fn put_file<W: ByteWrite>(
    w: &mut W,
    failed: &mut bool,
    rules: FileRules<'_>,
    path: &[u8],
    stat: Stat,
)
    requires { stat.kind ≡ Regular }
    ensures { Puts (sink (W.output w.old) failed.old) (sink (W.output w.new) failed.new)
        (line_text (line_with path.now (rules.entry.directory.now ++ path.now) rules.entry.align
        stat) ++ codes "\n") }
{
    put(w, failed, b"file ");
    put_escaped(w, failed, path);
    put(w, failed, b" ");
    put_octal(w, failed, stat.mode);
    put(w, failed, b" ");
    put_decimal(w, failed, stat.uid);
    put(w, failed, b" ");
    put_decimal(w, failed, stat.gid);
    put(w, failed, b" ");
    put_decimal(w, failed, rules.align);
    put(w, failed, b" ");
    put_escaped(w, failed, rules.directory);
    put_escaped(w, failed, path);
    put(w, failed, b"\n");
}

/// Puts the line of a node that is not a regular file.
fn put_other<W: ByteWrite>(w: &mut W, failed: &mut bool, path: &[u8], text: &[u8], stat: Stat)
    requires { stat.kind ≢ Regular }
    ensures { (align : ℕ) → Puts (sink (W.output w.old) failed.old)
        (sink (W.output w.new) failed.new)
        (line_text (line_with path.now text.now align stat) ++ codes "\n") }
{
    let entry = Entry {
        word: word_of(stat.kind),
        path,
        mode: stat.mode,
        uid: stat.uid,
        gid: stat.gid,
        align: 0,
        major: stat.major,
        minor: stat.minor,
        text,
    };
    put_line(w, failed, &entry);
}

/// Puts the line of a further name of the file at the path `old`.
fn put_hard<W: ByteWrite>(w: &mut W, failed: &mut bool, path: &[u8], old: &[u8])
    ensures { Puts (sink (W.output w.old) failed.old) (sink (W.output w.new) failed.new)
        (line_text (hard_line path.now old.now) ++ codes "\n") }
{
    let entry = Entry {
        word: Word::Hard,
        path,
        mode: 0,
        uid: 0,
        gid: 0,
        align: 0,
        major: 0,
        minor: 0,
        text: old,
    };
    put_line(w, failed, &entry);
}

/// Puts the line of a node at a path.
fn put_node<'a, T: TreeImage<'a>, W: ByteWrite>(
    image: &T,
    w: &mut W,
    failed: &mut bool,
    rules: FileRules<'_>,
    path: &[u8],
    node: NodeId,
)
    requires { HasNode (T.image image.now) node.0 }
    ensures { (x : Node) → image_node (T.image image.now) node.0 ≡ Some x
        → Puts (sink (W.output w.old) failed.old) (sink (W.output w.new) failed.new)
        (line_text (node_line (T.image image.now) rules.entry path.now x) ++ codes "\n") }
{
    let stat = image.stat(node);
    match stat.kind {
        Kind::Regular => {
            let align = file_align(image, rules, node);
            put_file(w, failed, FileRules { align, ..rules }, path, stat);
        }
        Kind::Symlink => put_other(w, failed, path, link_text(image, node), stat),
        _ => put_other(w, failed, path, b"", stat),
    }
}

/// Puts the line of the member at an index.
pub(crate) fn put_member<'a, T: TreeImage<'a>, W: ByteWrite>(
    image: &T,
    w: &mut W,
    failed: &mut bool,
    rules: FileRules<'_>,
    members: &[Member<'a>],
    index: usize,
    member: Member<'a>,
)
    requires node { HasNode (T.image image.now) member.node.0 }
    requires first { IfSome member.first (λ i. i < length members.now) }
    requires within { index < length members.now }
    requires short { (i : ℕ) → length (path_at members.now i) ≤ 4095 }
    ensures { (x : Node) → image_node (T.image image.now) member.entry.node.0 ≡ Some x
        → Puts (sink (W.output w.old) failed.old) (sink (W.output w.new) failed.new)
        (line_text (line_described (T.image image.now) rules.entry members.now index x
        member.entry.first) ++ codes "\n") }
{
    let mut path = ArrayVec::new();
    path_of(members, index, &mut path);
    match member.first {
        None => put_node(image, w, failed, rules, path.as_slice(), member.node),
        Some(first) => {
            let mut old = ArrayVec::new();
            path_of(members, first, &mut old);
            put_hard(w, failed, path.as_slice(), old.as_slice());
        }
    }
}

//! The sample.
ghost use Rattle.std.specs.Prelude.{◌≡◌, ◌+◌, ◌≤◌};
ghost use Rattle.rom_tree.specs.Image.{GivesRun};
ghost use Rattle.rom_tree.specs.Tree.{row_from};
ghost use Rattle.library_tests.specs.Sample.{IsWhole};
ghost use Rattle.library_tests.specs.SampleLaws.{sample};

use rom_tree::{Cursor, Entry, Kind, NodeId, Run, Stat, TreeImage, Viewed};

/// The image of `specs/Sample.antt`.
#[derive(Clone, Copy, Default)]
pub struct Sample;

impl Viewed for Sample {
    ghost image = { λ s. sample };
}

fn plain(ino: u32, kind: Kind, mode: u32, size: u32) -> Stat
    ensures { result ≡ record {
      ino = ino;
      kind = kind;
      mode = mode;
      uid = 1000;
      gid = 100;
      size = size;
      major = 0;
      minor = 0;
    } }
{
    Stat {
        ino,
        kind,
        mode,
        uid: 1000,
        gid: 100,
        size,
        major: 0,
        minor: 0,
    }
}

fn device(ino: u32, kind: Kind, mode: u32, major: u32, minor: u32) -> Stat
    ensures { result ≡ record {
      ino = ino;
      kind = kind;
      mode = mode;
      uid = 1000;
      gid = 100;
      size = 0;
      major = major;
      minor = minor;
    } }
{
    Stat {
        ino,
        kind,
        mode,
        uid: 1000,
        gid: 100,
        size: 0,
        major,
        minor,
    }
}

fn found<'a>(name: &'a [u8], node: u32, after: u64) -> Entry<'a>
    ensures name { result.name.now ≡ name.now }
    ensures node { result.node.0 ≡ node }
    ensures cursor { result.cursor.0 ≡ after }
{
    Entry {
        name,
        node: NodeId(node),
        cursor: Cursor(after),
    }
}

fn row_run(place: u32, len: u32, off: u64) -> Option<Run>
    requires { place + len ≤ 9 }
    ensures row { GivesRun (row_from place len) off result }
    ensures whole { IsWhole len off result }
{
    if off < u64::from(len) {
        let off = off as u32;
        Some(Run {
            place: place + off,
            len: len - off,
        })
    } else {
        None
    }
}

impl<'a> TreeImage<'a> for Sample {
    fn bytes(&self) -> &'a [u8] {
        b"helloa b%bindiskttylog\xc3\xa9\x7femptyshdeepp"
    }

    fn root(&self) -> NodeId {
        NodeId(1)
    }

    fn is_node(&self, n: NodeId) -> bool {
        1 <= n.0 && n.0 <= 10
    }

    fn stat(&self, n: NodeId) -> Stat {
        match n.0 {
            1 => plain(1, Kind::Directory, 0o755, 0),
            2 => plain(2, Kind::Directory, 0o700, 0),
            3 => plain(3, Kind::Regular, 0o4755, 5),
            4 => plain(4, Kind::Directory, 0o555, 0),
            5 => plain(5, Kind::Fifo, 0o644, 0),
            6 => plain(6, Kind::Symlink, 0o777, 4),
            7 => device(7, Kind::Block, 0o660, 8, 1),
            8 => device(8, Kind::Character, 0o620, 4, 64),
            9 => plain(9, Kind::Socket, 0o7, 0),
            _ => plain(10, Kind::Directory, 0, 0),
        }
    }

    fn entry(&self, d: NodeId, c: Cursor) -> Option<Entry<'a>> {
        match (d.0, c.0) {
            (1, 0) => Some(found(b"bin", 2, 1)),
            (1, 1) => Some(found(b"a b%", 6, 2)),
            (1, 2) => Some(found(b"disk", 7, 3)),
            (1, 3) => Some(found(b"tty", 8, 4)),
            (1, 4) => Some(found(b"log", 9, 5)),
            (1, 5) => Some(found(b"\xc3\xa9\x7f", 3, 6)),
            (1, 6) => Some(found(b"empty", 10, 7)),
            (2, 0) => Some(found(b"sh", 3, 1)),
            (2, 1) => Some(found(b"deep", 4, 2)),
            (4, 0) => Some(found(b"p", 5, 1)),
            _ => None,
        }
    }

    fn lookup(&mut self, d: NodeId, name: &[u8]) -> Option<NodeId> {
        let mut c = Cursor::START;
        while let Some(entry) = self.entry(d, c) {
            if entry.name == name {
                return Some(entry.node);
            }
            c = entry.cursor;
        }
        None
    }

    fn run(&self, n: NodeId, off: u64) -> Option<Run> {
        match n.0 {
            3 => row_run(0, 5, off),
            6 => row_run(5, 4, off),
            _ => None,
        }
    }
}

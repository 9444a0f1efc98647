//! An extraction of the sample into a directory in memory, which is finished once, after each call
//! that makes a member.
ghost use Rattle.std.specs.Prelude.{◌≡◌, [], true, Some, IfOk};
ghost use Rattle.image_manifest.specs.Describable.{IsLawfulTree};
ghost use Rattle.image_manifest.specs.ExtractedMembers.{members_in};
ghost use Rattle.tree_extract.specs.Extracted.{AreOf, IsExtracted};
ghost use Rattle.tree_extract.specs.Safe.{AreSafe};
ghost use Rattle.library_tests.specs.Kept.{log_of};
ghost use Rattle.library_tests.specs.Sample.{root};
ghost use Rattle.library_tests.specs.SampleLaws.{sample};

use crate::kept::{Kept, Note};
use crate::sample_image::Sample;
use build_commands::{Description, Filled, extract_image};
use image_manifest::{FileRules, Giving, ImageTree, kinds_made, members};
use rom_fields::{Failed, Plain};
use std::alloc::Global;
use std::cell::Cell;
use std::test::Fail;
use tree_extract::{Asked, Directory, Rights};

/// The directory that is filled, which can be finished once.
#[derive(Drop)]
struct Top<'a> {
    clock: &'a Cell<usize>,
    /// How many times it was finished.
    times: u64,
    /// How many calls there were before.
    at: usize,
}

impl Filled for Top<'_> {
    // It was finished before.
    type Error = Failed;

    // It was finished once, and all members were made.
    ghost finished = { λ t fresh ms log. (t.times ≡ 1) × IsExtracted fresh ms log };

    fn finish<D: Directory>(&mut self, _: &D) -> Result<(), Failed> {
        if self.times > 0 {
            return Err(Failed);
        }
        self.times += 1;
        self.at = self.clock.get();
        Ok(())
    }
}

/// Shows that a manifest can describe the tree of the sample.
fn sample_is_lawful()
    ensures { IsLawfulTree root }
{}

/// The volume is `a b`, and the sources are in `out`.
const DESCRIPTION: Description<'static> = Description {
    volume: b"a b",
    rules: FileRules {
        directory: b"out",
        align: 4096,
    },
};

/// What an extraction leaves.
#[derive(Drop)]
struct Left {
    notes: Vec<Note>,
    times: u64,
    at: usize,
    text: Vec<u8>,
    is_done: bool,
}

/// Extracts the sample into a directory that refuses the call after this number of calls.
fn extracted(alloc: Global, giving: Giving, calls: u64) -> Result<Left, Fail>
    ensures safe { IfOk result (λ l. AreSafe (log_of l.notes.items)) }
    ensures only { IfOk result (λ l. AreOf (Some []) (members_in giving sample)
        (log_of l.notes.items)) }
    ensures finished { IfOk result (λ l. l.is_done ≡ true → (l.times ≡ 1)
        × IsExtracted (Some []) (members_in giving sample) (log_of l.notes.items)) }
{
    sample_is_lawful();
    let names = members(alloc, &Sample)?;
    let kinds = kinds_made(alloc, &Sample, &names, &[])?;
    let tree = ImageTree {
        image: &Sample,
        members: &names,
        patterns: &[],
        kinds: &kinds,
        giving,
    };
    let clock = Cell::new(0);
    let mut directory = Kept {
        alloc,
        tree: &tree,
        notes: Vec::new(alloc),
        left: calls,
        clock: &clock,
    };
    let mut top = Top {
        clock: &clock,
        times: 0,
        at: 0,
    };
    let mut out = Plain::new(Vec::new(alloc));
    let result = extract_image(&tree, &mut directory, &mut top, Some(DESCRIPTION), &mut out);
    Ok(Left {
        notes: directory.notes,
        times: top.times,
        at: top.at,
        text: out.into_inner(),
        is_done: result.is_ok(),
    })
}

/// What is asked at a path, with the bytes of a file, the text of a link, or the path of the file
/// that gets a further name.
type Call = (Asked, &'static [u8], &'static [u8]);

/// Returns the rights of a mode, without an owner.
fn mode(mode: u32) -> Rights {
    Rights { mode, owner: None }
}

/// Owners are not set, and modes have no bit of 6027.
const GIVING: Giving = Giving {
    owners: false,
    masked: 0o27,
};

/// Returns the calls for the sample: its directories, file, further name and link are made. Then
/// the directories get their rights, inner ones first.
fn expected() -> [Call; 10] {
    [
        (Asked::MakeDirectory, b"/bin", b""),
        (Asked::MakeDirectory, b"/bin/deep", b""),
        (Asked::MakeDirectory, b"/empty", b""),
        (Asked::MakeFile, b"/bin/sh", b""),
        (Asked::FinishFile(mode(0o750)), b"/bin/sh", b"hello"),
        (Asked::MakeName, b"/\xc3\xa9\x7f", b"/bin/sh"),
        (Asked::MakeSymlink(None), b"/a b%", b"a b%"),
        (Asked::SetRights(mode(0)), b"/empty", b""),
        (Asked::SetRights(mode(0o550)), b"/bin/deep", b""),
        (Asked::SetRights(mode(0o700)), b"/bin", b""),
    ]
}

const MANIFEST: &[u8] = b"volume a%20b
dir / 0755 1000 100
dir /bin 0700 1000 100
file /bin/sh 4755 1000 100 4 out/bin/sh
dir /bin/deep 0555 1000 100
pipe /bin/deep/p 0644 1000 100
slink /a%20b%25 0777 1000 100 a%20b%25
nod /disk 0660 1000 100 b 8 1
nod /tty 0620 1000 100 c 4 64
sock /log 0007 1000 100
hard /%C3%A9%7F /bin/sh
dir /empty 0000 1000 100
";

/// Returns whether exactly these calls were noted, and this many of them were done.
fn are_noted(notes: &[Note], calls: &[Call], done: usize) -> bool {
    for (k, (note, (asked, path, bytes))) in notes.iter().zip(calls).enumerate() {
        if note.asked != *asked || note.is_done != (k < done) {
            return false;
        }
        if note.path.as_slice() != *path || note.bytes.as_slice() != *bytes {
            return false;
        }
    }
    notes.len() == calls.len()
}

#[test]
fn the_directory_is_finished_last(rt: HostRuntime) -> Result<(), Fail> {
    let left = extracted(rt.alloc(), GIVING, u64::MAX)?;
    assert!(rt; left.is_done);
    assert!(rt; are_noted(&left.notes, &expected(), 10));
    assert!(rt; left.times == 1 && left.at == 10);
    assert!(rt; left.text.as_slice() == MANIFEST);
    Ok(())
}

#[test]
fn a_refused_call_is_the_last(rt: HostRuntime) -> Result<(), Fail> {
    let all = expected();
    for calls in 0..all.len() {
        let left = extracted(rt.alloc(), GIVING, calls as u64)?;
        assert!(rt; !left.is_done);
        assert!(rt; are_noted(&left.notes, &all[..calls + 1], calls));
        assert!(rt; left.times == 0 && left.text.is_empty());
    }
    Ok(())
}

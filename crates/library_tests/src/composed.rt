//! The files of a manifest, put together with texts in memory.
ghost use Rattle.std.specs.Prelude.{◌≡◌, List, Option, IfOk, OnOk, ◌∷◌, ◌++◌, [], map};
ghost use Rattle.build_commands.specs.Composed.{IsComposed, Reading};
ghost use Rattle.library_tests.specs.Fixed.{call_of};

use build_commands::composing::{ComposeError, DeviceText, Owner, Readings, compose};
use build_commands::devices::listed;
use build_commands::equal::Digest;
use build_commands::inventory::{NamedFile, lines, put_found};
use build_commands::laying::LayError;
use build_commands::listing::{Listing, Why};
use rom_fields::{OutOfMemory, Plain};
use std::alloc::Global;
use std::test::Fail;

/// What is answered.
#[derive(Clone, Copy)]
struct Given<'a> {
    aligns: &'a [u32],
    table: Option<&'a [u8]>,
    list: Option<&'a [u8]>,
    given: Option<&'a [u8]>,
}

/// A call that reads something.
#[derive(Clone, Copy, Debug, PartialEq, Eq)]
enum Call {
    Alignments,
    Text(DeviceText),
    Sizes,
    Digests,
    Joined,
}

/// Readings that answer from memory, and note each call that is answered. Files share no contents.
#[derive(Drop)]
struct Fixed<'a> {
    alloc: Global,
    given: Given<'a>,
    calls: Vec<Call>,
}

impl Fixed<'_> {
    /// Notes a call.
    fn note(&mut self, call: Call) -> Result<(), OutOfMemory>
        ensures { OnOk result (self.new.calls.items ≡ self.old.calls.items ++ call ∷ []) }
    {
        self.calls.push(call)?;
        Ok(())
    }
}

impl Readings for Fixed<'_> {
    type Error = OutOfMemory;

    ghost IsLog = { λ s log. map call_of log ≡ s.calls.items };

    fn alignments(&mut self, _: &[NamedFile]) -> Result<Vec<u32>, OutOfMemory> {
        self.note(Call::Alignments)?;
        Ok(self.given.aligns.to_vec(self.alloc)?)
    }

    fn text(&mut self, which: DeviceText) -> Result<Option<Vec<u8>>, OutOfMemory> {
        self.note(Call::Text(which))?;
        let text = match which {
            DeviceText::Table => self.given.table,
            DeviceText::List => self.given.list,
            DeviceText::Given => self.given.given,
        };
        match text {
            Some(text) => Ok(Some(text.to_vec(self.alloc)?)),
            None => Ok(None),
        }
    }

    fn sizes(&mut self, _: &[NamedFile]) -> Result<Option<Vec<u64>>, OutOfMemory> {
        self.note(Call::Sizes)?;
        Ok(None)
    }

    fn digests(
        &mut self,
        _: &[NamedFile],
        _: &[u64],
        _: &[bool],
    ) -> Result<Vec<Option<Digest>>, OutOfMemory> {
        self.note(Call::Digests)?;
        Ok(Vec::new(self.alloc))
    }

    fn joined(&mut self, _: &[NamedFile], _: &[bool]) -> Result<(), OutOfMemory> {
        self.note(Call::Joined)
    }
}

/// All files get this owner.
const OWNER: Owner = Owner { uid: 7, gid: 8 };

/// Puts files together with what is given, and returns the calls that were answered, too.
fn composed(
    alloc: Global,
    found: Vec<NamedFile>,
    given: Given<'_>,
) -> Result<(Vec<NamedFile>, Vec<Call>), ComposeError<OutOfMemory>>
    ensures { IfOk result (λ p. (answers : List Reading) × (map call_of answers ≡ p.1.items)
        × ((owner : Option Owner) × IsComposed owner found.items answers p.0.items)) }
{
    let mut readings = Fixed {
        alloc,
        given,
        calls: Vec::new(alloc),
    };
    let files = compose(alloc, found, Some(OWNER), &mut readings)?;
    let Fixed { calls, .. } = readings;
    Ok((files, calls))
}

/// Nothing is given.
const NOTHING: Given<'static> = Given {
    aligns: &[],
    table: None,
    list: None,
    given: None,
};

/// The files of a list, which stand for those that were found.
fn found(alloc: Global) -> Option<Vec<NamedFile>> {
    let lower = b"dir /dev 0755 0 0\npipe /a 0644 0 0\n";
    let Listing { mut files, .. } = listed(alloc, lower, &[]).ok()?;
    let upper = listed(alloc, b"pipe /a 0640 0 0\n", &[]).ok()?;
    for file in upper.files {
        files.push(file).ok()?;
    }
    Some(files)
}

/// The lines of files in a manifest.
fn text_of(alloc: Global, files: &[NamedFile]) -> Option<Vec<u8>> {
    let lines = lines(alloc, None, files).ok()?;
    let mut text = Plain::new(Vec::new(alloc));
    put_found(&mut text, b"", &lines).ok()?;
    Some(text.into_inner())
}

/// The later of two files at a path counts, and the owner does not count against the list.
const COMPOSED: &[u8] = b"pipe /a 0600 1 2\n\
dir /dev 0755 7 8\n\
nod /dev/tty 0666 0 5 c 4 0\n\
nod /sda 0660 0 0 b 8 0\n";

/// The calls, in their order.
const CALLS: [Call; 5] = [
    Call::Alignments,
    Call::Text(DeviceText::Table),
    Call::Text(DeviceText::List),
    Call::Text(DeviceText::Given),
    Call::Sizes,
];

#[test]
fn files_are_put_together_in_steps(rt: HostRuntime) -> Result<(), Fail> {
    let alloc = rt.alloc();
    let given = Given {
        table: Some(b"/dev/tty c 666 0 5 4 0 - - -\n"),
        list: Some(b"mode /a 0600 1 2\n"),
        given: Some(b"nod /sda 0660 0 0 b 8 0\n"),
        ..NOTHING
    };
    let found = found(alloc).unwrap_or(Vec::new(alloc));
    let Ok((files, calls)) = composed(alloc, found, given) else {
        return Err(Fail::new("the texts fit"));
    };
    assert!(rt; calls.as_slice() == CALLS.as_slice());
    let text = text_of(alloc, &files).unwrap_or(Vec::new(alloc));
    assert!(rt; text.as_slice() == COMPOSED);
    Ok(())
}

#[test]
fn a_refused_text_is_named(rt: HostRuntime) -> Result<(), Fail> {
    let alloc = rt.alloc();
    let given = Given {
        table: Some(b"/dev/tty c 666 0 5 4 0 - - -\n"),
        list: Some(b"\nmode /b 0600 1 2\n"),
        ..NOTHING
    };
    let found = found(alloc).unwrap_or(Vec::new(alloc));
    let Err(ComposeError::Unlaid(which, _, LayError::Bad(bad))) = composed(alloc, found, given)
    else {
        return Err(Fail::new("a line is refused"));
    };
    assert!(rt; which == DeviceText::List && bad.line == 2 && bad.why == Why::Missing);
    Ok(())
}

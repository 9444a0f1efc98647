//! The directory that an image is extracted into, as the system has it.
//!
//! Each method of `Directory` makes the call of the system that its name says, at the path that
//! `place` returns and with the rights that are noted, and notes what the system returned.
ghost use Rattle.std.specs.Prelude.{◌≡◌, ◌<◌, ◌++◌, [], List, codes, length, string_bytes};
ghost use Rattle.std.specs.Prelude.{IfOk, OnOk};
ghost use Rattle.image_check.specs.Any.{any_view};
ghost use Rattle.image_manifest.specs.ExtractedMembers.{made_in};
ghost use Rattle.tree_extract.specs.Accounts.{log_of, room_of};
ghost use Rattle.tree_extract.specs.Members.{Member, path_at};

use crate::making::{finish_file, new_directory, new_file, new_link, new_name, set_directory};
use crate::members::{Members, accepted_text};
use program_streams::{Again, Remembering};
use rom_fields::Plain;
use std::fs::File;
use system_files::{Reason, Refusal};
use tree_extract::{Account, Asked, Directory};

/// A writer of a file, which remembers why the system refused a write.
type Writer = Plain<Remembering<Again<File>>>;

/// The directory while an image is extracted into it.
#[derive(Drop)]
pub struct System<'a> {
    /// The members that are made.
    pub members: Members<'a>,
    /// What was asked of the directory, and what it answered.
    pub account: Account,
    /// The number of further names that were made as links to one file.
    pub further: u64,
    /// The number of further names that were made as files of their own.
    pub copies: u64,
}

impl<'a> System<'a> {
    /// Returns the empty directory that these members are made in.
    pub fn new(members: Members<'a>) -> System<'a>
        ensures members { result.members ≡ members.entry }
        ensures log { (ms : List Member) → log_of ms result.account ≡ [] }
    {
        System {
            members,
            account: Account::new(members.rt.alloc()),
            further: 0,
            copies: 0,
        }
    }

    /// Asks for memory to note one more call, and returns the path of the member at an index.
    fn place(&mut self, index: usize) -> Result<String, Refusal>
        requires { index < length (made_in self.old.members.tree.now.giving
            (any_view self.old.members.tree.now.image.now) self.old.members.tree.now.kinds.now) }
        ensures members { self.new.members ≡ self.old.members }
        ensures same { self.new.account.answered.items ≡ self.old.account.answered.items }
        ensures room { OnOk result (0 < room_of self.new.account) }
        ensures place { IfOk result (λ p. string_bytes p ≡ codes "."
            ++ path_at (made_in self.old.members.tree.now.giving
            (any_view self.old.members.tree.now.image.now)
            self.old.members.tree.now.kinds.now) index) }
    {
        self.account.reserve()?;
        self.members.place(index)
    }
}

impl Directory for System<'_> {
    ghost use Rattle.std.specs.Prelude.{None, option_map};
    ghost use Rattle.program_streams.specs.Streams.{first_error};
    ghost use Rattle.system_files.specs.declared.reason.Refusal.TheVariants.{System as of_system};

    type Error = Refusal;

    type File = Writer;

    ghost members = { λ s. made_in s.members.tree.now.giving
        (any_view s.members.tree.now.image.now) s.members.tree.now.kinds.now };

    ghost log = { λ s.
        log_of (made_in s.members.tree.now.giving
        (any_view s.members.tree.now.image.now) s.members.tree.now.kinds.now) s.account };

    ghost fresh = { None };

    ghost reason = { λ file. option_map of_system (first_error file.inner) };

    fn make_directory(&mut self, index: usize) -> Result<(), Refusal> {
        let place = self.place(index)?;
        let made = new_directory(self.members.rt, &place);
        self.account.answer(Asked::MakeDirectory, index, made)
    }

    fn make_file(&mut self, index: usize) -> Result<Writer, Refusal> {
        let place = self.place(index)?;
        let made = new_file(self.members.rt, &place);
        self.account.note(Asked::MakeFile, index, made.is_ok());
        Ok(Plain::new(Remembering::new(Again::new(made?))))
    }

    fn finish_file(&mut self, index: usize, file: Writer) -> Result<(), Refusal> {
        self.account.reserve()?;
        let (file, error) = file.into_inner().into_parts();
        if let Some(e) = error {
            return Err(Refusal::System(e));
        }
        let rights = self.members.tree.rights(index);
        let finished = finish_file(
            self.members.rt,
            file.into_inner(),
            rights,
            self.members.syncing,
        );
        self.account
            .answer(Asked::FinishFile(rights), index, finished)
    }

    fn unwritten(&self, file: Writer) -> Refusal {
        match file.into_inner().error() {
            Some(e) => Refusal::System(e),
            None => Refusal::Reason(Reason::FileNotTaken),
        }
    }

    fn make_name(&mut self, index: usize, first: usize) -> Result<bool, Refusal> {
        let place = self.place(index)?;
        let file = self.members.place(first)?;
        let made = new_name(self.members.rt, &file, &place);
        self.account
            .note(Asked::MakeName, index, matches!(made, Ok(true)));
        match made {
            Ok(true) => self.further = self.further.saturating_add(1),
            Ok(false) => self.copies = self.copies.saturating_add(1),
            Err(_) => {}
        }
        made
    }

    fn make_symlink(&mut self, index: usize, text: &[u8]) -> Result<(), Refusal> {
        let place = self.place(index)?;
        let (text, owner) = (accepted_text(text)?, self.members.tree.rights(index).owner);
        let made = new_link(self.members.rt, text, &place, owner);
        self.account.answer(Asked::MakeSymlink(owner), index, made)
    }

    fn set_rights(&mut self, index: usize) -> Result<(), Refusal> {
        let place = self.place(index)?;
        let rights = self.members.tree.rights(index);
        let set = set_directory(self.members.rt, &place, rights, self.members.syncing);
        self.account.answer(Asked::SetRights(rights), index, set)
    }
}

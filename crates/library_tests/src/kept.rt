//! A directory in memory, which notes what was asked of it. It refuses one call, and all after it.
ghost use Rattle.std.specs.Prelude.{◌≡◌, ◌∷◌, ◌<◌, length, IfOk, OnErr, OnOk};
ghost use Rattle.image_manifest.specs.ExtractedMembers.{made_in};
ghost use Rattle.library_tests.specs.SampleLaws.{sample};
ghost use Rattle.tree_extract.specs.Log.{Logs};
ghost use Rattle.tree_extract.specs.Members.{path_at};

use crate::sample_image::Sample;
use arrayvec::ArrayVec;
use image_manifest::{ImageTree, PATH_MAX};
use rom_fields::{Failed, Memory};
use std::alloc::Global;
use std::cell::Cell;
use tree_extract::{Asked, Directory};

/// A call, and whether it was done.
#[derive(Drop)]
pub struct Note {
    pub asked: Asked,
    pub path: Vec<u8>,
    /// The bytes of a file, the text of a link, or the path of the file that gets a further name.
    pub bytes: Vec<u8>,
    pub is_done: bool,
}

/// The directory that the sample is extracted into.
#[derive(Drop)]
pub struct Kept<'a> {
    pub alloc: Global,
    pub tree: &'a ImageTree<'a, 'a, Sample>,
    /// What was asked, oldest first.
    pub notes: Vec<Note>,
    /// The number of calls before the one that is refused.
    pub left: u64,
    /// The number of calls so far.
    pub clock: &'a Cell<usize>,
}

impl Kept<'_> {
    ghost use Rattle.library_tests.specs.Kept.{call_at, event_of, log_of};

    /// Returns the path of the member at an index.
    fn path(&self, index: usize) -> Result<Vec<u8>, Failed>
        requires { index < length (made_in self.now.tree.now.giving sample
            self.now.tree.now.kinds.now) }
        ensures { IfOk result (λ v. v.items ≡ path_at (made_in self.now.tree.now.giving sample
            self.now.tree.now.kinds.now) index) }
    {
        let mut path: ArrayVec<u8, PATH_MAX> = ArrayVec::new();
        self.tree.path(index, &mut path);
        match path.as_slice().to_vec(self.alloc) {
            Ok(path) => Ok(path),
            Err(_) => Err(Failed),
        }
    }

    /// Notes a call. It fails only if memory is refused.
    #[tactic(auto, using(crate::proofs::Noted::one_more))]
    fn note(&mut self, note: Note) -> Result<(), Failed>
        ensures tree { self.new.tree ≡ self.old.tree }
        ensures left { self.new.left ≡ self.old.left }
        ensures ok { OnOk result (log_of self.new.notes.items
            ≡ event_of (call_at note.path.items note.asked note.bytes.items) note.is_done
            ∷ log_of self.old.notes.items) }
        ensures err { OnErr result (self.new.notes.items ≡ self.old.notes.items) }
    {
        match self.notes.push(note) {
            Ok(()) => {
                self.clock.set(self.clock.get().saturating_add(1));
                Ok(())
            }
            Err(_) => Err(Failed),
        }
    }

    /// Notes a call at the path of a member, and answers it.
    fn answer(&mut self, asked: Asked, index: usize, bytes: Vec<u8>) -> Result<(), Failed>
        requires { index < length (made_in self.old.tree.now.giving sample
            self.old.tree.now.kinds.now) }
        ensures tree { self.new.tree ≡ self.old.tree }
        ensures logged { Logs (call_at (path_at (made_in self.old.tree.now.giving sample
            self.old.tree.now.kinds.now) index) asked bytes.items) result
            (log_of self.old.notes.items) (log_of self.new.notes.items) }
    {
        let is_done = self.left > 0;
        let path = self.path(index)?;
        let note = Note {
            asked,
            path,
            bytes,
            is_done,
        };
        self.note(note)?;
        if !is_done {
            return Err(Failed);
        }
        self.left -= 1;
        Ok(())
    }
}

impl Directory for Kept<'_> {
    ghost use Rattle.std.specs.Prelude.{[], None, Some};
    ghost use Rattle.library_tests.specs.Kept.{log_of};

    type Error = Failed;

    type File = Memory;

    ghost members = { λ d. made_in d.tree.now.giving sample d.tree.now.kinds.now };

    ghost log = { λ d. log_of d.notes.items };

    ghost fresh = { Some [] };

    ghost reason = { λ _. None };

    fn make_directory(&mut self, index: usize) -> Result<(), Failed> {
        self.answer(Asked::MakeDirectory, index, Vec::new(self.alloc))
    }

    fn make_file(&mut self, index: usize) -> Result<Memory, Failed> {
        self.answer(Asked::MakeFile, index, Vec::new(self.alloc))?;
        Ok(Memory::new(self.alloc))
    }

    fn finish_file(&mut self, index: usize, file: Memory) -> Result<(), Failed> {
        let rights = self.tree.rights(index);
        self.answer(Asked::FinishFile(rights), index, file.into_bytes())
    }

    fn unwritten(&self, _: Memory) -> Failed {
        Failed
    }

    fn make_name(&mut self, index: usize, first: usize) -> Result<bool, Failed> {
        let first = self.path(first)?;
        self.answer(Asked::MakeName, index, first)?;
        Ok(true)
    }

    fn make_symlink(&mut self, index: usize, text: &[u8]) -> Result<(), Failed> {
        let owner = self.tree.rights(index).owner;
        match text.to_vec(self.alloc) {
            Ok(text) => self.answer(Asked::MakeSymlink(owner), index, text),
            Err(_) => Err(Failed),
        }
    }

    fn set_rights(&mut self, index: usize) -> Result<(), Failed> {
        let rights = self.tree.rights(index);
        self.answer(Asked::SetRights(rights), index, Vec::new(self.alloc))
    }
}

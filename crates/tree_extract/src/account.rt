//! An account of what was asked of a directory.
ghost use Rattle.std.specs.Prelude.{◌≡◌, ◌<◌, List, [], ◌∷◌, OnOk};
ghost use Rattle.tree_extract.specs.Log.{Logs};
ghost use Rattle.tree_extract.specs.Members.{Member};

use crate::tree::{Owner, Rights};
use std::alloc::{AllocError, Global};

/// What was asked, with the rights that were to be given.
#[derive(Clone, Copy, Debug, PartialEq, Eq)]
pub enum Asked {
    MakeDirectory,
    MakeFile,
    FinishFile(Rights),
    MakeName,
    MakeSymlink(Option<Owner>),
    SetRights(Rights),
}

/// What was asked of the member at an index, and whether it was done.
#[derive(Clone, Copy, Debug, PartialEq, Eq)]
pub struct Answered {
    pub asked: Asked,
    pub index: usize,
    pub is_done: bool,
}

/// What was asked of a directory, and what it answered, oldest first.
#[derive(Drop)]
pub struct Account {
    pub answered: Vec<Answered>,
}

impl Account {
    ghost use Rattle.tree_extract.specs.Accounts.{log_of, room_of, event, call_for};

    /// Returns an empty account.
    pub fn new(alloc: Global) -> Account
        ensures { (ms : List Member) → log_of ms result ≡ [] }
    {
        Account {
            answered: Vec::new(alloc),
        }
    }

    /// Asks for memory for one more call.
    ///
    /// # Errors
    ///
    /// Memory was refused.
    pub fn reserve(&mut self) -> Result<(), AllocError>
        ensures same { self.new.answered.items ≡ self.old.answered.items }
        ensures room { OnOk result (0 < room_of self.new) }
    {
        self.answered.try_reserve(1)?;
        Ok(())
    }

    /// Notes a call and its answer.
    pub fn note(&mut self, asked: Asked, index: usize, is_done: bool)
        requires { 0 < room_of self.old }
        ensures { (ms : List Member)
            → log_of ms self.new ≡ event ms asked index is_done ∷ log_of ms self.old }
    {
        let _ = self.answered.push(Answered {
            asked,
            index,
            is_done,
        });
    }

    /// Notes a call and its answer, and returns this answer.
    pub fn answer<E: Drop>(
        &mut self,
        asked: Asked,
        index: usize,
        answer: Result<(), E>,
    ) -> Result<(), E>
        requires { 0 < room_of self.old }
        ensures same { result ≡ answer }
        ensures logged { (ms : List Member) → Logs (call_for ms asked index) result
            (log_of ms self.old) (log_of ms self.new) }
    {
        match answer {
            Ok(()) => {
                self.note(asked, index, true);
                Ok(())
            }
            Err(e) => {
                self.note(asked, index, false);
                Err(e)
            }
        }
    }
}

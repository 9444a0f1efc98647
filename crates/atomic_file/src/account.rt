//! An account of what was asked of a directory.
ghost use Rattle.std.specs.Prelude.{◌≡◌, ◌+◌, ◌<◌, ◌≤◌, [], ◌∷◌, IfOk};

use std::alloc::{AllocError, Global};

/// What was asked.
#[derive(Drop)]
pub enum Asked {
    Create(u32),
    Sync(Option<Vec<u8>>),
    Close,
    Rename(u32, u32),
    Remove(u32),
    SyncDirectory,
}

/// What was answered.
#[derive(Clone, Copy, Debug, PartialEq, Eq)]
pub enum Answer {
    Done,
    Refused,
    /// The directory cannot be synchronized.
    Skipped,
}

/// What was asked, and what was answered.
#[derive(Drop)]
pub struct Answered {
    pub asked: Asked,
    pub answer: Answer,
}

/// What was asked of a directory, and what it answered, oldest first.
#[derive(Drop)]
pub struct Account {
    pub answered: Vec<Answered>,
}

impl Account {
    ghost use Rattle.atomic_file.specs.Accounts.{log_of, room_of, event};

    /// Returns an empty account with memory for this number of calls.
    ///
    /// # Errors
    ///
    /// Memory was refused.
    pub fn new(alloc: Global, calls: usize) -> Result<Account, AllocError>
        ensures log { IfOk result (λ a. log_of a ≡ []) }
        ensures room { IfOk result (λ a. calls ≤ room_of a) }
    {
        Ok(Account {
            answered: Vec::with_capacity(alloc, calls)?,
        })
    }

    /// Notes a call and its answer.
    pub fn note(&mut self, asked: Asked, answer: Answer)
        requires { 0 < room_of self.old }
        ensures log { log_of self.new ≡ event asked answer ∷ log_of self.old }
        ensures room { room_of self.old ≤ room_of self.new + 1 }
    {
        let _ = self.answered.push(Answered { asked, answer });
    }
}

//! A file that is replaced in a directory in memory, which knows the bytes of its files and refuses
//! a call.
ghost use Rattle.std.specs.Prelude.{◌≡◌, ◌+◌, ◌<◌, ◌≤◌, IfOk};
ghost use Rattle.atomic_file.specs.Log.{Logs};

use atomic_file::{
    Account, Answer, Asked, Bytes, CreateError, Directory, Durability, LeftError, Names, replace,
};
use rom_fields::{Failed, Memory as Part};
use std::alloc::{AllocError, Global};

/// The file is 0, and its part is 1.
const NAMES: Names = Names {
    out: 0,
    first: 1,
    end: 2,
};

/// A directory of one file, which refuses one call.
#[derive(Drop)]
struct Memory {
    alloc: Global,
    account: Account,
    // how many calls are done before the one that is refused
    calls: u64,
    part: Option<Vec<u8>>,
    file: Vec<u8>,
}

impl Memory {
    ghost use Rattle.atomic_file.specs.Accounts.{log_of, room_of, call_of};

    /// A directory with the old file.
    fn new(alloc: Global, calls: u64) -> Result<Memory, AllocError>
        ensures { IfOk result (λ d. 16 ≤ room_of d.account) }
    {
        Ok(Memory {
            alloc,
            account: Account::new(alloc, 16)?,
            calls,
            part: None,
            file: b"old".to_vec(alloc)?,
        })
    }

    /// Notes a call, and answers it.
    fn answer(&mut self, asked: Asked) -> Result<(), Failed>
        requires { 0 < room_of self.old.account }
        ensures log { Logs (call_of asked) result (log_of self.old.account)
            (log_of self.new.account) }
        ensures room { room_of self.old.account ≤ room_of self.new.account + 1 }
    {
        if self.calls == 0 {
            self.calls = u64::MAX;
            self.account.note(asked, Answer::Refused);
            return Err(Failed);
        }
        self.calls -= 1;
        self.account.note(asked, Answer::Done);
        Ok(())
    }
}

impl Directory for Memory {
    ghost use Rattle.std.specs.Prelude.{[], Some};
    ghost use Rattle.atomic_file.specs.Accounts.{log_of, room_of};

    type Part = Part;

    type Synced = ();

    ghost log = { λ d. log_of d.account };

    ghost room = { λ d. room_of d.account };

    ghost fresh = { Some [] };

    fn create_new(&mut self, name: u32) -> Result<Part, CreateError> {
        match self.answer(Asked::Create(name)) {
            Ok(()) => Ok(Part::new(self.alloc)),
            Err(Failed) => Err(CreateError::Refused),
        }
    }

    fn remove_left(&mut self, name: u32) -> Result<(), LeftError> {
        self.account.note(Asked::Remove(name), Answer::Refused);
        Err(LeftError::Missing)
    }

    fn sync(&mut self, part: Part) -> Result<(), Failed> {
        let bytes = part.into_bytes();
        self.part = bytes.as_slice().to_vec(self.alloc).ok();
        self.answer(Asked::Sync(Some(bytes)))
    }

    fn close(&mut self, _part: ()) -> Result<(), Failed> {
        self.answer(Asked::Close)
    }

    fn rename(&mut self, from: u32, to: u32) -> Result<(), Failed> {
        self.answer(Asked::Rename(from, to))?;
        if let Some(part) = self.part.take() {
            self.file = part;
        }
        Ok(())
    }

    fn remove(&mut self, name: u32) -> Result<(), Failed> {
        self.part = None;
        self.answer(Asked::Remove(name))
    }

    fn sync_directory(&mut self) -> Result<Durability, Failed> {
        match self.answer(Asked::SyncDirectory) {
            Ok(()) => Ok(Durability::Durable),
            Err(Failed) => Err(Failed),
        }
    }
}

/// How a replacement ends if this call is refused: whether it is durable, and the file's bytes.
fn replaced(alloc: Global, calls: u64) -> Result<(bool, Vec<u8>), AllocError> {
    let mut directory = Memory::new(alloc, calls)?;
    let is_durable = match replace(&mut directory, NAMES, &mut Bytes(b"new")) {
        Ok(Durability::Durable) => true,
        Ok(Durability::Unknown) => false,
        Err(_) => false,
    };
    Ok((is_durable, directory.file))
}

/// The calls make, synchronize, close and rename the part, and synchronize the directory.
#[test]
fn the_file_is_the_old_or_the_new_one(rt: HostRuntime) -> Result<(), AllocError> {
    for calls in 0..6u64 {
        let (is_durable, file) = replaced(rt.alloc(), calls)?;
        assert!(rt; is_durable == (calls == 5));
        let wanted: &[u8] = if calls < 4 { b"old" } else { b"new" };
        assert!(rt; file.as_slice() == wanted);
    }
    Ok(())
}

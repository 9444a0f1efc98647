//! A directory that keeps a log of what is asked of it.
ghost use Rattle.std.specs.Prelude.{◌≡◌, ℕ, ◌+◌, ◌<◌, ◌≤◌, List, Option, IfOk};
ghost use Rattle.atomic_file.specs.Log.{Event, Create, Sync, Close, Rename, Remove, Logs};
ghost use Rattle.atomic_file.specs.Log.{LogsLast};

use rom_fields::{Failed, Rewrite};

/// The reason why no file was made.
#[derive(Clone, Copy, Debug, PartialEq, Eq)]
pub enum CreateError {
    /// Something has the name.
    Exists,
    /// The file was made, but its name leads to another one by now.
    Lost,
    /// The system refused the file.
    Refused,
}

/// The reason why nothing that was left was removed.
#[derive(Clone, Copy, Debug, PartialEq, Eq)]
pub enum LeftError {
    /// Nothing has the name.
    Missing,
    /// What has the name is in use, or cannot be removed.
    InUse,
}

/// Whether a directory that was to be synchronized is on the disk.
#[derive(Clone, Copy, Debug, PartialEq, Eq)]
pub enum Durability {
    /// It is.
    Durable,
    /// It cannot be synchronized, so nothing is known.
    Unknown,
}

/// A directory, in which nobody else makes, renames or removes files of the names that are used
/// here. A name is the number by which the directory knows it.
pub trait Directory {
    /// A file that was made, and is written to.
    type Part: Rewrite + Drop;

    /// A file that was synchronized. Nothing is written to it any more.
    type Synced: Drop;

    // What was asked, newest first.
    ghost log: { Self → List Event };

    // The number of further events that can be logged.
    ghost room: { Self → ℕ };

    // What is known of the bytes of a new file: that it has none, or nothing.
    ghost fresh: { Option (List ℕ) };

    /// Makes an empty file under a name that nothing has.
    fn create_new(&mut self, name: u32) -> Result<Self::Part, CreateError>
        requires { 0 < room self.old }
        ensures logged { Logs (Create name) result (log self.old) (log self.new) }
        ensures room { room self.old ≤ room self.new + 1 }
        ensures empty { IfOk result (λ part. (Self.Part.output part).contents ≡ fresh) };

    /// Removes what an interrupted replacement left under the name of a part.
    fn remove_left(&mut self, name: u32) -> Result<(), LeftError>
        requires { 0 < room self.old }
        ensures logged { Logs (Remove name) result (log self.old) (log self.new) }
        ensures room { room self.old ≤ room self.new + 1 };

    /// Synchronizes the file that was made last.
    fn sync(&mut self, part: Self::Part) -> Result<Self::Synced, Failed>
        requires { 0 < room self.old }
        ensures logged { Logs (Sync (Self.Part.output part).contents) result
            (log self.old) (log self.new) }
        ensures room { room self.old ≤ room self.new + 1 };

    /// Closes the file that was made last. Some file systems report only now what they lost.
    fn close(&mut self, part: Self::Synced) -> Result<(), Failed>
        requires { 0 < room self.old }
        ensures logged { Logs Close result (log self.old) (log self.new) }
        ensures room { room self.old ≤ room self.new + 1 };

    /// Gives the file that was made last, which has the first name, the second one instead, in one
    /// step.
    fn rename(&mut self, from: u32, to: u32) -> Result<(), Failed>
        requires { 0 < room self.old }
        ensures logged { Logs (Rename from to) result (log self.old) (log self.new) }
        ensures room { room self.old ≤ room self.new + 1 };

    /// Removes the name of the file that was made last.
    fn remove(&mut self, name: u32) -> Result<(), Failed>
        requires { 0 < room self.old }
        ensures logged { Logs (Remove name) result (log self.old) (log self.new) }
        ensures room { room self.old ≤ room self.new + 1 };

    /// Synchronizes the directory itself, if that is possible.
    fn sync_directory(&mut self) -> Result<Durability, Failed>
        requires { 0 < room self.old }
        ensures logged { LogsLast result (log self.old) (log self.new) }
        ensures room { room self.old ≤ room self.new + 1 };
}

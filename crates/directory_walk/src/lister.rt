//! A lister: it says what directories have in them.
ghost use Rattle.std.specs.Prelude.{◌≡◌, ℕ, List, Option, IfOk, IfErr, string_bytes};
ghost use Rattle.directory_walk.specs.Trees.{Top, Tree, IsDirectoryOf};
ghost use Rattle.directory_walk.specs.Views.{IsListing};

/// A directory that is to be listed: its path, and what the lister noted when it found it.
#[derive(Drop)]
pub struct Directory<S> {
    pub path: String,
    pub state: S,
}

/// An entry of a directory, by its path, with what the lister reports of it.
#[derive(Drop)]
pub struct Listed<T, S> {
    pub path: String,
    pub known: T,
    /// What the lister notes of it, if it is a directory that the walk has to enter.
    pub state: Option<S>,
}

/// An entry that a walk found, by its path, with what the lister reported of it.
#[derive(Drop)]
pub struct Entry<T> {
    pub path: String,
    pub known: T,
    /// Whether it is a directory that the walk entered.
    pub is_entered: bool,
}

/// What lists the directories of a tree, each by its path. The path of an entry is the one of its
/// directory, a slash, and its name.
pub trait Lister {
    /// What is reported of an entry.
    type Known: Drop;

    /// What is noted of a directory when it is found.
    type State: Drop;

    /// The reason why a directory cannot be listed.
    type Error: Drop;

    // The tree that is reported, if there is one that does not change.
    ghost tree: { Self → Option (Top Self.Known) };

    // Whether this error was given for the directory of this path.
    ghost refuses: { Self → List ℕ → Self.Error → Type 0 };

    /// Returns the entries of a directory.
    fn list(
        &mut self,
        directory: &Directory<Self::State>,
    ) -> Result<Vec<Listed<Self::Known, Self::State>>, Self::Error>
        ensures known { (g : Tree Self.Known)
            → IsDirectoryOf (tree self.old) (string_bytes directory.now.path) g
            → IfOk result (λ listed. IsListing (string_bytes directory.now.path) g listed.items) }
        ensures same { tree self.new ≡ tree self.old }
        ensures error { IfErr result (λ e. refuses self.new (string_bytes directory.now.path) e) };
}

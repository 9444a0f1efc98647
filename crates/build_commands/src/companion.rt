//! What is written beside an image, and what becomes of it.
ghost use Rattle.std.specs.Prelude.{◌≡◌, OnOk, OnErr};
ghost use Rattle.build_commands.specs.declared.fate.Fate.{Fate};
ghost use Rattle.build_commands.specs.declared.fate.Fate.TheVariants.{Open, Kept, Lost, GivenUp};

/// What is written beside an image, for example a rule for make. It is kept or given up, once.
pub trait Companion: Drop {
    /// The reason why it was not kept.
    type Error: Drop;

    // What became of it.
    ghost fate: { Self → Fate };

    /// Keeps it, after the image got its name.
    ///
    /// # Errors
    ///
    /// Those of the companion. The build is not reported as done then.
    fn keep(&mut self) -> Result<(), Self::Error>
        requires { fate self.old ≡ Open }
        ensures ok { OnOk result (fate self.new ≡ Kept) }
        ensures err { OnErr result (fate self.new ≡ Lost) };

    /// Gives it up, since the image was not written.
    fn give_up(&mut self)
        requires { fate self.old ≡ Open }
        ensures { fate self.new ≡ GivenUp };
}

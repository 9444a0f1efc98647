//! The check of the manifest and the sources after an image was written.
use image_build::LastCheck;
use rom_fields::ByteWrite;
use system_files::{Stamp, first_changed, has_changed, wait_for_late};

/// What changed while an image was written.
#[derive(Clone, Copy, Debug, PartialEq, Eq)]
pub enum Late {
    /// The manifest.
    Manifest,
    /// The source of this number.
    Source(usize),
}

/// What a look at the manifest and the sources found.
#[derive(Clone, Copy, Debug, PartialEq, Eq)]
pub enum Seen {
    /// Nothing changed.
    Same,
    /// This changed.
    Changed(Late),
}

/// Checks that nothing changed: the manifest, if it is in a regular file, and the sources of these
/// names still have these states.
#[derive(Clone, Copy)]
pub struct Unchanged<'a> {
    pub rt: &'a HostRuntime,
    pub manifest: (&'a str, Option<Stamp>),
    pub names: &'a [&'a str],
    pub stamps: &'a [Stamp],
    /// What the last look found, if there was one.
    pub seen: Option<Seen>,
}

impl Unchanged<'_> {
    /// Looks at the manifest, and then at the sources. What the system says of them is known by no
    /// proof.
    fn look(&self) -> Seen {
        if let (name, Some(stamp)) = self.manifest
            && has_changed(self.rt, name, &stamp).unwrap_or(true)
        {
            return Seen::Changed(Late::Manifest);
        }
        match first_changed(self.rt, self.names, self.stamps) {
            Some(file) => Seen::Changed(Late::Source(file)),
            None => Seen::Same,
        }
    }

    /// Looks at them, and once more after some milliseconds if one of the sources was changed
    /// shortly before.
    fn look_twice(&self) -> Seen {
        match self.look() {
            Seen::Same if wait_for_late(self.rt, self.stamps) => self.look(),
            seen => seen,
        }
    }
}

impl LastCheck for Unchanged<'_> {
    ghost use Rattle.std.specs.Prelude.{◌≡◌, Some};
    ghost use Rattle.romtool.specs.declared.unchanged.Seen.TheVariants.{Same, Changed};

    type Error = Late;

    ghost passed = { λ u _. u.seen ≡ Some Same };

    ghost fails = { λ _ u late. u.seen ≡ Some (Changed late) };

    fn check<W: ByteWrite>(&mut self, _: &W) -> Result<(), Late> {
        let seen = self.look_twice();
        self.seen = Some(seen);
        match seen {
            Seen::Same => Ok(()),
            Seen::Changed(late) => Err(late),
        }
    }
}

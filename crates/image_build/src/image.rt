//! The image of a plan as what fills a file.
ghost use Rattle.std.specs.Prelude.{◌≡◌, ◌≤◌, ◌%◌, ℕ, List, Option, length, OnOk, IfErr};
ghost use Rattle.image_build.specs.Images.{IsCheckedImage, IsImageFault};

use crate::build::{stream_once, stream_through};
use crate::padding::{Padding, write_padding};
use atomic_file::Fill;
use image_stream::{Sources, StreamError};
use manifest_layout::Plan;
use rom_fields::{ByteWrite, Failed, Rewrite};

/// A check that is made after all is written, for example that no source changed.
pub trait LastCheck {
    /// The reason why it failed.
    type Error: Drop;

    // The check was made, and found nothing, while the file had these bytes, if they are known.
    ghost passed: { Self → Option (List ℕ) → Type 0 };

    // What an error means, by the check before and after.
    ghost fails: { Self → Self → Self.Error → Type 0 };

    /// Makes the check. All is written to the file by then.
    ///
    /// # Errors
    ///
    /// What the check found.
    fn check<W: ByteWrite>(&mut self, file: &W) -> Result<(), Self::Error>
        ensures ok { OnOk result (passed self.new (W.output file.now).contents) }
        ensures err { IfErr result (λ e. fails self.old self.new e) };
}

/// The reason why an image was not written.
#[derive(Drop)]
pub enum Unwritten<E: Drop> {
    /// The stream failed.
    Stream(StreamError),
    /// The bytes after the image could not be written.
    Padded,
    /// The last check failed.
    Late(E),
}

/// The image of a plan, with these sources, the bytes that follow it, a check that is made after
/// all is written, and a buffer of at least 4,096 bytes, whose length is a multiple of 4.
pub struct PlanImage<'a, S: Sources, K: LastCheck> {
    pub plan: &'a Plan,
    pub sources: S,
    pub padding: Padding,
    pub last: K,
    pub buffer: &'a mut [u8],
}

impl<'a, S: Sources, K: LastCheck> Fill for PlanImage<'a, S, K> {
    type Error = Unwritten<K::Error>;

    ghost writes = { λ s t old new. IsCheckedImage (K.passed t.last) s.padding
        (S.known s.sources) (S.IsLog s.sources) (S.IsLog t.sources) s.plan.now old new };

    ghost fails = { λ s t old new e. IsImageFault (K.fails s.last t.last) (S.known s.sources)
        s.plan.now (S.reads s.sources) (S.reads t.sources) old new e };

    ghost stays = { λ s t. S.names t.sources ≡ S.names s.sources };

    ghost ready = { λ s. (S.files s.sources ≡ length s.plan.now.sizes)
        × (4096 ≤ length s.buffer.now) × (length s.buffer.now % 4 ≡ 0) };

    fn fill<W: Rewrite>(&mut self, w: &mut W) -> Result<(), Unwritten<K::Error>> {
        match stream_once(self.plan, &mut self.sources, w, self.buffer) {
            Ok(()) => {}
            Err(e) => return Err(Unwritten::Stream(e)),
        }
        match write_padding(w, self.padding) {
            Ok(()) => {}
            Err(Failed) => return Err(Unwritten::Padded),
        }
        match self.last.check(&*w) {
            Ok(()) => Ok(()),
            Err(e) => Err(Unwritten::Late(e)),
        }
    }
}

impl<'a, S: Sources, K: LastCheck> PlanImage<'a, S, K> {
    /// Writes all of the bytes to a writer that cannot replace what it took. In cramfs each source
    /// is read whole twice for that.
    ///
    /// # Errors
    ///
    /// `Unwritten` has the reasons.
    pub fn write_through<W: ByteWrite>(&mut self, w: &mut W) -> Result<(), Unwritten<K::Error>>
        requires files { S.files self.old.sources ≡ length self.old.plan.now.sizes }
        requires buffer { 4096 ≤ length self.old.buffer.now }
        requires words { length self.old.buffer.now % 4 ≡ 0 }
        ensures names { S.names self.new.sources ≡ S.names self.old.sources }
        ensures ok { OnOk result (IsCheckedImage (K.passed self.new.last) self.old.padding
            (S.known self.old.sources) (S.IsLog self.old.sources) (S.IsLog self.new.sources)
            self.old.plan.now (W.output w.old).contents (W.output w.new).contents) }
        ensures err { IfErr result (λ e. IsImageFault (K.fails self.old.last self.new.last)
            (S.known self.old.sources) self.old.plan.now (S.reads self.old.sources)
            (S.reads self.new.sources) (W.output w.old) (W.output w.new) e) }
    {
        match stream_through(self.plan, &mut self.sources, w, self.buffer) {
            Ok(()) => {}
            Err(e) => return Err(Unwritten::Stream(e)),
        }
        match write_padding(w, self.padding) {
            Ok(()) => {}
            Err(Failed) => return Err(Unwritten::Padded),
        }
        if let Err(late) = self.last.check(&*w) {
            return Err(Unwritten::Late(late));
        }
        Ok(())
    }
}

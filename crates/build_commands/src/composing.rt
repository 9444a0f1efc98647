//! The files of a manifest: those that a scan found, with what is laid over them and set.
ghost use Rattle.std.specs.Prelude.{◌≡◌, ℕ, [], ◌∷◌, List, Option, IfErr, IfOk, OnOk};
ghost use Rattle.std.specs.Prelude.{option_map};
ghost use Rattle.build_commands.specs.Alignments.{aligned_all};
ghost use Rattle.build_commands.specs.Composed.{AreShared, IsAligned, IsAlignRefusal, IsComposed};
ghost use Rattle.build_commands.specs.Composed.{IsLaidBy, IsLayRefusal, IsRead, IsRefusal};
ghost use Rattle.build_commands.specs.Composed.{IsStepRefusal};
ghost use Rattle.build_commands.specs.Composed.{IsUnread, Logs, Reading, aligned, digested};
ghost use Rattle.build_commands.specs.Composed.{joined, owned_by, sized, told};
ghost use Rattle.build_commands.specs.Overlay.{AreInOrder};

use crate::alignments::{align_all, share_alignments};
use crate::equal::{Digest, share_equal, to_compare};
use crate::inventory::NamedFile;
use crate::laying::{LayError, lay_list, lay_table};
use crate::overlay::{OverlayError, laid_over};
use crate::rights::own_all;
use rom_fields::OutOfMemory;
use std::alloc::Global;

/// The owner and the group of all files.
#[derive(Clone, Copy)]
pub struct Owner {
    pub uid: u32,
    pub gid: u32,
}

/// A text of devices: a table of `makedevs`, a list, or the list of those that are given one by
/// one. They are laid over the files in this order.
#[derive(Clone, Copy, Debug, PartialEq, Eq)]
pub enum DeviceText {
    Table,
    List,
    Given,
}

/// What is read while files are put together. Each call is made at most once.
pub trait Readings {
    /// The reason why something was not read.
    type Error: Drop;

    // This may be the log, which has what was answered, in order. Readings that keep no log accept
    // any list.
    ghost IsLog: { Self → List Reading → Type 0 };

    /// Returns the alignment of each file, in bytes.
    ///
    /// # Errors
    ///
    /// A file cannot be read.
    fn alignments(&mut self, files: &[NamedFile]) -> Result<Vec<u32>, Self::Error>
        ensures { IfOk result (λ v. Logs (IsLog self.old) (IsLog self.new)
            (aligned files.now v.items ∷ [])) };

    /// Returns a text of devices, if there is one.
    ///
    /// # Errors
    ///
    /// Its file cannot be read.
    fn text(&mut self, which: DeviceText) -> Result<Option<Vec<u8>>, Self::Error>
        ensures { IfOk result (λ t. Logs (IsLog self.old) (IsLog self.new)
            (told which (option_map (λ v. v.items) t) ∷ [])) };

    /// Returns the number of bytes of each file, 0 if it is not regular, if files with equal
    /// contents are to share them.
    ///
    /// # Errors
    ///
    /// A file cannot be looked at.
    fn sizes(&mut self, files: &[NamedFile]) -> Result<Option<Vec<u64>>, Self::Error>
        ensures { IfOk result (λ s. Logs (IsLog self.old) (IsLog self.new)
            (sized files.now (option_map (λ v. v.items) s) ∷ [])) };

    /// Returns the digest of the contents of each file that is to be compared.
    ///
    /// # Errors
    ///
    /// A file cannot be read.
    fn digests(
        &mut self,
        files: &[NamedFile],
        sizes: &[u64],
        compared: &[bool],
    ) -> Result<Vec<Option<Digest>>, Self::Error>
        ensures { IfOk result (λ v. Logs (IsLog self.old) (IsLog self.new)
            (digested files.now sizes.now compared.now v.items ∷ [])) };

    /// Learns which files became further names of other ones.
    ///
    /// # Errors
    ///
    /// A file changed since it was read.
    fn joined(&mut self, files: &[NamedFile], further: &[bool]) -> Result<(), Self::Error>
        ensures { IfOk result (λ _. Logs (IsLog self.old) (IsLog self.new)
            (joined files.now further.now ∷ [])) };
}

/// The reason why files cannot be put together.
#[derive(Drop)]
pub enum ComposeError<E: Drop> {
    OutOfMemory,
    /// This file and the one before it of the same path are a directory and another kind of file.
    Kinds(NamedFile),
    /// A line of this text is refused, or cannot be laid over the files.
    Unlaid(DeviceText, Vec<u8>, LayError),
    /// Something was not read.
    Unread(E),
}

impl<E: Drop> From<OutOfMemory> for ComposeError<E> {
    ghost use Rattle.build_commands.specs.declared.composing.ComposeError.{ComposeError};

    ghost from_gives = { λ _ answer. answer ≡ ComposeError.OutOfMemory };

    fn from(_: OutOfMemory) -> ComposeError<E> {
        ComposeError::OutOfMemory
    }
}

/// Sets the owner of all files, if one is given.
fn own(files: &mut Vec<NamedFile>, owner: Option<Owner>)
    ensures owned { files.new.items ≡ owned_by owner files.old.items }
    ensures order { AreInOrder files.old.items → AreInOrder files.new.items }
{
    if let Some(owner) = owner {
        own_all(files, owner.uid, owner.gid);
    }
}

/// Sets the alignments of all files.
fn align(alloc: Global, files: &mut Vec<NamedFile>, aligns: &[u32]) -> Result<(), OutOfMemory>
    ensures aligned { OnOk result (files.new.items ≡ aligned_all aligns.now files.old.items) }
    ensures order { AreInOrder files.old.items → AreInOrder files.new.items }
{
    align_all(alloc, files, aligns)
}

/// Lays the files that were found over one another, and sets their owner and their alignments.
fn aligned<R: Readings>(
    alloc: Global,
    found: Vec<NamedFile>,
    owner: Option<Owner>,
    readings: &mut R,
) -> Result<Vec<NamedFile>, ComposeError<R::Error>>
    ensures aligned { IfOk result (λ v. (answers : List Reading)
        × Logs (R.IsLog readings.old) (R.IsLog readings.new) answers
        × IsAligned owner found.items answers v.items) }
    ensures order { IfOk result (λ v. AreInOrder v.items) }
    ensures refused { IfErr result
        (IsAlignRefusal found.items (R.IsLog readings.old) (R.IsLog readings.new)) }
{
    let mut files = match laid_over(alloc, found) {
        Ok(files) => files,
        Err(OverlayError::OutOfMemory) => return Err(ComposeError::OutOfMemory),
        Err(OverlayError::Kinds(file)) => return Err(ComposeError::Kinds(file)),
    };
    own(&mut files, owner);
    let aligns = match readings.alignments(&files) {
        Ok(aligns) => aligns,
        Err(e) => return Err(ComposeError::Unread(e)),
    };
    align(alloc, &mut files, &aligns)?;
    Ok(files)
}

/// Lays what a text says over files.
fn laid_by(
    alloc: Global,
    which: DeviceText,
    files: Vec<NamedFile>,
    text: &[u8],
) -> Result<Vec<NamedFile>, LayError>
    requires { AreInOrder files.items }
    ensures laid { IfOk result (λ v. IsLaidBy which files.items text.now v.items) }
    ensures order { IfOk result (λ v. AreInOrder v.items) }
    ensures refused { IfErr result (IsLayRefusal which files.items text.now) }
{
    match which {
        DeviceText::Table => lay_table(alloc, files, text),
        DeviceText::List | DeviceText::Given => lay_list(alloc, files, text),
    }
}

/// Reads a text, and lays what it says over files, if there is one.
fn with_text<R: Readings>(
    alloc: Global,
    readings: &mut R,
    which: DeviceText,
    files: Vec<NamedFile>,
) -> Result<Vec<NamedFile>, ComposeError<R::Error>>
    requires { AreInOrder files.items }
    ensures laid { IfOk result (λ v. IsRead (R.IsLog readings.old) (R.IsLog readings.new) which
        files.items v.items) }
    ensures order { IfOk result (λ v. AreInOrder v.items) }
    ensures refused { IfErr result
        (IsStepRefusal which files.items (R.IsLog readings.old) (R.IsLog readings.new)) }
{
    let text = match readings.text(which) {
        Ok(Some(text)) => text,
        Ok(None) => return Ok(files),
        Err(e) => return Err(ComposeError::Unread(e)),
    };
    match laid_by(alloc, which, files, &text) {
        Ok(laid) => Ok(laid),
        Err(why) => Err(ComposeError::Unlaid(which, text, why)),
    }
}

/// Makes files with equal contents names of one file, if that is asked for.
fn share_slice<R: Readings>(
    alloc: Global,
    readings: &mut R,
    files: &mut [NamedFile],
) -> Result<(), ComposeError<R::Error>>
    ensures shared { OnOk result ((lens : Option (List ℕ)) × (answers : List Reading)
        × Logs (R.IsLog readings.old) (R.IsLog readings.new) answers
        × AreShared files.old lens answers files.new) }
    ensures refused { IfErr result IsUnread }
{
    let sizes = match readings.sizes(files) {
        Ok(Some(sizes)) => sizes,
        Ok(None) => return Ok(()),
        Err(e) => return Err(ComposeError::Unread(e)),
    };
    let compared = to_compare(alloc, files, &sizes)?;
    let digests = match readings.digests(files, &sizes, &compared) {
        Ok(digests) => digests,
        Err(e) => return Err(ComposeError::Unread(e)),
    };
    let further = share_equal(alloc, files, &sizes, &digests)?;
    if let Err(e) = readings.joined(files, &further) {
        return Err(ComposeError::Unread(e));
    }
    share_alignments(alloc, files)?;
    Ok(())
}

/// The same for files in a vector.
fn share<R: Readings>(
    alloc: Global,
    readings: &mut R,
    files: &mut Vec<NamedFile>,
) -> Result<(), ComposeError<R::Error>>
    ensures shared { OnOk result ((lens : Option (List ℕ)) × (answers : List Reading)
        × Logs (R.IsLog readings.old) (R.IsLog readings.new) answers
        × AreShared files.old.items lens answers files.new.items) }
    ensures refused { IfErr result IsUnread }
{
    share_slice(alloc, readings, files)
}

/// Puts the files of a manifest together: of each path the last one that was found counts, all get
/// the owner, if one is given, and their alignments; the table, the list and the given devices are
/// laid over them, in this order; and files with equal contents share them, if that is asked for.
///
/// # Errors
///
/// `Kinds` for a directory in place of another kind of file, or the reverse, before anything is
/// read; `Unlaid` for the first text that is refused; `Unread`; `OutOfMemory`.
pub fn compose<R: Readings>(
    alloc: Global,
    found: Vec<NamedFile>,
    owner: Option<Owner>,
    readings: &mut R,
) -> Result<Vec<NamedFile>, ComposeError<R::Error>>
    ensures composed { IfOk result (λ v. (answers : List Reading)
        × Logs (R.IsLog readings.old) (R.IsLog readings.new) answers
        × IsComposed owner found.items answers v.items) }
    ensures refused { IfErr result
        (IsRefusal owner found.items (R.IsLog readings.old) (R.IsLog readings.new)) }
{
    let files = aligned(alloc, found, owner, readings)?;
    let files = with_text(alloc, readings, DeviceText::Table, files)?;
    let files = with_text(alloc, readings, DeviceText::List, files)?;
    let mut files = with_text(alloc, readings, DeviceText::Given, files)?;
    share(alloc, readings, &mut files)?;
    Ok(files)
}

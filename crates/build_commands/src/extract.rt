//! The command `extract`: an image is taken apart into a directory, and its manifest is printed.
ghost use Rattle.std.specs.Prelude.{◌≡◌, ℕ, [], List, Option, IfErr, OnErr, OnOk};
ghost use Rattle.build_commands.specs.Extracts.{IsCutShort, IsDescribedBy, IsExtractAfter};
ghost use Rattle.image_manifest.specs.Describable.{IsLawfulTree};
ghost use Rattle.image_manifest.specs.ExtractedMembers.{made_in};
ghost use Rattle.tree_extract.specs.Extracted.{AreOf, IsExtracted};
ghost use Rattle.tree_extract.specs.Log.{Event};
ghost use Rattle.tree_extract.specs.Members.{Member};
ghost use Rattle.tree_extract.specs.Safe.{AreSafe};

use image_manifest::{FileRules, ImageTree, write_manifest};
use rom_fields::{ByteWrite, Failed};
use rom_tree::TreeImage;
use tree_extract::{Directory, Stopped, extract};

/// The directory itself that an image is extracted into. It exists before, so no member makes it.
pub trait Filled {
    /// The reason why it could not be finished.
    type Error: Drop;

    // The directory was given its mode and owner after this was asked of what fills it, newest
    // first. These are its members, and the bytes of a new file, if they are known.
    ghost finished: { Self → Option (List ℕ) → List Member → List Event → Type 0 };

    /// Gives the directory its mode and owner, after all of its members were made and have theirs.
    ///
    /// # Errors
    ///
    /// Those of the system.
    fn finish<D: Directory>(&mut self, directory: &D) -> Result<(), Self::Error>
        requires { IsExtracted D.fresh (D.members directory.now) (D.log directory.now) }
        ensures { OnOk result (finished self.new D.fresh (D.members directory.now)
            (D.log directory.now)) };
}

/// What a manifest has besides the image: the volume's name, and rules for files.
#[derive(Clone, Copy)]
pub struct Description<'a> {
    pub volume: &'a [u8],
    pub rules: FileRules<'a>,
}

/// The reason why an image was not extracted, or its manifest not printed.
#[derive(Drop)]
pub enum Unextracted<E: Drop, F: Drop> {
    /// The directory refused something for a member.
    Stopped(Stopped<E>),
    /// All members were made, and the directory itself could not be finished.
    NotFinished(F),
    /// All is done, and the manifest could not be written.
    NotPrinted,
}

/// Writes the manifest of an image, if it is to be described, and flushes it.
fn describe<'b, 'a, T: TreeImage<'a>, W: ByteWrite>(
    tree: &ImageTree<'b, 'a, T>,
    description: Option<Description<'_>>,
    out: &mut W,
) -> Result<(), Failed>
    ensures ok { OnOk result (IsDescribedBy (T.image tree.now.image.now) description.entry
        (W.output out.old) (W.output out.new)) }
    ensures err { OnErr result (IsCutShort (T.image tree.now.image.now) description.entry
        (W.output out.old) (W.output out.new)) }
{
    let Some(Description { volume, rules }) = description else {
        return Ok(());
    };
    write_manifest(tree.image, tree.members, volume, rules, out)?;
    out.flush()
}

/// Extracts what is made of an image into an empty directory, finishes the directory, and prints
/// the image's manifest if a description is given.
///
/// `Ok`: each member is made whole, with its rights, the directory is finished after all calls that
/// made them, and exactly the manifest was written. In each ending, each call of the directory is
/// safe and makes a member (`tree_extract::extract`).
///
/// # Errors
///
/// `Stopped` and `NotFinished`: nothing was printed, and what was made stays. `NotPrinted`: all was
/// made, and a prefix of the manifest was written.
pub fn extract_image<'b, 'a, T: TreeImage<'a>, D: Directory, F: Filled, W: ByteWrite>(
    tree: &ImageTree<'b, 'a, T>,
    directory: &mut D,
    filled: &mut F,
    description: Option<Description<'_>>,
    out: &mut W,
) -> Result<(), Unextracted<D::Error, F::Error>>
    requires lawful { IsLawfulTree (T.image tree.now.image.now).tree }
    requires same { D.members directory.old
        ≡ made_in tree.now.giving (T.image tree.now.image.now) tree.now.kinds.now }
    requires empty { D.log directory.old ≡ [] }
    ensures safe { AreSafe (D.log directory.new) }
    ensures only { AreOf D.fresh (made_in tree.now.giving (T.image tree.now.image.now)
        tree.now.kinds.now) (D.log directory.new) }
    ensures made { OnOk result (IsExtracted D.fresh (made_in tree.now.giving
        (T.image tree.now.image.now) tree.now.kinds.now) (D.log directory.new)) }
    ensures finished { OnOk result (F.finished filled.new D.fresh (made_in tree.now.giving
        (T.image tree.now.image.now) tree.now.kinds.now) (D.log directory.new)) }
    ensures printed { OnOk result (IsDescribedBy (T.image tree.now.image.now) description.entry
        (W.output out.old) (W.output out.new)) }
    ensures err { IfErr result (IsExtractAfter D.fresh (made_in tree.now.giving
        (T.image tree.now.image.now) tree.now.kinds.now) (D.log directory.new)
        (T.image tree.now.image.now) description.entry (W.output out.old) (W.output out.new)) }
{
    image_manifest::laws::can_be_extracted();
    if let Err(e) = extract(tree, directory) {
        return Err(Unextracted::Stopped(e));
    }
    if let Err(e) = filled.finish(&*directory) {
        return Err(Unextracted::NotFinished(e));
    }
    match describe(tree, description, out) {
        Ok(()) => Ok(()),
        Err(Failed) => Err(Unextracted::NotPrinted),
    }
}

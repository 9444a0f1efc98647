//! Takes an image apart: its directories, files and links, or some of them, into a directory, and
//! its manifest to standard output.
ghost use Rattle.std.specs.Prelude.{IfOk, map};
ghost use Rattle.rom_tree.specs.Tree.{IsShallow};
ghost use Rattle.image_check.specs.Any.{any_view};
ghost use Rattle.image_manifest.specs.Chosen.{AreMadeBy};
ghost use Rattle.image_manifest.specs.ExtractedMembers.{members_in};
ghost use Rattle.image_manifest.specs.declared.giving.Giving.{Giving as AGiving};
ghost use Rattle.image_manifest.specs.Describable.{IsLawfulTree};
ghost use Rattle.image_manifest.specs.Members.{AreMembers};
ghost use Rattle.tree_extract.specs.Choices.{IsFit};

use crate::extraction::Extraction;
use crate::output::{Output, output};
use crate::reporter::Reporter;
use crate::stop::{Line, Stop, named, usage};
use crate::totals::{is_many_times, programs_at_pages};
use crate::words::Words;
use build_commands::{Description, Filled, Unextracted, extract_image};
use command_line::Extract;
use image_check::AnyImage;
use image_info::volume;
use image_manifest::{FileRules, Giving, ImageTree, LENDING, Member, Refused, kinds_made, members};
use path_patterns::Piece;
use rom_commands::{Ending, Status};
use rom_tree::{Kind, Stat, TreeImage};
use sentences::reasons::{INCOMPLETE, LONG_PATH, LONG_VOLUME};
use std::alloc::Global;
use std::{io, slice};
use system_files::{Refusal, base};
use system_tree::{Syncing, System, Top};
use tree_extract::{Directory, Kind as Made, Rights, Stopped, Tree};

/// The most bytes of a volume's name in a manifest.
const LONGEST_VOLUME: usize = 255;

/// The words for names of nodes that are not made.
const SPECIALS: &str = "devices, pipes and sockets that are only in the manifest";

/// The words for names whose modes differ from those of the image.
const LENDERS: &str = "names whose set-user and set-group bits were left out; --owners sets them";

/// The words for further names of files.
const FURTHER: &str = "further names of files, made as hard links; some editors replace a link by \
    a separate file, which a build does not read";

/// The words for further names that are files of their own.
const COPIES: &str = "further names of files, made as copies, since this file system makes no hard \
    links; a build does not read the copies";

/// The words for programs whose places the manifest does not keep.
const UNALIGNED: &str = "programs at a multiple of 4096, which get ALIGN 4 in this manifest; \
    extract --align 4096 keeps them executed in place";

/// The alignment in a manifest without an option.
const USUAL_ALIGN: u32 = 4;

/// The words for a pattern by which nothing is made.
const MATCHES_NOTHING: &str = "it matches no directory, file or link of the image";

/// The numbers that are reported in words.
#[derive(Clone, Copy, Default)]
struct Counts {
    /// Names of nodes that only the manifest has.
    specials: u64,
    /// Names with set-user or set-group bits in the image.
    lending: u64,
    /// Further names that were made as links to one file.
    further: u64,
    /// Further names that were made as files of their own.
    copies: u64,
    /// The bytes of all files. Shared bytes count once for each file.
    bytes: u64,
}

impl Counts {
    /// Counts a name of a node, by what is made of it. A file's bytes count at its first name.
    fn count(&mut self, stat: Stat, made: Made) {
        if made == Made::File {
            self.bytes = self.bytes.saturating_add(u64::from(stat.size));
        }
        if !is_made(stat.kind) {
            self.specials = self.specials.saturating_add(1);
        } else if stat.kind != Kind::Symlink && stat.mode & LENDING != 0 {
            self.lending = self.lending.saturating_add(1);
        }
    }
}

/// The directory that was entered, until it is finished; the rights that it gets after it is
/// filled; and whether the system gave it these.
#[derive(Drop)]
struct Entered {
    top: Option<Top>,
    rights: Rights,
    syncing: Syncing,
    is_finished: bool,
}

impl Filled for Entered {
    ghost use Rattle.std.specs.Prelude.{◌≡◌, true};

    type Error = io::Error;

    // What the system answered. Others may change the directory at any time.
    ghost finished = { λ e _ _ _. e.is_finished ≡ true };

    fn finish<D: Directory>(&mut self, _: &D) -> io::Result<()> {
        let Some(top) = self.top.take() else {
            return Err(io::Error::from(io::ErrorKind::NotFound));
        };
        match top.end(self.rights, self.syncing) {
            Ok(()) => {
                self.is_finished = true;
                Ok(())
            }
            Err(e) => Err(e),
        }
    }
}

impl Extraction<'_> {
    /// Checks that the system accepts each name of what is made, and counts the names.
    fn try_names(&self, counts: &mut Counts) -> Result<(), Stop> {
        for index in 0..self.tree.len() {
            let (stat, made) = (self.tree.stat(index), self.tree.kind(index));
            if !self.is_whole && made == Made::Nothing {
                continue;
            }
            counts.count(stat, made);
            if is_made(stat.kind)
                && let Err(why) = self.try_name(index)
            {
                return Err(self.refused(index, why));
            }
        }
        Ok(())
    }

    /// Fills the open directory of this name, syncs it to the disk if that is asked for, and prints
    /// the image's manifest if it is described. Explains what is left out and made otherwise.
    fn fill(
        &self,
        directory: &str,
        top: Top,
        description: Option<Description<'_>>,
        out: &mut Output<'_>,
        mut counts: Counts,
    ) -> Result<(), Stop>
        requires { IsLawfulTree (any_view self.now.tree.now.image.now).tree }
    {
        let mut system = System::new(self.members());
        let mut entered = Entered {
            top: Some(top),
            rights: self.tree.rights(0),
            syncing: self.syncing,
            is_finished: false,
        };
        let result = extract_image(self.tree, &mut system, &mut entered, description, out);
        counts.further = system.further;
        counts.copies = system.copies;
        match result {
            Ok(()) => {
                self.explain(counts);
                Ok(())
            }
            Err(Unextracted::NotPrinted) => {
                let stop = Stop::unwritten();
                self.explain(counts);
                Err(stop)
            }
            Err(Unextracted::Stopped(Stopped { index, error })) => {
                Err(self.refused(index, error).and(directory, INCOMPLETE))
            }
            Err(Unextracted::NotFinished(e)) => {
                Err(
                    self.unfinished(directory, e.into())
                        .and(directory, INCOMPLETE),
                )
            }
        }
    }

    /// Why an extraction stops if the system refused the last step in the directory of this name.
    fn unfinished(&self, directory: &str, why: Refusal) -> Stop {
        let alloc = self.reporter.rt.alloc();
        if why.is_memory() {
            return Stop::Told(Line::Of(Ending::Memory), Words::new(alloc, true));
        }
        Stop::of_file(alloc, directory.as_bytes(), why)
    }

    /// Makes all members in the directory of this name, and prints the image's manifest if it is
    /// described. Nothing is made if the system refuses a name of the image.
    fn run(&self, directory: &str, description: Option<Description<'_>>) -> Result<(), Stop>
        requires { IsLawfulTree (any_view self.now.tree.now.image.now).tree }
    {
        let rt = self.reporter.rt;
        let mut counts = Counts::default();
        self.try_names(&mut counts)?;
        self.explain_bytes(counts.bytes);
        let mut out = output(rt)?;
        let top = named(rt.alloc(), directory, Top::enter(rt, directory))?;
        let tree = ImageTree {
            image: self.tree.image,
            members: self.tree.members,
            patterns: self.tree.patterns,
            kinds: self.tree.kinds,
            giving: Giving {
                masked: top.masked(),
                ..self.tree.giving
            },
        };
        let filling = Extraction {
            tree: &tree,
            ..*self
        };
        filling.fill(directory, top, description, &mut out, counts)
    }

    /// Explains how the directory differs from the image.
    fn explain(&self, counts: Counts) {
        if self.reporter.is_explained() {
            self.explain_one(counts.specials, SPECIALS);
            let lending = if self.tree.giving.owners {
                0
            } else {
                counts.lending
            };
            self.explain_one(lending, LENDERS);
            self.explain_one(counts.further, FURTHER);
            self.explain_one(self.unaligned, UNALIGNED);
            self.explain_one(counts.copies, COPIES);
        }
    }

    /// Explains how many bytes will be written, if they are many times those of the image.
    fn explain_bytes(&self, bytes: u64) {
        let len = self.tree.image.bytes().len();
        if self.reporter.is_explained()
            && is_many_times(bytes, len)
            && let Ok(what) = format!(in self.reporter.rt.alloc();
                "its files have {bytes} bytes, and the image has {len}"
            )
        {
            self.reporter.explain(self.directory.as_bytes(), &what);
        }
    }

    /// Explains for how many names something holds, if for any.
    fn explain_one(&self, count: u64, what: &str) {
        if count > 0
            && let Ok(what) = format!(in self.reporter.rt.alloc(); "{what}: {count}")
        {
            self.reporter.explain(self.directory.as_bytes(), &what);
        }
    }
}

/// Whether something is made for a node of this kind.
fn is_made(kind: Kind) -> bool {
    matches!(kind, Kind::Directory | Kind::Regular | Kind::Symlink)
}

/// Makes the files of an image in a directory, and prints the manifest of the image if no paths are
/// asked for.
fn take_apart<'a>(
    reporter: &'a Reporter<'a>,
    tree: &'a ImageTree<'a, 'a, AnyImage<'a>>,
    asked: &'a Extract<'a>,
) -> Result<Status, Stop>
    requires shallow { IsShallow (any_view tree.now.image.now).tree }
    requires lawful { IsLawfulTree (any_view tree.now.image.now).tree }
{
    let directory = base(asked.directory);
    let is_whole = asked.paths.is_empty();
    let unaligned = if is_whole && asked.align == USUAL_ALIGN && reporter.is_explained() {
        programs_at_pages(tree.image)
    } else {
        0
    };
    let extraction = Extraction {
        reporter,
        tree,
        directory,
        is_whole,
        unaligned,
        syncing: if asked.no_sync {
            Syncing::Unsynced
        } else {
            Syncing::Synced
        },
    };
    let description = extraction.is_whole.then_some(Description {
        volume: volume(tree.image),
        rules: FileRules {
            directory: directory.as_bytes(),
            align: asked.align,
        },
    });
    extraction.run(asked.directory, description)?;
    Ok(Status::Done)
}

/// Returns what is made of the members of an image, by the patterns that are asked for. Refuses a
/// pattern by which nothing is made.
fn kinds_by<'a>(
    alloc: Global,
    image: &AnyImage<'a>,
    members: &[Member<'a>],
    asked: &Extract<'_>,
    patterns: &[Vec<Piece>],
) -> Result<Vec<Made>, Stop>
    requires are { AreMembers (any_view image.now) members.now }
    requires lawful { IsLawfulTree (any_view image.now).tree }
    ensures made { IfOk result (λ v. AreMadeBy (map (λ p. p.items) patterns.now)
        (any_view image.now) members.now v.items) }
    ensures fit { IfOk result (λ v. (g : AGiving)
        → IsFit (members_in g (any_view image.now)) v.items) }
{
    for (text, pattern) in asked.paths.iter().zip(patterns) {
        let Ok(kinds) = kinds_made(alloc, image, members, slice::from_ref(pattern)) else {
            return Err(Stop::Memory);
        };
        // an empty word is that of a variable that is not set; the root is a slash
        if text.is_empty() || kinds.iter().all(|kind| *kind == Made::Nothing) {
            return Err(usage(alloc, text, MATCHES_NOTHING));
        }
    }
    match kinds_made(alloc, image, members, patterns) {
        Ok(kinds) => Ok(kinds),
        Err(_) => Err(Stop::Memory),
    }
}

/// Takes a checked image apart, and prints its manifest.
///
/// # Errors
///
/// `Usage` for a pattern by which nothing is made; `Told` for what the system refused, and for a
/// name that no manifest has; `Refused`, `Memory`, `Unwritten`.
pub fn run<'a>(
    reporter: &'a Reporter<'a>,
    image: &'a AnyImage<'a>,
    asked: &'a Extract<'a>,
    patterns: &'a [Vec<Piece>],
) -> Result<Status, Stop>
    requires shallow { IsShallow (any_view image.now).tree }
    requires lawful { IsLawfulTree (any_view image.now).tree }
{
    let (alloc, name) = (reporter.rt.alloc(), asked.image);
    if volume(image).len() > LONGEST_VOLUME {
        return Err(Stop::ended(alloc, Ending::LongVolume, name, LONG_VOLUME));
    }
    match members(alloc, image) {
        Ok(members) => {
            let kinds = kinds_by(alloc, image, &members, asked, patterns)?;
            let tree = ImageTree {
                image,
                members: &members,
                patterns,
                kinds: &kinds,
                giving: Giving {
                    owners: asked.owners,
                    masked: 0,
                },
            };
            take_apart(reporter, &tree, asked)
        }
        Err(Refused::OutOfMemory) => Err(Stop::Memory),
        Err(Refused::LongPath) => Err(Stop::ended(alloc, Ending::LongPath, name, LONG_PATH)),
    }
}

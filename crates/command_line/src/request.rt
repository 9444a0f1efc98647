//! What the words of a command line ask for.
use arrayvec::ArrayVec;
use formats::Format;

/// A request, and the most bytes of an image that is read for it, if they are given.
#[derive(Drop)]
pub struct Limited<'a> {
    pub request: Request<'a>,
    pub most: Option<u64>,
}

/// What the words ask for.
#[derive(Drop)]
pub enum Request<'a> {
    /// To check and list the example image.
    Example,
    /// To print the program's version.
    Version,
    /// To print what is asked of the image in this file.
    Image(&'a str, Question),
    /// To check the image in each of these files, at least one.
    CheckEach(Vec<&'a str>),
    /// To print where the bytes of an image are, in another form than lines of runs.
    Map(Map<'a>),
    /// To print what is at addresses.
    Which(Which<'a>),
    /// To print the differences of two images.
    Diff(Diff<'a>),
    /// To print digests of an image.
    Digest(Digest<'a>),
    /// To compare a dump of a flash with an image.
    Verify(Verify<'a>),
    /// To print the description of an image.
    Numbers(Numbers<'a>),
    /// To print the bytes of a file in an image.
    Cat(Cat<'a>),
    /// To serve the image in this file.
    Serve(&'a str),
    /// To serve the images in these files, one to eight.
    Space(ArrayVec<&'a str, 8>),
    /// To build an image.
    Build(Build<'a>),
    /// To scan directories, and to build the image of what is found.
    Pack(Pack<'a>),
    /// To print a manifest of the names and the contents below a directory.
    Scan(Scan<'a>),
    /// To print a manifest of directories as they are.
    ScanAll(ScanAll<'a>),
    /// To take an image apart.
    Extract(Extract<'a>),
}

/// What is asked of one image.
#[derive(Clone, Copy)]
pub enum Question {
    /// Whether it is valid.
    Report,
    /// Its list.
    List,
    /// Its facts.
    Facts,
    /// Its facts, and whether it fits into this number of bytes.
    Fit(u64),
    /// The runs of each regular file, if the image's first byte has this address.
    Runs(u64),
    /// What Linux misreads in it.
    Misreads,
    /// What its programs need that it does not have.
    Needs,
    /// Which of its programs Linux executes in place.
    InPlace(InPlace),
}

/// A map of an image whose first byte has this address.
#[derive(Drop)]
pub struct Map<'a> {
    pub image: &'a str,
    pub base: u64,
    pub form: MapForm<'a>,
    /// The patterns of the files that a header or a script has; all files if there are none.
    pub only: Vec<&'a str>,
}

/// The form of a map.
#[derive(Clone, Copy)]
pub enum MapForm<'a> {
    /// A line for each extent.
    All,
    /// A header for C. Its names begin with this prefix, if one is given.
    C(Option<&'a str>),
    /// A script for a linker. Its names begin with this prefix, if one is given.
    Script(Option<&'a str>),
    /// A picture.
    Svg,
}

/// What is at these addresses in an image whose first byte has the address `base`.
#[derive(Drop)]
pub struct Which<'a> {
    pub image: &'a str,
    pub base: u64,
    pub addresses: Vec<u64>,
}

/// The differences of two images.
#[derive(Clone, Copy)]
pub struct Diff<'a> {
    pub old: &'a str,
    pub new: &'a str,
    /// Whether only the trees are compared, and not the offsets of contents.
    pub tree: bool,
}

/// Digests of the files of an image, or of its bytes.
#[derive(Clone, Copy)]
pub struct Digest<'a> {
    pub image: &'a str,
    /// Whether the digest is that of the image's accessible bytes.
    pub whole: bool,
}

/// Whether a dump has the bytes of an image from an offset on.
#[derive(Clone, Copy)]
pub struct Verify<'a> {
    pub image: &'a str,
    pub dump: &'a str,
    pub offset: u64,
}

/// The description of an image, from which firmware opens it without a check.
#[derive(Clone, Copy)]
pub struct Numbers<'a> {
    pub image: &'a str,
    /// Whether it is printed as an array of C, and not as its bytes.
    pub is_array: bool,
}

/// The bytes of the file to which a path leads, in the image in a file.
#[derive(Clone, Copy)]
pub struct Cat<'a> {
    pub image: &'a str,
    pub path: &'a str,
}

/// How programs are executed in place.
#[derive(Clone, Copy)]
pub struct InPlace {
    /// The address of the image's first byte.
    pub base: u64,
    /// Whether the kernel has no MMU.
    pub no_mmu: bool,
    /// Whether advice is printed as well.
    pub advice: bool,
}

/// A build: from the manifest in one file into another file, in this format.
#[derive(Clone, Copy)]
pub struct Build<'a> {
    pub format: Format,
    pub manifest: &'a str,
    pub out: &'a str,
    /// Whether a source that is a symbolic link is refused.
    pub no_follow: bool,
    /// Whether the build is refused if Linux would misread the image, or if the manifest has no
    /// lines.
    pub strict: bool,
    /// Whether the build is refused if a program would not be executed in place.
    pub xip: bool,
    /// Whether the build is refused if a program needs a file that the image would not have.
    pub needs: bool,
    /// The most bytes that the image may have, if it is given.
    pub max_size: Option<u64>,
    /// What follows the image in its file, if something does.
    pub padding: Option<Padding>,
    /// The directory from which the sources' names start, if one is given.
    pub sources: Option<&'a str>,
    /// The file for the names of the files that the image is made of, for `make`.
    pub depfile: Option<&'a str>,
}

/// The bytes after an image, with which its file has the size of a partition.
#[derive(Clone, Copy, Debug, PartialEq, Eq)]
pub struct Padding {
    /// The number of bytes of the file.
    pub size: u64,
    /// The value of each byte after the image.
    pub fill: u8,
}

/// A manifest of the names and the contents below a directory.
#[derive(Clone, Copy)]
pub struct Scan<'a> {
    pub directory: &'a str,
    /// Whether directories on which other file systems are mounted are not scanned.
    pub one_file_system: bool,
}

/// A manifest of directories as they are: all kinds of files, with their modes and owners.
#[derive(Drop)]
pub struct ScanAll<'a> {
    /// The directories. A file of a later one replaces that of an earlier one at the same path.
    pub directories: Vec<&'a str>,
    /// The format whose attributes and further names the manifest has to fit.
    pub format: Option<Format>,
    /// The alignment of regular files that may be executed and match no pattern.
    pub align: u32,
    /// The alignments of regular files by their paths. The last rule that matches applies.
    pub aligns: Vec<AlignRule<'a>>,
    /// The owner of all files, if one is given.
    pub owner: Option<Owner>,
    /// The patterns of the paths that are excluded.
    pub excludes: Vec<&'a str>,
    /// The volume's name, if one is given.
    pub volume: Option<&'a str>,
    /// The file of a manifest whose devices, FIFOs, sockets, directories and links are added.
    pub devices: Option<&'a str>,
    /// The file of a table of devices as `makedevs` reads it, whose devices are added.
    pub device_table: Option<&'a str>,
    /// Further devices that are added.
    pub added: Vec<DeviceWords<'a>>,
    /// Whether files with equal bytes share their contents.
    pub dedupe: bool,
    /// The file for the manifest, instead of standard output.
    pub output: Option<&'a str>,
    /// The file for a rule for make, if one is asked for.
    pub depfile: Option<&'a str>,
    /// Whether directories on which other file systems are mounted are not scanned.
    pub one_file_system: bool,
    /// Whether the scan is refused if attributes have to be changed to fit the format.
    pub strict: bool,
}

/// A scan of directories as they are, and the build of the image of what is found.
#[derive(Drop)]
pub struct Pack<'a> {
    /// The scan. Its output is the file in which the manifest is kept, if one is given.
    pub scan: ScanAll<'a>,
    /// The build. Its manifest is not in a file.
    pub build: Build<'a>,
    /// Whether no words are written on standard error.
    pub is_quiet: bool,
}

/// The words PATH, TYPE, MAJOR, MINOR and MODE of a device.
pub type DeviceWords<'a> = (&'a str, &'a str, &'a str, &'a str, &'a str);

/// The alignment of the regular files whose paths match a pattern.
#[derive(Clone, Copy)]
pub struct AlignRule<'a> {
    pub pattern: &'a str,
    pub align: u32,
}

/// An owner and a group.
#[derive(Clone, Copy, PartialEq, Eq)]
pub struct Owner {
    pub uid: u32,
    pub gid: u32,
}

/// An image that is taken apart: its files into a directory, its manifest on standard output.
#[derive(Drop)]
pub struct Extract<'a> {
    pub image: &'a str,
    pub directory: &'a str,
    /// The alignment of programs and libraries in the manifest.
    pub align: u32,
    /// Whether the files get the owners and all bits of the modes that the image has.
    pub owners: bool,
    /// Whether the program does not wait until the disk has the files.
    pub no_sync: bool,
    /// The patterns of the paths that are taken; all if there are none.
    pub paths: Vec<&'a str>,
}

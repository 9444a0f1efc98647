//! How a command ends: its line and its status.
ghost use Rattle.std.specs.Prelude.{◌≡◌, ◌++◌, OnOk, codes, true};
ghost use Rattle.rom_fields.specs.Failures.{Counts, one_more};
ghost use Rattle.rom_fields.specs.Texts.{escaped};
ghost use Rattle.rom_fields.specs.Written.{Puts, WritesText, sink};
ghost use Rattle.rom_commands.specs.Answers.{Prints, WritesFault, has_text};
ghost use Rattle.rom_commands.specs.Endings.{complaint_of, is_fault, line_of, no_file_name};
ghost use Rattle.rom_commands.specs.Endings.{status_of};
ghost use Rattle.rom_commands.specs.declared.ending.Ending.TheVariants.{Fault as FaultEnding};

use crate::fault::put_fault;
use crate::status::Status;
use path_walk::WalkError;
use rom_fields::{ByteWrite, Failed, Fault, put, put_decimal, put_escaped};

/// Why no bytes of a file are at a path.
#[derive(Clone, Copy, PartialEq, Eq)]
pub enum NoFile {
    /// The path leads nowhere.
    Nowhere(WalkError),
    /// The path leads to a directory.
    Directory,
    /// The path leads to a device, a FIFO or a socket.
    Special,
}

impl NoFile {
    /// Returns the name of the POSIX error.
    pub fn name(self) -> &'static [u8]
        ensures { result.now ≡ no_file_name self }
    {
        match self {
            NoFile::Nowhere(WalkError::Enoent) => b"ENOENT",
            NoFile::Nowhere(WalkError::Enotdir) => b"ENOTDIR",
            NoFile::Nowhere(WalkError::Eloop) => b"ELOOP",
            NoFile::Nowhere(WalkError::Enametoolong) => b"ENAMETOOLONG",
            NoFile::Nowhere(WalkError::Einval) => b"EINVAL",
            NoFile::Directory => b"EISDIR",
            NoFile::Special => b"ENXIO",
        }
    }
}

/// How a command ended. Each ending except `Done` and `Warned` has a line.
#[derive(Clone, Copy, PartialEq, Eq)]
pub enum Ending<'a> {
    /// What was asked for was done.
    Done,
    /// What was asked for was done, and the answer is no: Linux misreads the image, it does not
    /// fit, or two things differ.
    Warned,
    /// An image has a fault.
    Fault {
        /// The image's least fault.
        fault: Fault,
        /// Which of several images has it, from 0 on. `None` if there is only one image.
        image: Option<u32>,
    },
    /// A path in an image leads to no regular file.
    NoFile(NoFile),
    /// The words of the command line ask for nothing.
    Usage,
    /// Memory was refused.
    Memory,
    /// Standard input failed.
    ReadFault,
    /// Standard output failed.
    WriteFault,
    /// 2^40 bytes were read, and the input had not ended.
    TooManyReads,
    /// The file or directory of this name could not be read, listed or written.
    File(&'a [u8]),
    /// Sources changed while they were read.
    Changed,
    /// A path in an image is longer than a manifest allows.
    LongPath,
    /// The name of an image's volume is longer than a manifest allows.
    LongVolume,
}

impl Ending<'_> {
    /// Returns the status of a command that ended in this way.
    pub fn status(self) -> Status
        ensures { result ≡ status_of self.entry }
    {
        match self {
            Ending::Done => Status::Done,
            Ending::Warned | Ending::Fault { .. } | Ending::NoFile(_) => Status::Refused,
            Ending::Usage => Status::Usage,
            _ => Status::Failed,
        }
    }
}

/// Puts the line of an error of a path.
fn put_no_file<W: ByteWrite>(w: &mut W, failed: &mut bool, error: NoFile)
    ensures { Puts (sink (W.output w.old) failed.old) (sink (W.output w.new) failed.new)
        (codes "err " ++ (no_file_name error ++ codes "\n")) }
{
    put(w, failed, b"err ");
    put(w, failed, error.name());
    put(w, failed, b"\n");
}

/// Puts the line of a file, with its escaped name.
fn put_file<W: ByteWrite>(w: &mut W, failed: &mut bool, name: &[u8])
    ensures { Puts (sink (W.output w.old) failed.old) (sink (W.output w.new) failed.new)
        (codes "file " ++ (escaped name.now ++ codes "\n")) }
{
    put(w, failed, b"file ");
    put_escaped(w, failed, name);
    put(w, failed, b"\n");
}

/// Puts the line of a fault, with the number of the image if there are several.
fn put_fault_line<W: ByteWrite>(w: &mut W, failed: &mut bool, fault: Fault, image: Option<u32>)
    ensures { Puts (sink (W.output w.old) failed.old) (sink (W.output w.new) failed.new)
        (line_of (FaultEnding fault image)) }
{
    put_fault(w, failed, fault.number, fault.at);
    match image {
        None => put(w, failed, b"\n"),
        Some(image) => {
            put(w, failed, b" in ");
            put_decimal(w, failed, image);
            put(w, failed, b"\n");
        }
    }
}

/// Puts the line of an ending, if it has one. A name in it is escaped.
fn put_line<W: ByteWrite>(w: &mut W, failed: &mut bool, ending: Ending<'_>)
    ensures { Puts (sink (W.output w.old) failed.old) (sink (W.output w.new) failed.new)
        (line_of ending.entry) }
{
    match ending {
        Ending::Done | Ending::Warned => {}
        Ending::Fault { fault, image } => put_fault_line(w, failed, fault, image),
        Ending::NoFile(error) => put_no_file(w, failed, error),
        Ending::Usage => put(w, failed, b"usage\n"),
        Ending::Memory => put(w, failed, b"memory\n"),
        Ending::ReadFault => put(w, failed, b"read fault\n"),
        Ending::WriteFault => put(w, failed, b"write fault\n"),
        Ending::TooManyReads => put(w, failed, b"too many reads\n"),
        Ending::File(name) => put_file(w, failed, name),
        Ending::Changed => put(w, failed, b"changed\n"),
        Ending::LongPath => put(w, failed, b"path\n"),
        Ending::LongVolume => put(w, failed, b"volume\n"),
    }
}

/// Prints the line of an ending to `err`, the standard error, and returns the status.
pub fn report<E: ByteWrite>(ending: Ending<'_>, err: &mut E) -> Status
    ensures said { Prints (E.output err.old) (E.output err.new) (line_of ending.entry) }
    ensures status { result ≡ status_of ending.entry }
{
    let mut failed = false;
    put_line(err, &mut failed, ending);
    ending.status()
}

/// Writes the line of an ending.
pub(crate) fn write_line<W: ByteWrite>(w: &mut W, ending: Ending<'_>) -> Result<(), Failed>
    ensures text { WritesText (W.output w.old).contents (W.output w.new).contents result
        (line_of ending.entry) }
    ensures count { Counts (W.output w.old).failures (W.output w.new).failures result }
    ensures unflushed { (W.output w.new).flushes ≡ (W.output w.old).flushes }
{
    let mut failed = false;
    put_line(w, &mut failed, ending);
    if failed { Err(Failed) } else { Ok(()) }
}

/// Writes the line of an ending, and flushes it.
pub(crate) fn write_and_flush<W: ByteWrite>(w: &mut W, ending: Ending<'_>) -> Result<(), Failed>
    ensures text { WritesText (W.output w.old).contents (W.output w.new).contents result
        (line_of ending.entry) }
    ensures count { Counts (W.output w.old).failures (W.output w.new).failures result }
    ensures flushed { OnOk result ((W.output w.new).flushes ≡ one_more (W.output w.old).flushes) }
{
    write_line(w, ending)?;
    w.flush()
}

/// Writes the line of a fault, and flushes it. Returns the fault, or that a write failed.
pub(crate) fn write_fault<W: ByteWrite>(
    w: &mut W,
    fault: Fault,
    image: Option<u32>,
) -> Ending<'static>
    ensures { WritesFault (FaultEnding fault image) (W.output w.old) (W.output w.new) result }
{
    let ending = Ending::Fault { fault, image };
    match write_and_flush(w, ending) {
        Ok(()) => ending,
        Err(_) => Ending::WriteFault,
    }
}

/// Whether the output has a text, of which a part may be held back.
pub(crate) fn has_text(ending: Ending<'_>, takes_fault: bool) -> bool
    ensures { result ≡ has_text ending.entry takes_fault }
{
    match ending {
        Ending::Done | Ending::Warned | Ending::WriteFault => true,
        Ending::Fault { .. } => takes_fault,
        _ => false,
    }
}

/// Whether a command found a fault.
fn is_fault(ending: Ending<'_>) -> bool
    ensures { result ≡ is_fault ending.entry }
{
    match ending {
        Ending::Fault { .. } => true,
        _ => false,
    }
}

/// Prints to `err` how a command ended, if the output has the line of a fault. Returns the ending.
pub(crate) fn conclude<E: ByteWrite>(ending: Ending<'static>, err: &mut E) -> Ending<'static>
    ensures same { result ≡ ending.entry }
    ensures said { Prints (E.output err.old) (E.output err.new) (complaint_of ending.entry true) }
{
    if !is_fault(ending) {
        report(ending, err);
    }
    ending
}

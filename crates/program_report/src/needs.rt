//! The interpreters and libraries that the programs of an image need and that are not in it.
ghost use Rattle.std.specs.Prelude.{◌≡◌, ◌+◌, ◌<◌, ◌≤◌, ◌^◌, IfOk, None, Some, not, true};
ghost use Rattle.std.specs.Prelude.{option_map, slice_index_or};
ghost use Rattle.rom_fields.specs.Failures.{Counts};
ghost use Rattle.rom_fields.specs.Texts.{escaped};
ghost use Rattle.rom_fields.specs.Written.{Puts, WritesText, sink};
ghost use Rattle.rom_tree.specs.Image.{image_node, HasNode};
ghost use Rattle.rom_tree.specs.Tree.{IsShallow, Node};
ghost use Rattle.rom_tree.specs.Walks.{given_path};
ghost use Rattle.path_walk.specs.Components.{is_empty};
ghost use Rattle.program_report.specs.Effort.{interpreter_count, library_count, run_path_size};
ghost use Rattle.program_report.specs.FileNeeded.{entry_count, file_needs, needed_or_none};
ghost use Rattle.program_report.specs.FileNeeded.{nothing_needed};
ghost use Rattle.program_report.specs.Needs.{may_execute, missing, need_line, need_lines};
ghost use Rattle.program_report.specs.Needs.{needs_in, needs_text, needs_warn, unread_line};

use crate::effort::Effort;
use crate::missing::{PATH_MAX, missing_interpreter, missing_library};
use elf_format::{Needs, interpreter};
use rom_fields::{ByteWrite, Failed, put, put_escaped};
use rom_tree::{NodeId, TreeImage, Walk, front_bytes, is_regular_at};
use std::marker::Model;

/// What a file needs: its interpreter, and the libraries that its dynamic segment names. Contracts
/// see the texts.
#[derive(Drop)]
pub struct FileNeeds<'a> {
    interpreter: Option<&'a [u8]>,
    libraries: Option<Needs<'a>>,
    run_path: Option<&'a [u8]>,
}

impl<'a> Model for FileNeeds<'a> {
    ghost use Rattle.std.specs.Prelude.{◌≡◌, ◌<◌, ◌^◌, length, option_map};
    ghost use Rattle.program_report.specs.FileNeeded.{FileNeeded, needed_or_none};

    ghost Value = { FileNeeded };

    ghost view = { λ n. record {
      interpreter = option_map (λ t. t.now) n.interpreter;
      libraries = needed_or_none n.libraries;
    } };

    ghost invariant = { λ n. (length (needed_or_none n.libraries).needed < 2 ^ 63)
        × (option_map (λ t. t.now) n.run_path ≡ (needed_or_none n.libraries).run_path) };
}

/// Returns the run path of a file, if it has one.
fn run_path_of<'a>(libraries: &Option<Needs<'a>>) -> Option<&'a [u8]>
    ensures { option_map (λ t. t.now) result ≡ (needed_or_none libraries.now).run_path }
{
    match libraries {
        Some(libraries) => libraries.run_path(),
        None => None,
    }
}

/// Counts the entries that name a library.
fn count_libraries(libraries: &Needs<'_>) -> usize
    ensures { result ≡ library_count libraries.now.needed }
{
    let mut count = 0;
    for index in 0..libraries.entries() {
        if libraries.needed(index).is_some() {
            count += 1;
        }
    }
    count
}

impl<'a> FileNeeds<'a> {
    /// Returns what a file of these bytes needs. Only one that can be executed needs its
    /// interpreter.
    pub fn of(is_executable: bool, bytes: &'a [u8]) -> FileNeeds<'a>
        ensures { result ≡ file_needs is_executable bytes.now }
    {
        let libraries = Needs::read(bytes);
        let run_path = run_path_of(&libraries);
        FileNeeds {
            interpreter: if is_executable {
                interpreter(bytes)
            } else {
                None
            },
            libraries,
            run_path,
        }
    }

    /// Returns that nothing is needed.
    fn nothing() -> FileNeeds<'a>
        ensures { result ≡ nothing_needed }
    {
        FileNeeds {
            interpreter: None,
            libraries: None,
            run_path: None,
        }
    }

    /// Returns the number of entries of the dynamic segment.
    pub(crate) fn entries(&self) -> usize
        ensures is { result ≡ entry_count self.now }
        ensures few { result < 2 ^ 63 }
    {
        match &self.libraries {
            Some(libraries) => libraries.entries(),
            None => 0,
        }
    }

    /// Returns 1 if there is an interpreter, and otherwise 0.
    pub(crate) fn interpreters(&self) -> usize
        ensures { result ≡ interpreter_count self.now.interpreter }
    {
        match self.interpreter {
            Some(_) => 1,
            None => 0,
        }
    }

    /// Returns the number of entries that name a library.
    pub(crate) fn libraries(&self) -> usize
        ensures { result ≡ library_count self.now.libraries.needed }
    {
        match &self.libraries {
            Some(libraries) => count_libraries(libraries),
            None => 0,
        }
    }

    /// Returns the number of bytes of the run path, or 0 if it is longer than a path may be.
    pub(crate) fn run_path_size(&self) -> usize
        ensures is { result ≡ run_path_size self.now.libraries.run_path }
        ensures small { result ≤ 4095 }
    {
        match self.run_path {
            Some(path) if path.len() <= PATH_MAX => path.len(),
            _ => 0,
        }
    }

    /// Returns the number of indices of `missing`: one for the interpreter, and one for each entry
    /// of the dynamic segment.
    pub fn count(&self) -> usize
        ensures { result ≡ 1 + entry_count self.now }
    {
        1 + self.entries()
    }

    /// Returns the library that an entry needs and the image does not have.
    #[tactic(auto, unfolding(crate::specs::Needs::missing))]
    fn missing_entry<'i, T: TreeImage<'i>>(&self, image: &mut T, entry: usize) -> Option<&'a [u8]>
        requires shallow { IsShallow (T.image image.old).tree }
        requires within { entry < entry_count self.now }
        ensures is { option_map (λ t. t.now) result
            ≡ slice_index_or (missing (T.image image.old) self.now) (1 + entry) None }
        ensures stays { T.image image.new ≡ T.image image.old }
    {
        match &self.libraries {
            Some(libraries) => { missing_library(image, self.run_path, libraries.needed(entry)) }
            None => None,
        }
    }

    /// Returns the name of what is needed and not in the image, or `None` if nothing is needed at
    /// this index or it is there. Index 0 is that of the interpreter, and 1 + i that of entry i of
    /// the dynamic segment. The image does not change. Directories may be 64 deep.
    ///
    /// A path is looked up as in `path_walk::walk`, and must lead to a regular file. A library
    /// whose name has no slash may be in a directory of the run path or in a usual one. What
    /// depends on the working directory, or on where the program is (`$` in the run path), counts
    /// as there, and so does a library whose run path has more than 4,095 bytes.
    #[tactic(auto, unfolding(crate::specs::Needs::missing))]
    pub fn missing<'i, T: TreeImage<'i>>(&self, image: &mut T, index: usize) -> Option<&'a [u8]>
        requires shallow { IsShallow (T.image image.old).tree }
        requires within { index < 1 + entry_count self.now }
        ensures is { option_map (λ t. t.now) result
            ≡ slice_index_or (missing (T.image image.old) self.now) index None }
        ensures stays { T.image image.new ≡ T.image image.old }
    {
        if index == 0 {
            return missing_interpreter(image, self.interpreter);
        }
        self.missing_entry(image, index - 1)
    }
}

/// Returns whether the owner, the group or others may execute a file of this mode.
fn may_execute(mode: u32) -> bool
    ensures { result ≡ may_execute mode }
{
    mode / 64 % 2 == 1 || mode / 8 % 2 == 1 || mode % 2 == 1
}

/// Returns what a node needs: something only if it is a regular file whose bytes are in one run.
fn needs_in<'a, T: TreeImage<'a>>(image: &T, n: NodeId) -> FileNeeds<'a>
    requires { HasNode (T.image image.now) n.0 }
    ensures { (x : Node) → image_node (T.image image.now) n.0 ≡ Some x
        → result ≡ needs_in (T.image image.now) x }
{
    if !is_regular_at(image, n) {
        return FileNeeds::nothing();
    }
    let stat = image.stat(n);
    let bytes = front_bytes(image, n);
    if bytes.len() != stat.size as usize {
        return FileNeeds::nothing();
    }
    FileNeeds::of(may_execute(stat.mode), bytes)
}

/// Puts the line of what is missing.
fn put_need<'a, W: ByteWrite>(w: &mut W, failed: &mut bool, walk: &Walk<'a>, name: &[u8])
    ensures { Puts (sink (W.output w.old) failed.old) (sink (W.output w.new) failed.new)
        (need_line (escaped (given_path walk.now)) (Some name.now)) }
{
    put(w, failed, b"needs ");
    walk.put_path(w, failed);
    put(w, failed, b" ");
    put_escaped(w, failed, name);
    put(w, failed, b"\n");
}

/// Puts the line of a file that is not looked at.
fn put_unread<'a, W: ByteWrite>(w: &mut W, failed: &mut bool, walk: &Walk<'a>)
    ensures { Puts (sink (W.output w.old) failed.old) (sink (W.output w.new) failed.new)
        (unread_line (escaped (given_path walk.now))) }
{
    put(w, failed, b"unread ");
    walk.put_path(w, failed);
    put(w, failed, b"\n");
}

/// Puts the lines of what the file of the node that a walk returned last needs and is missing.
/// Returns whether there is a line.
fn put_needs<'a, T: TreeImage<'a>, W: ByteWrite>(
    image: &mut T,
    w: &mut W,
    failed: &mut bool,
    walk: &Walk<'a>,
    needs: &FileNeeds<'a>,
) -> bool
    requires { IsShallow (T.image image.old).tree }
    ensures text { Puts (sink (W.output w.old) failed.old) (sink (W.output w.new) failed.new)
        (need_lines (escaped (given_path walk.now)) (missing (T.image image.old) needs.now)) }
    ensures some { result ≡ not (is_empty (need_lines (escaped (given_path walk.now))
        (missing (T.image image.old) needs.now))) }
    ensures stays { T.image image.new ≡ T.image image.old }
{
    let mut some = false;
    for index in 0..needs.count() {
        if let Some(name) = needs.missing(image, index) {
            put_need(w, failed, walk, name);
            some = true;
        }
    }
    some
}

/// Writes the line of a file that is not looked at, which ends the text.
fn finish_unread<'a, W: ByteWrite>(w: &mut W, walk: &Walk<'a>) -> Result<bool, Failed>
    ensures text { WritesText (W.output w.old).contents (W.output w.new).contents result
        (unread_line (escaped (given_path walk.now))) }
    ensures count { Counts (W.output w.old).failures (W.output w.new).failures result }
    ensures warns { IfOk result (λ b. b ≡ true) }
{
    let mut failed = false;
    put_unread(w, &mut failed, walk);
    if failed { Err(Failed) } else { Ok(true) }
}

/// Writes which interpreters and libraries the programs of an image need that are not in it, in
/// the list's order. Returns whether there is a line. The image does not change. Directories may be
/// 64 deep. The lines are:
///
/// - `needs PATH NAME`: the file at PATH needs NAME, which is the path of an interpreter, or a
///   library (DT_NEEDED);
/// - `unread PATH`: to look at what the file at PATH needs would cost more than is left of the
///   image's bytes and 2^20. It and the files after it are not looked at. `Effort` has the prices.
///
/// A file is looked at if its bytes are in one run. Where libraries are looked for, `missing` of
/// `FileNeeds` says: not in what ld.so.conf or LD_LIBRARY_PATH name.
///
/// # Errors
///
/// `Failed` if a write failed. Then a prefix of the lines was written.
pub fn write_needs<'a, T: TreeImage<'a>, W: ByteWrite>(
    image: &mut T,
    w: &mut W,
) -> Result<bool, Failed>
    requires { IsShallow (T.image image.old).tree }
    ensures text { WritesText (W.output w.old).contents (W.output w.new).contents result
        (needs_text (T.image image.old)) }
    ensures count { Counts (W.output w.old).failures (W.output w.new).failures result }
    ensures warns { IfOk result (λ b. b ≡ needs_warn (T.image image.old)) }
    ensures stays { T.image image.new ≡ T.image image.old }
{
    let mut failed = false;
    let mut warns = false;
    let bytes = image.bytes();
    let mut effort = Effort::of(&*image, bytes.len() as u64);
    let mut walk = Walk::new();
    while !failed {
        let Some(node) = walk.next(&*image) else {
            return Ok(warns);
        };
        let stat = image.stat(node);
        let needs = needs_in(&*image, node);
        if !effort.take(&needs, stat.size) {
            return finish_unread(w, &walk);
        }
        warns |= put_needs(image, w, &mut failed, &walk, &needs);
    }
    Err(Failed)
}

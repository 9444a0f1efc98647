//! The commands of lines.
ghost use Rattle.std.specs.Prelude.{◌≡◌, ◌≤◌, ℕ, List, length, Option, IfSome};
ghost use Rattle.serve_lines.specs.Commands.{Line, line_of, call_of, fields_left, one_field};
ghost use Rattle.serve_lines.specs.Commands.{two_fields, three_fields, number as number_then};
ghost use Rattle.serve_lines.specs.declared.word.Word.TheVariants.{Read};
ghost use Rattle.serve_lines.specs.Reading.{line_by, one_by, two_by, three_by, number_by};
ghost use Rattle.serve_lines.specs.Reading.{numbers_by, three_numbers_by, is_small_line};

use crate::bad::Bad;
use crate::field::{cut, number};
use crate::path_text::PathText;
use crate::word::{FdCall, PathCall, Word, word_of};
use open_files::Fd;

/// The most bytes for which one `read` may ask.
const MOST_READ: u32 = 4096;

/// A command, with its numbers and the text of its path.
#[derive(Clone, Copy)]
pub enum Command<'l> {
    /// `lookup`, `stat`, `lstat`, `readlink` or `open`, and a path.
    Path(PathCall, PathText<'l>),
    /// `fstat`, `readdir`, `rewind` or `close`, and a descriptor.
    Fd(FdCall, Fd),
    /// `read`: a descriptor, and the number of bytes, at most 4,096.
    Read(Fd, u32),
    /// `lend`: a descriptor, and the most bytes.
    Lend(Fd, u32),
    /// `seek`: a descriptor, and its new position.
    Seek(Fd, u32),
    /// `map`: a descriptor, the first byte, and the number of bytes.
    Map(Fd, u32, u32),
    /// `quit`, which closes all that is open.
    Quit,
    /// `mount`: the number of an image, and the path of the directory that it is to cover.
    Mount(u32, PathText<'l>),
    /// `umount`: the number of an image.
    Umount(u32),
}

/// Returns the last field, if exactly one is left and it is not empty.
fn one<'l>(rest: Option<&'l [u8]>) -> Option<&'l [u8]>
    requires { IfSome rest (λ r. length r.now ≤ 8191) }
    ensures field { (line : List ℕ → Line)
        → one_field line (fields_left rest.entry) ≡ one_by line result }
    ensures short { IfSome result (λ f. length f.now ≤ 8191) }
{
    let Some(text) = rest else {
        return None;
    };
    match cut(text) {
        (_, Some(_)) => None,
        (field, None) => {
            if field.is_empty() {
                return None;
            }
            Some(field)
        }
    }
}

/// Returns the last two fields, if exactly two are left and none is empty.
fn two<'l>(rest: Option<&'l [u8]>) -> Option<(&'l [u8], &'l [u8])>
    requires { IfSome rest (λ r. length r.now ≤ 8191) }
    ensures fields { (line : List ℕ → List ℕ → Line)
        → two_fields line (fields_left rest.entry) ≡ two_by line result }
    ensures short { IfSome result (λ p. length p.1.now ≤ 8191) }
{
    let Some(text) = rest else {
        return None;
    };
    let (first, after) = cut(text);
    let Some(second) = one(after) else {
        return None;
    };
    if first.is_empty() {
        return None;
    }
    Some((first, second))
}

/// Returns the last three fields, if exactly three are left and none is empty.
fn three<'l>(rest: Option<&'l [u8]>) -> Option<(&'l [u8], &'l [u8], &'l [u8])>
    requires { IfSome rest (λ r. length r.now ≤ 8191) }
    ensures { (line : List ℕ → List ℕ → List ℕ → Line)
        → three_fields line (fields_left rest.entry) ≡ three_by line result }
{
    let Some(text) = rest else {
        return None;
    };
    let (first, after) = cut(text);
    let Some((second, third)) = two(after) else {
        return None;
    };
    if first.is_empty() {
        return None;
    }
    Some((first, second, third))
}

/// Returns the number of the one field that is left.
fn one_number(rest: Option<&[u8]>) -> Result<u32, Bad>
    requires { IfSome rest (λ r. length r.now ≤ 8191) }
    ensures { (line : ℕ → Line)
        → one_field (λ f. number_then f line) (fields_left rest.entry) ≡ number_by line result }
{
    let Some(field) = one(rest) else {
        return Err(Bad::Line);
    };
    let Some(n) = number(field) else {
        return Err(Bad::Number);
    };
    Ok(n)
}

/// Returns the numbers of the two fields that are left.
fn two_numbers(rest: Option<&[u8]>) -> Result<(u32, u32), Bad>
    requires { IfSome rest (λ r. length r.now ≤ 8191) }
    ensures { (line : ℕ → ℕ → Line)
        → two_fields (λ f g. number_then f (λ n. number_then g (λ m. line n m)))
        (fields_left rest.entry) ≡ numbers_by line result }
{
    let Some((first, second)) = two(rest) else {
        return Err(Bad::Line);
    };
    let Some(n) = number(first) else {
        return Err(Bad::Number);
    };
    let Some(m) = number(second) else {
        return Err(Bad::Number);
    };
    Ok((n, m))
}

/// Returns the numbers of the three fields that are left.
fn three_numbers(rest: Option<&[u8]>) -> Result<(u32, u32, u32), Bad>
    requires { IfSome rest (λ r. length r.now ≤ 8191) }
    ensures { (line : ℕ → ℕ → ℕ → Line)
        → three_fields (λ f g h. number_then f (λ n. number_then g (λ m. number_then h
        (λ k. line n m k)))) (fields_left rest.entry) ≡ three_numbers_by line result }
{
    let Some((first, second, third)) = three(rest) else {
        return Err(Bad::Line);
    };
    let Some(n) = number(first) else {
        return Err(Bad::Number);
    };
    let Some(m) = number(second) else {
        return Err(Bad::Number);
    };
    let Some(k) = number(third) else {
        return Err(Bad::Number);
    };
    Ok((n, m, k))
}

/// Returns the command of the fields behind `read`.
fn read_call<'l>(rest: Option<&'l [u8]>) -> Result<Command<'l>, Bad>
    requires { IfSome rest (λ r. length r.now ≤ 8191) }
    ensures asks { call_of Read (fields_left rest.entry) ≡ line_by result }
    ensures small { is_small_line result }
{
    match two_numbers(rest) {
        Err(bad) => Err(bad),
        Ok((fd, len)) => {
            if len > MOST_READ {
                return Err(Bad::Number);
            }
            Ok(Command::Read(Fd(fd), len))
        }
    }
}

/// Returns the command of a word and the fields behind it.
fn call<'l>(word: Word, rest: Option<&'l [u8]>) -> Result<Command<'l>, Bad>
    requires { IfSome rest (λ r. length r.now ≤ 8191) }
    ensures asks { call_of word (fields_left rest.entry) ≡ line_by result }
    ensures small { is_small_line result }
{
    match word {
        Word::Path(path_call) => match one(rest) {
            None => Err(Bad::Line),
            Some(path) => Ok(Command::Path(path_call, PathText::new(path))),
        },
        Word::Fd(fd_call) => match one_number(rest) {
            Err(bad) => Err(bad),
            Ok(fd) => Ok(Command::Fd(fd_call, Fd(fd))),
        },
        Word::Read => read_call(rest),
        Word::Lend => match two_numbers(rest) {
            Err(bad) => Err(bad),
            Ok((fd, len)) => Ok(Command::Lend(Fd(fd), len)),
        },
        Word::Seek => match two_numbers(rest) {
            Err(bad) => Err(bad),
            Ok((fd, position)) => Ok(Command::Seek(Fd(fd), position)),
        },
        Word::Map => match three_numbers(rest) {
            Err(bad) => Err(bad),
            Ok((fd, off, len)) => Ok(Command::Map(Fd(fd), off, len)),
        },
        Word::Quit => match rest {
            None => Ok(Command::Quit),
            Some(_) => Err(Bad::Line),
        },
        Word::Mount => match two(rest) {
            None => Err(Bad::Line),
            Some((image, path)) => match number(image) {
                None => Err(Bad::Number),
                Some(image) => Ok(Command::Mount(image, PathText::new(path))),
            },
        },
        Word::Umount => match one_number(rest) {
            Err(bad) => Err(bad),
            Ok(image) => Ok(Command::Umount(image)),
        },
    }
}

/// Returns the command of a line, which comes without its line feed. `mounts` is true if `mount`
/// and `umount` are words. A `read` asks for at most 4,096 bytes.
///
/// # Errors
///
/// They are tested in this order. `Bad::Line`: the line has more than 8,191 bytes. `Bad::Command`:
/// its first field is not a word. `Bad::Line`: it has more or fewer fields than its word has, or an
/// empty field. `Bad::Number`: a number is not valid. `Bad::Session` is never returned.
#[tactic(auto, unfolding(crate::specs::Commands::line_of))]
pub fn read_line<'l>(line: &'l [u8], mounts: bool) -> Result<Command<'l>, Bad>
    ensures asks { line_of mounts line.now ≡ line_by result }
    ensures small { is_small_line result }
{
    if line.len() > 8191 {
        return Err(Bad::Line);
    }
    let (first, rest) = cut(line);
    match word_of(first, mounts) {
        None => Err(Bad::Command),
        Some(word) => call(word, rest),
    }
}

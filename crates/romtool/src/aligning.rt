//! The alignments of the scanned files.
use crate::patterns::Patterns;
use crate::stop::{Stop, named};
use crate::watched::States;
use build_commands::inventory::{FileKind, NamedFile, align_of};
use elf_format::{HEAD_LEN, needs_pages};
use system_files::{Identity, Refusal, elf_front};

/// Whether a file of these bytes is an ELF file, or a script that names an interpreter.
fn is_program(bytes: &[u8]) -> bool {
    bytes.starts_with(b"\x7fELF") || bytes.starts_with(b"#!")
}

/// How the alignments of files are found.
#[derive(Clone, Copy)]
pub struct AlignRules<'a> {
    pub patterns: &'a Patterns,
    /// The alignment of programs and libraries that match no pattern.
    pub align: u32,
}

/// What a regular file is: its alignment, and whether it is a program, if that was looked at.
#[derive(Clone, Copy)]
struct Looked {
    align: u32,
    is_program: bool,
}

/// Looks at a regular file. It is opened only if no pattern decides, or programs are noted.
fn looked_at(
    rt: &HostRuntime,
    rules: AlignRules<'_>,
    file: &NamedFile,
    notes_programs: bool,
) -> Result<Looked, Refusal> {
    let path = file.place.get(file.front..).unwrap_or("");
    let chosen = rules
        .patterns
        .align(rt.alloc(), path.trim_start_matches('/'))?;
    let is_asked = chosen.is_none() && rules.align != align_of(false, rules.align);
    if !is_asked && !notes_programs {
        let align = chosen.unwrap_or(align_of(false, rules.align));
        return Ok(Looked {
            align,
            is_program: false,
        });
    }
    let found = Identity::at(file.inode.device, file.inode.number);
    let front = elf_front(rt, &file.place, found, HEAD_LEN)?;
    let align = match chosen {
        Some(align) => align,
        None => align_of(is_asked && needs_pages(&front), rules.align),
    };
    Ok(Looked {
        align,
        is_program: is_program(&front),
    })
}

/// Returns the alignment of each file, in bytes: of a regular file that of the last pattern that
/// matches its path; otherwise this one if the file is a program or a library that is executed in
/// place. Notes which are programs, if these are noted.
///
/// # Errors
///
/// `Refused` for a file that cannot be read; `Memory`.
pub fn alignments(
    rt: &HostRuntime,
    rules: AlignRules<'_>,
    found: &[NamedFile],
    states: &mut States,
) -> Result<Vec<u32>, Stop> {
    let mut aligns = Vec::new(rt.alloc());
    for file in found {
        if !matches!(file.kind, FileKind::Regular) {
            aligns.push(file.align)?;
            continue;
        }
        let looked = looked_at(rt, rules, file, states.notes_programs());
        let looked = named(rt.alloc(), &file.place, looked)?;
        aligns.push(looked.align)?;
        if looked.is_program {
            states.note_program(&file.place);
        }
    }
    Ok(aligns)
}

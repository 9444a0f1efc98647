//! Prints the line of a build or of a strict scan, and flushes it.
ghost use Rattle.std.specs.Prelude.{◌≡◌, OnOk, decimal};
ghost use Rattle.build_commands.specs.Printed.{built_line, manifest_line, misfit_line};
ghost use Rattle.build_commands.specs.Printed.{refusal_line, size_line, strict_line, unfit_line};
ghost use Rattle.build_commands.specs.Printed.{needs_line, unread_line, xip_line};
ghost use Rattle.rom_fields.specs.Failures.{Counts, one_more};
ghost use Rattle.rom_fields.specs.Written.{WritesText};

use crate::changes::ChangeCounts;
use crate::line::print_line;
use crate::part::Part::{Name, Number, Text};
use crate::warnings::warning_name;
use rom_fields::{ByteWrite, Failed};

/// Writes the line of a refusal, and flushes it: who refused, the line, and the refusal's number
/// and name.
#[tactic(auto, unfolding(crate::specs::Lines::line_text, crate::specs::Lines::part_text, crate::specs::Printed::refusal_line))]
fn print_refusal<'x, W: ByteWrite>(
    w: &mut W,
    who: &'x [u8],
    line: u64,
    number: u32,
    name: &'x [u8],
) -> Result<(), Failed>
    ensures text { WritesText (W.output w.old).contents (W.output w.new).contents result
        (refusal_line who.now line number name.now) }
    ensures count { Counts (W.output w.old).failures (W.output w.new).failures result }
    ensures flushed { OnOk result ((W.output w.new).flushes ≡ one_more (W.output w.old).flushes) }
{
    let (line, number) = (Number(line), Number(u64::from(number)));
    let (space, end) = (Text(b" "), Text(b"\n"));
    print_line(
        w,
        &[
            Text(who),
            space,
            line,
            space,
            number,
            space,
            Text(name),
            end,
        ],
    )
}

/// Writes `ok LENGTH` for an image of this number of bytes, and flushes it.
///
/// # Errors
///
/// `Failed` if a write or the flush failed. Then a prefix of the line was written.
#[tactic(auto, unfolding(crate::specs::Lines::line_text, crate::specs::Lines::part_text, crate::specs::Printed::built_line))]
pub fn print_built<W: ByteWrite>(w: &mut W, len: u64) -> Result<(), Failed>
    ensures text { WritesText (W.output w.old).contents (W.output w.new).contents result
        (built_line len) }
    ensures count { Counts (W.output w.old).failures (W.output w.new).failures result }
    ensures flushed { OnOk result ((W.output w.new).flushes ≡ one_more (W.output w.old).flushes) }
{
    print_line(w, &[Text(b"ok "), Number(len), Text(b"\n")])
}

/// Writes `manifest LINE NUMBER NAME` for an invalid manifest, and flushes it: its first faulty
/// line, and the least fault of that line, as in `ManifestError`.
///
/// # Errors
///
/// `Failed` if a write or the flush failed. Then a prefix of the line was written.
pub fn print_bad_manifest<W: ByteWrite>(w: &mut W, line: u64, number: u32) -> Result<(), Failed>
    ensures text { WritesText (W.output w.old).contents (W.output w.new).contents result
        (manifest_line line number) }
    ensures count { Counts (W.output w.old).failures (W.output w.new).failures result }
    ensures flushed { OnOk result ((W.output w.new).flushes ≡ one_more (W.output w.old).flushes) }
{
    let name = manifest::name(number);
    print_refusal(w, b"manifest", line, number, name.as_bytes())
}

/// Writes `plan LINE NUMBER NAME` for a manifest that does not fit the format, and flushes it: the
/// line of its least misfit, or 0 for the whole, and the misfit, as in `PlanError`.
///
/// # Errors
///
/// `Failed` if a write or the flush failed. Then a prefix of the line was written.
pub fn print_misfit<W: ByteWrite>(w: &mut W, line: u64, number: u32) -> Result<(), Failed>
    ensures text { WritesText (W.output w.old).contents (W.output w.new).contents result
        (misfit_line line number) }
    ensures count { Counts (W.output w.old).failures (W.output w.new).failures result }
    ensures flushed { OnOk result ((W.output w.new).flushes ≡ one_more (W.output w.old).flushes) }
{
    let name = layout_plan::name(number);
    print_refusal(w, b"plan", line, number, name.as_bytes())
}

/// Writes `unfit OWNERS GROUPS MODES` for a strict scan that would change so many owners, groups
/// and modes, and flushes it.
///
/// # Errors
///
/// `Failed` if a write or the flush failed. Then a prefix of the line was written.
#[tactic(auto, unfolding(crate::specs::Lines::line_text, crate::specs::Lines::part_text, crate::specs::Printed::unfit_line))]
pub fn print_unfit<W: ByteWrite>(w: &mut W, counts: ChangeCounts) -> Result<(), Failed>
    ensures text { WritesText (W.output w.old).contents (W.output w.new).contents result
        (unfit_line counts.owners counts.groups counts.modes) }
    ensures count { Counts (W.output w.old).failures (W.output w.new).failures result }
    ensures flushed { OnOk result ((W.output w.new).flushes ≡ one_more (W.output w.old).flushes) }
{
    print_line(
        w,
        &[
            Text(b"unfit "),
            Number(counts.owners),
            Text(b" "),
            Number(counts.groups),
            Text(b" "),
            Number(counts.modes),
            Text(b"\n"),
        ],
    )
}

/// Writes `size LENGTH MOST` for an image that would have LENGTH bytes and may have MOST, and
/// flushes it.
///
/// # Errors
///
/// `Failed` if a write or the flush failed. Then a prefix of the line was written.
#[tactic(auto, unfolding(crate::specs::Lines::line_text, crate::specs::Lines::part_text, crate::specs::Printed::size_line))]
pub fn print_size<W: ByteWrite>(w: &mut W, len: u64, most: u64) -> Result<(), Failed>
    ensures text { WritesText (W.output w.old).contents (W.output w.new).contents result
        (size_line len most) }
    ensures count { Counts (W.output w.old).failures (W.output w.new).failures result }
    ensures flushed { OnOk result ((W.output w.new).flushes ≡ one_more (W.output w.old).flushes) }
{
    print_line(
        w,
        &[
            Text(b"size "),
            Number(len),
            Text(b" "),
            Number(most),
            Text(b"\n"),
        ],
    )
}

/// Writes `strict LINE NUMBER NAME` for a build that refuses what it would otherwise only warn of,
/// and flushes it: the line of the least warning, or 0 for the whole, and the warning.
///
/// # Errors
///
/// `Failed` if a write or the flush failed. Then a prefix of the line was written.
pub fn print_strict<W: ByteWrite>(w: &mut W, line: u64, number: u32) -> Result<(), Failed>
    ensures text { WritesText (W.output w.old).contents (W.output w.new).contents result
        (strict_line line number) }
    ensures count { Counts (W.output w.old).failures (W.output w.new).failures result }
    ensures flushed { OnOk result ((W.output w.new).flushes ≡ one_more (W.output w.old).flushes) }
{
    let name = warning_name(number);
    print_refusal(w, b"strict", line, number, name.as_bytes())
}

/// Writes `xip LINE REASON PATH` for an image with a program that would not be executed in place,
/// and flushes it: the line of the manifest that names it, why, and its path in the image.
///
/// # Errors
///
/// `Failed` if a write or the flush failed. Then a prefix of the line was written.
#[tactic(auto, unfolding(crate::specs::Lines::line_text, crate::specs::Lines::part_text, crate::specs::Printed::xip_line))]
pub fn print_xip<'x, W: ByteWrite>(
    w: &mut W,
    line: u64,
    reason: &'x [u8],
    path: &'x [u8],
) -> Result<(), Failed>
    ensures text { WritesText (W.output w.old).contents (W.output w.new).contents result
        (xip_line line reason.now path.now) }
    ensures count { Counts (W.output w.old).failures (W.output w.new).failures result }
    ensures flushed { OnOk result ((W.output w.new).flushes ≡ one_more (W.output w.old).flushes) }
{
    print_line(
        w,
        &[
            Text(b"xip "),
            Number(line),
            Text(b" "),
            Text(reason),
            Text(b" "),
            Name(path),
            Text(b"\n"),
        ],
    )
}

/// Writes `needs LINE PATH NAME` for an image with a program that needs a file which it would not
/// have, and flushes it: the line of the manifest that names the program, its path in the image,
/// and the interpreter or the library.
///
/// # Errors
///
/// `Failed` if a write or the flush failed. Then a prefix of the line was written.
#[tactic(auto, unfolding(crate::specs::Lines::line_text, crate::specs::Lines::part_text, crate::specs::Printed::needs_line))]
pub fn print_needs<'x, W: ByteWrite>(
    w: &mut W,
    line: u64,
    path: &'x [u8],
    name: &'x [u8],
) -> Result<(), Failed>
    ensures text { WritesText (W.output w.old).contents (W.output w.new).contents result
        (needs_line line path.now name.now) }
    ensures count { Counts (W.output w.old).failures (W.output w.new).failures result }
    ensures flushed { OnOk result ((W.output w.new).flushes ≡ one_more (W.output w.old).flushes) }
{
    print_line(
        w,
        &[
            Text(b"needs "),
            Number(line),
            Text(b" "),
            Name(path),
            Text(b" "),
            Name(name),
            Text(b"\n"),
        ],
    )
}

/// Writes `unread LINE PATH` for an image with a program of which it is not known what it needs,
/// and flushes it: the line of the manifest that names the program, and its path in the image.
///
/// # Errors
///
/// `Failed` if a write or the flush failed. Then a prefix of the line was written.
#[tactic(auto, unfolding(crate::specs::Lines::line_text, crate::specs::Lines::part_text, crate::specs::Printed::unread_line))]
pub fn print_unread<'x, W: ByteWrite>(w: &mut W, line: u64, path: &'x [u8]) -> Result<(), Failed>
    ensures text { WritesText (W.output w.old).contents (W.output w.new).contents result
        (unread_line line path.now) }
    ensures count { Counts (W.output w.old).failures (W.output w.new).failures result }
    ensures flushed { OnOk result ((W.output w.new).flushes ≡ one_more (W.output w.old).flushes) }
{
    print_line(
        w,
        &[
            Text(b"unread "),
            Number(line),
            Text(b" "),
            Name(path),
            Text(b"\n"),
        ],
    )
}

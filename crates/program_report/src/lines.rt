//! The lines of one program, and the line of the totals.
ghost use Rattle.std.specs.Prelude.{◌≡◌, ◌+◌, ◌++◌, ◌<◌, ◌∷◌, ◌^◌, [], decimal, if◌then◌else◌};
ghost use Rattle.rom_fields.specs.Texts.{escaped};
ghost use Rattle.rom_fields.specs.Written.{Puts, sink};
ghost use Rattle.rom_tree.specs.Walks.{given_path};
ghost use Rattle.image_info.specs.Map.{address_text};
ghost use Rattle.program_report.specs.Lines.{found_lines, head_of, reason_word, shared_line};
ghost use Rattle.program_report.specs.Lines.{total_line, unused_in, unused_line, verdict_line};
ghost use Rattle.program_report.specs.declared.finding.Verdict.TheVariants.{InPlace, Not};

use crate::finding::{Found, Reason, Verdict, is_shared, page_count};
use crate::question::Question;
use crate::tally::Tally;
use image_info::put_eight_digits;
use program_pages::ProgramPages;
use rom_fields::{ByteWrite, put, put_long_decimal};
use rom_tree::Walk;

/// Puts an address: `0x` and eight digits, or sixteen digits from 2^32 on.
fn put_address<W: ByteWrite>(w: &mut W, failed: &mut bool, address: u64)
    ensures { Puts (sink (W.output w.old) failed.old)
        (sink (W.output w.new) failed.new) (address_text address) }
{
    put(w, failed, b"0x");
    if address < 4_294_967_296 {
        put_eight_digits(w, failed, address);
    } else {
        put_eight_digits(w, failed, address / 4_294_967_296);
        put_eight_digits(w, failed, address);
    }
}

/// Puts a space and a number.
pub(crate) fn put_number<W: ByteWrite>(w: &mut W, failed: &mut bool, n: u64)
    ensures { Puts (sink (W.output w.old) failed.old) (sink (W.output w.new) failed.new)
        (32 ∷ [] ++ decimal n) }
{
    put(w, failed, b" ");
    put_long_decimal(w, failed, n);
}

/// Puts a word, a path, a space and an address.
pub(crate) fn put_head<'a, W: ByteWrite>(
    w: &mut W,
    failed: &mut bool,
    word: &[u8],
    walk: &Walk<'a>,
    address: u64,
)
    ensures { Puts (sink (W.output w.old) failed.old) (sink (W.output w.new) failed.new)
        (head_of word.now (escaped (given_path walk.now)) address) }
{
    put(w, failed, word);
    walk.put_path(w, failed);
    put(w, failed, b" ");
    put_address(w, failed, address);
}

impl Reason {
    /// Returns the word of a reason.
    pub fn word(self) -> &'static [u8]
        ensures { result.now ≡ reason_word self }
    {
        match self {
            Reason::Unaligned => b"unaligned",
            Reason::Scattered => b"scattered",
            Reason::Unloadable => b"unloadable",
            Reason::Table => b"table",
            Reason::Romfs => b"romfs",
            Reason::TextRelocations => b"textrel",
            Reason::Writable => b"writable",
        }
    }
}

/// Puts the line of a program that is executed in place.
fn put_pages<'a, W: ByteWrite>(
    w: &mut W,
    failed: &mut bool,
    walk: &Walk<'a>,
    address: u64,
    pages: &ProgramPages,
)
    ensures { Puts (sink (W.output w.old) failed.old) (sink (W.output w.new) failed.new)
        (verdict_line (escaped (given_path walk.now)) address (InPlace pages.now)) }
{
    put_head(w, failed, b"xip ", walk, address);
    put_number(w, failed, pages.in_place);
    put_number(w, failed, pages.copied);
    put_number(w, failed, pages.zero);
    put(w, failed, b"\n");
}

/// Puts the line of a program of which nothing is executed in place.
fn put_not<'a, W: ByteWrite>(
    w: &mut W,
    failed: &mut bool,
    walk: &Walk<'a>,
    address: u64,
    reason: Reason,
    pages: u64,
)
    ensures { Puts (sink (W.output w.old) failed.old) (sink (W.output w.new) failed.new)
        (verdict_line (escaped (given_path walk.now)) address (Not reason pages)) }
{
    put_head(w, failed, b"not ", walk, address);
    put(w, failed, b" ");
    put(w, failed, reason.word());
    put_number(w, failed, pages);
    put(w, failed, b"\n");
}

/// Puts the line of a verdict.
fn put_verdict<'a, W: ByteWrite>(
    w: &mut W,
    failed: &mut bool,
    walk: &Walk<'a>,
    address: u64,
    verdict: Verdict,
)
    ensures { Puts (sink (W.output w.old) failed.old) (sink (W.output w.new) failed.new)
        (verdict_line (escaped (given_path walk.now)) address verdict) }
{
    match verdict {
        Verdict::InPlace(pages) => put_pages(w, failed, walk, address, &pages),
        Verdict::Not { reason, pages } => put_not(w, failed, walk, address, reason, pages),
    }
}

/// Puts the line of a program whose last page has other data as well.
fn put_shared<'a, W: ByteWrite>(
    w: &mut W,
    failed: &mut bool,
    walk: &Walk<'a>,
    address: u64,
    found: &Found,
)
    ensures { Puts (sink (W.output w.old) failed.old) (sink (W.output w.new) failed.new)
        (shared_line (escaped (given_path walk.now)) address found.now) }
{
    if is_shared(found) {
        put_head(w, failed, b"shared ", walk, address);
        put_number(w, failed, page_count(found.size) * 4_096);
        put(w, failed, b"\n");
    }
}

/// Returns how many bytes of a program are behind its last segment.
fn unused_in(found: &Found) -> u64
    ensures { result ≡ unused_in found.now.size found.now.verdict }
{
    match found.verdict {
        Verdict::InPlace(pages) => u64::from(found.size).saturating_sub(pages.used),
        Verdict::Not { .. } => 0,
    }
}

/// Puts the line of a program with more than a page behind its last segment.
fn put_unused<'a, W: ByteWrite>(w: &mut W, failed: &mut bool, walk: &Walk<'a>, found: &Found)
    ensures { Puts (sink (W.output w.old) failed.old) (sink (W.output w.new) failed.new)
        (unused_line (escaped (given_path walk.now)) found.now) }
{
    let unused = unused_in(found);
    if unused > 4_096 {
        put(w, failed, b"unused ");
        walk.put_path(w, failed);
        put_number(w, failed, unused);
        put(w, failed, b"\n");
    }
}

/// Puts the line of advice, if advice is asked for.
fn put_advice<'a, W: ByteWrite>(
    w: &mut W,
    failed: &mut bool,
    walk: &Walk<'a>,
    question: &Question,
    found: &Found,
)
    ensures { Puts (sink (W.output w.old) failed.old) (sink (W.output w.new) failed.new)
        (if question.now.advice then unused_line (escaped (given_path walk.now)) found.now
        else []) }
{
    if question.advice {
        put_unused(w, failed, walk, found);
    }
}

/// Puts the lines of a program, whose path is that of the node that a walk returned last.
pub(crate) fn put_found<'a, W: ByteWrite>(
    w: &mut W,
    failed: &mut bool,
    walk: &Walk<'a>,
    question: &Question,
    found: &Found,
)
    requires { question.now.base + found.now.start < 2 ^ 64 }
    ensures { Puts (sink (W.output w.old) failed.old) (sink (W.output w.new) failed.new)
        (found_lines question.now (escaped (given_path walk.now)) found.now) }
{
    let address = question.base + u64::from(found.start);
    put_verdict(w, failed, walk, address, found.verdict);
    put_shared(w, failed, walk, address, found);
    put_advice(w, failed, walk, question, found);
}

/// Puts the line of the totals.
pub(crate) fn put_total<W: ByteWrite>(w: &mut W, failed: &mut bool, tally: &Tally)
    ensures { Puts (sink (W.output w.old) failed.old) (sink (W.output w.new) failed.new)
        (total_line tally.now) }
{
    put(w, failed, b"total");
    put_number(w, failed, tally.programs);
    put_number(w, failed, tally.in_place);
    put_number(w, failed, tally.copied);
    put_number(w, failed, tally.not);
    put(w, failed, b"\n");
}

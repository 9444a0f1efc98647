//! The report of an image.
ghost use Rattle.std.specs.Prelude.{◌≡◌, ◌+◌, ◌<◌, ◌≤◌, ◌^◌, IfOk, IfSome, Some, length};
ghost use Rattle.rom_fields.specs.Failures.{Counts};
ghost use Rattle.rom_fields.specs.Texts.{escaped};
ghost use Rattle.rom_fields.specs.Written.{Puts, WritesText, sink};
ghost use Rattle.rom_tree.specs.Image.{image_node, HasNode};
ghost use Rattle.rom_tree.specs.Tree.{IsShallow, Node};
ghost use Rattle.rom_tree.specs.Walks.{given_path};
ghost use Rattle.image_check.specs.Any.{any_view};
ghost use Rattle.program_report.specs.Found.{found_in};
ghost use Rattle.program_report.specs.Lines.{node_lines, programs_text, tally_warns};
ghost use Rattle.program_report.specs.Lines.{total_line, warns};

use crate::finding::Found;
use crate::findings::Findings;
use crate::lines::{put_found, put_total};
use crate::object::put_other;
use crate::question::Question;
use crate::tally::Tally;
use image_check::AnyImage;
use rom_fields::{ByteWrite, Failed};
use rom_tree::{NodeId, Walk};
use std::alloc::Global;

/// Puts the lines of the node that a walk returned last, of which this was found.
fn put_name<'a, W: ByteWrite>(
    image: &AnyImage<'a>,
    question: &Question,
    w: &mut W,
    failed: &mut bool,
    n: NodeId,
    walk: &Walk<'a>,
    found: Option<Found>,
)
    requires node { HasNode (any_view image.now) n.0 }
    requires fits { question.now.base + length (any_view image.now).bytes ≤ 2 ^ 64 }
    requires found { (x : Node) → image_node (any_view image.now) n.0 ≡ Some x
        → found ≡ found_in image.now question.now x }
    requires within { IfSome found (λ f. f.start < length (any_view image.now).bytes) }
    ensures { (x : Node) → image_node (any_view image.now) n.0 ≡ Some x
        → Puts (sink (W.output w.old) failed.old) (sink (W.output w.new) failed.new)
        (node_lines image.now question.now (escaped (given_path walk.now)) x
        (found_in image.now question.now x)) }
{
    match found {
        Some(found) => put_found(w, failed, walk, question, &found),
        None => put_other(image, question, w, failed, n, walk),
    }
}

/// Writes the line of the totals. Returns whether a program is not, or not wholly, executed in
/// place.
fn finish<W: ByteWrite>(w: &mut W, tally: &Tally) -> Result<bool, Failed>
    ensures text { WritesText (W.output w.old).contents (W.output w.new).contents result
        (total_line tally.now) }
    ensures count { Counts (W.output w.old).failures (W.output w.new).failures result }
    ensures warns { IfOk result (λ b. b ≡ tally_warns tally.now) }
{
    let mut failed = false;
    put_total(w, &mut failed, tally);
    if failed {
        Err(Failed)
    } else {
        Ok(tally.warns())
    }
}

/// Writes which programs and libraries of an image Linux executes in place, in the list's order,
/// with 4,096-byte pages. Returns `true` if there is a line `not` or `shared`. Directories may be
/// 64 deep. The lines are:
///
/// - `xip PATH ADDRESS IN-PLACE COPIED ZERO`: a program of which some page is in place, or only the
///   shared last page is not, or no page is loaded; the pages that Linux maps to the flash, those
///   that are copied, and those of zeros only;
/// - `not PATH ADDRESS REASON PAGES`: a program of which nothing is in place, and PAGES are copied;
///   REASON is `unaligned`, `scattered`, `unloadable`, `writable`, `table` or `romfs`; or it is
///   `textrel`, and at most PAGES are copied;
/// - `shared PATH ADDRESS N`: the program's last page has other data as well, and is copied; padded
///   to N bytes, the file has this page for itself;
/// - `unused PATH N`, if advice is asked for: N bytes are behind the last segment, more than a
///   page;
/// - `object PATH ADDRESS N`, if advice is asked for: the file is no program, but begins with a
///   page,
///   behind N bytes of zeros, fewer than a page;
/// - `total PROGRAMS IN-PLACE COPIED NOT`, at the end.
///
/// Bytes that files share are looked at once if memory is there to keep what was found.
///
/// # Errors
///
/// `Failed` if a write failed. Then a prefix of the lines was written.
pub fn write_programs<W: ByteWrite>(
    alloc: Global,
    image: &AnyImage<'_>,
    question: &Question,
    w: &mut W,
) -> Result<bool, Failed>
    requires shallow { IsShallow (any_view image.now).tree }
    requires fits { question.now.base + length (any_view image.now).bytes ≤ 2 ^ 64 }
    ensures text { WritesText (W.output w.old).contents (W.output w.new).contents result
        (programs_text image.now question.now) }
    ensures count { Counts (W.output w.old).failures (W.output w.new).failures result }
    ensures warns { IfOk result (λ b. b ≡ warns image.now question.now) }
{
    let mut findings = Findings::new(alloc, image, question);
    let mut tally = Tally::NONE;
    let mut failed = false;
    let mut walk = Walk::new();
    while !failed {
        let Some(node) = walk.next(image) else {
            return finish(w, &tally);
        };
        let found = findings.of(image, question, node);
        put_name(image, question, w, &mut failed, node, &walk, found);
        tally = tally.noted_if(found);
    }
    Err(Failed)
}

//! Files that are no programs, but begin with a page of the flash.
ghost use Rattle.std.specs.Prelude.{◌≡◌, ◌+◌, ◌<◌, ◌≤◌, ◌^◌, Some, length};
ghost use Rattle.rom_fields.specs.Texts.{escaped};
ghost use Rattle.rom_fields.specs.Written.{Puts, sink};
ghost use Rattle.rom_tree.specs.Image.{image_node, HasNode};
ghost use Rattle.rom_tree.specs.Tree.{Node, places_of};
ghost use Rattle.rom_tree.specs.Walks.{given_path};
ghost use Rattle.image_check.specs.Any.{any_view};
ghost use Rattle.program_report.specs.Lines.{object_at, object_line, object_lines};
ghost use Rattle.program_report.specs.Lines.{regular_lines, zeros_before};

use crate::lines::{put_head, put_number};
use crate::question::Question;
use image_check::AnyImage;
use rom_fields::{ByteWrite, put};
use rom_tree::{NodeId, TreeImage, Walk, is_regular_at};

/// Returns how many bytes before an offset are zeros, one after the other up to it, at most 4,095.
fn zeros_before(b: &[u8], at: usize) -> u64
    requires { at ≤ length b.now }
    ensures { result ≡ zeros_before b.now at 4095 }
{
    let mut count = 0;
    let mut at = at;
    while count < 4_095 && at > 0 {
        if b[at - 1] != 0 {
            return count;
        }
        at -= 1;
        count += 1;
    }
    count
}

/// Puts the line of a file from `start` on that is no program, if it begins with a page.
fn put_object<'a, W: ByteWrite>(
    image: &AnyImage<'a>,
    question: &Question,
    w: &mut W,
    failed: &mut bool,
    start: u32,
    walk: &Walk<'a>,
)
    requires within { start < length (any_view image.now).bytes }
    requires fits { question.now.base + length (any_view image.now).bytes ≤ 2 ^ 64 }
    ensures { Puts (sink (W.output w.old) failed.old) (sink (W.output w.new) failed.new)
        (object_line image.now question.now (escaped (given_path walk.now)) start) }
{
    let address = question.base + u64::from(start);
    if address % 4_096 == 0 {
        put_head(w, failed, b"object ", walk, address);
        put_number(w, failed, zeros_before(image.bytes(), start as usize));
        put(w, failed, b"\n");
    }
}

/// Puts the line of a node that is no program, if its bytes begin with a page.
fn put_bytes<'a, W: ByteWrite>(
    image: &AnyImage<'a>,
    question: &Question,
    w: &mut W,
    failed: &mut bool,
    n: NodeId,
    walk: &Walk<'a>,
)
    requires node { HasNode (any_view image.now) n.0 }
    requires fits { question.now.base + length (any_view image.now).bytes ≤ 2 ^ 64 }
    ensures { (x : Node) → image_node (any_view image.now) n.0 ≡ Some x
        → Puts (sink (W.output w.old) failed.old) (sink (W.output w.new) failed.new)
        (object_at image.now question.now (escaped (given_path walk.now)) (places_of x)) }
{
    if let Some(run) = image.run(n, 0) {
        put_object(image, question, w, failed, run.place, walk);
    }
}

/// Puts the line of a node that is no program, if it is a file that begins with a page.
fn put_regular<'a, W: ByteWrite>(
    image: &AnyImage<'a>,
    question: &Question,
    w: &mut W,
    failed: &mut bool,
    n: NodeId,
    walk: &Walk<'a>,
)
    requires node { HasNode (any_view image.now) n.0 }
    requires fits { question.now.base + length (any_view image.now).bytes ≤ 2 ^ 64 }
    ensures { (x : Node) → image_node (any_view image.now) n.0 ≡ Some x
        → Puts (sink (W.output w.old) failed.old) (sink (W.output w.new) failed.new)
        (regular_lines image.now question.now (escaped (given_path walk.now)) x) }
{
    if is_regular_at(image, n) {
        put_bytes(image, question, w, failed, n, walk);
    }
}

/// Puts the line of the node that a walk returned last, which is no program, if advice is asked
/// for.
pub(crate) fn put_other<'a, W: ByteWrite>(
    image: &AnyImage<'a>,
    question: &Question,
    w: &mut W,
    failed: &mut bool,
    n: NodeId,
    walk: &Walk<'a>,
)
    requires node { HasNode (any_view image.now) n.0 }
    requires fits { question.now.base + length (any_view image.now).bytes ≤ 2 ^ 64 }
    ensures { (x : Node) → image_node (any_view image.now) n.0 ≡ Some x
        → Puts (sink (W.output w.old) failed.old) (sink (W.output w.new) failed.new)
        (object_lines image.now question.now (escaped (given_path walk.now)) x) }
{
    if question.advice {
        put_regular(image, question, w, failed, n, walk);
    }
}

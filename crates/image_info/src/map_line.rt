//! The lines of one file.
ghost use Rattle.std.specs.Prelude.{◌≡◌, ◌+◌, ◌<◌, ◌≤◌, ◌^◌, Some, length};
ghost use Rattle.rom_fields.specs.Written.{Puts, sink};
ghost use Rattle.rom_tree.specs.Tree.{Node, body_of, places_of};
ghost use Rattle.rom_tree.specs.Image.{image_node, HasNode};
ghost use Rattle.rom_fields.specs.Texts.{escaped};
ghost use Rattle.rom_tree.specs.Walks.{given_path};
ghost use Rattle.image_info.specs.Runs.{piece, runs};
ghost use Rattle.image_info.specs.Map.{address_text, run_line, empty_line, run_lines, body_lines};

use crate::digits::put_eight_digits;
use crate::runs::whole_run;
use rom_fields::{ByteWrite, put, put_decimal};
use rom_tree::{NodeId, Run, TreeImage, Walk, is_regular_at};

/// Puts an address: `0x` and eight digits, or sixteen digits from 2^32 on.
fn put_address<W: ByteWrite>(w: &mut W, failed: &mut bool, address: u64)
    ensures { Puts (sink (W.output w.old) failed.old)
        (sink (W.output w.new) failed.new) (address_text address) }
{
    put(w, failed, b"0x");
    if address < 4_294_967_296 {
        put_eight_digits(w, failed, address);
    } else {
        put_eight_digits(w, failed, address / 4_294_967_296);
        put_eight_digits(w, failed, address);
    }
}

/// Puts the line of a run that begins at byte `at` of the file.
fn put_run<'a, W: ByteWrite>(
    w: &mut W,
    failed: &mut bool,
    base: u64,
    run: Run,
    at: u32,
    walk: &Walk<'a>,
)
    requires { base + run.place < 2 ^ 64 }
    ensures { Puts (sink (W.output w.old) failed.old)
        (sink (W.output w.new) failed.new)
        (run_line base (escaped (given_path walk.now)) (piece run.place run.len at)) }
{
    put_address(w, failed, base + u64::from(run.place));
    put(w, failed, b" ");
    put_decimal(w, failed, run.len);
    put(w, failed, b" ");
    put_decimal(w, failed, at);
    put(w, failed, b" ");
    walk.put_path(w, failed);
    put(w, failed, b"\n");
}

/// Puts the line of an empty file.
fn put_empty<'a, W: ByteWrite>(w: &mut W, failed: &mut bool, walk: &Walk<'a>)
    ensures { Puts (sink (W.output w.old) failed.old)
        (sink (W.output w.new) failed.new) (empty_line (escaped (given_path walk.now))) }
{
    put(w, failed, b"- 0 0 ");
    walk.put_path(w, failed);
    put(w, failed, b"\n");
}

/// Puts the lines of a file's runs.
fn put_runs<'a, T: TreeImage<'a>, W: ByteWrite>(
    image: &T,
    w: &mut W,
    failed: &mut bool,
    base: u64,
    n: NodeId,
    walk: &Walk<'a>,
)
    requires node { HasNode (T.image image.now) n.0 }
    requires fits { base + length (T.image image.now).bytes ≤ 2 ^ 64 }
    ensures { (x : Node) → image_node (T.image image.now) n.0 ≡ Some x
        → Puts (sink (W.output w.old) failed.old)
        (sink (W.output w.new) failed.new)
        (run_lines base (escaped (given_path walk.now)) (runs (places_of x))) }
{
    let mut at = 0;
    while let Some(run) = whole_run(image, n, at) {
        put_run(w, failed, base, run, at, walk);
        at += run.len;
    }
}

/// Puts the lines of the node that a walk returned last.
pub(crate) fn put_lines<'a, T: TreeImage<'a>, W: ByteWrite>(
    image: &T,
    w: &mut W,
    failed: &mut bool,
    base: u64,
    n: NodeId,
    walk: &Walk<'a>,
)
    requires node { HasNode (T.image image.now) n.0 }
    requires fits { base + length (T.image image.now).bytes ≤ 2 ^ 64 }
    ensures { (x : Node) → image_node (T.image image.now) n.0 ≡ Some x
        → Puts (sink (W.output w.old) failed.old)
        (sink (W.output w.new) failed.new)
        (body_lines base (escaped (given_path walk.now)) (body_of x)) }
{
    if is_regular_at(image, n) {
        if image.stat(n).size == 0 {
            put_empty(w, failed, walk);
        } else {
            put_runs(image, w, failed, base, n, walk);
        }
    }
}

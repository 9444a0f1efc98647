//! The writing of an image into a buffer, or to a writer.
ghost use Rattle.std.specs.Prelude.{◌≡◌, ◌%◌, ◌≤◌, ℕ, List, map, length, OnOk, IfErr};
ghost use Rattle.cramfs_format.specs.declared.order.Order.{Order};
ghost use Rattle.image_stream.specs.Outcomes.{IsLeastWrong, state};
ghost use Rattle.manifest.specs.Grammar.{IsManifest};
ghost use Rattle.manifest.specs.Lines.{ManifestLines};
ghost use Rattle.formats.specs.Format.{cramfs};
ghost use Rattle.manifest_layout.specs.Format.{layout_of};
ghost use Rattle.manifest_layout.specs.Plans.{IsPlanOf};
ghost use Rattle.cramfs_write.specs.Streams.{StreamsPlan, StreamsPlanOnce};

use crate::form::{CramfsForm, facts, order_of};
use image_stream::{Crc32, SizeDiffers, Sources, StreamError};
use manifest_layout::Plan;
use rom_fields::{ByteWrite, Contents, Rewrite};

/// Writes the image of a plan, with these contents of its files, into a buffer of its length,
/// whatever the buffer holds. It takes no memory.
///
/// # Errors
///
/// `SizeDiffers` has the first file whose contents have another size than was planned. The buffer
/// is then as it was.
pub fn write(plan: &Plan, contents: &Contents<'_>, out: &mut [u8]) -> Result<(), SizeDiffers>
    requires format { (o : Order) × (plan.now.format ≡ cramfs o) }
    requires count { length contents.now ≡ length plan.now.sizes }
    requires room { length out.old ≡ plan.now.image_len }
    ensures ok { (o : Order) (m : ManifestLines) (sizes : List ℕ) → IsManifest m
        → IsPlanOf (cramfs o) m sizes plan.now
        → OnOk result ((map length contents.now ≡ sizes)
        × (out.new ≡ layout_of (cramfs o) m contents.now)) }
    ensures err { IfErr result (λ e. IsLeastWrong plan.now.sizes e.file contents.now
        × (out.new ≡ out.old)) }
{
    let order = order_of(plan);
    facts(order, plan);
    manifest_layout::laws::fitting_is_planned();
    let form = CramfsForm::new(plan, order);
    image_stream::write::<CramfsForm<'_>, Crc32>(&form, contents, out)
}

/// Writes the image of a plan through a buffer of the caller's, without taking memory, and flushes
/// the writer. `image_stream::stream_through` describes how the sources are read.
///
/// At `Ok`, exactly the layout was written, if the contents of the sources are known. Otherwise a
/// whole image was written, with some contents of the planned sizes and the crc of exactly these
/// bytes.
///
/// # Errors
///
/// `StreamError` has the reasons. If the contents of the sources are known and have the planned
/// sizes, a prefix of the layout was written.
pub fn stream_through<S: Sources, W: ByteWrite>(
    plan: &Plan,
    sources: &mut S,
    w: &mut W,
    buffer: &mut [u8],
) -> Result<(), StreamError>
    requires format { (o : Order) × (plan.now.format ≡ cramfs o) }
    requires files { S.files sources.old ≡ length plan.now.sizes }
    requires room { 4096 ≤ length buffer.old }
    requires words { length buffer.old % 4 ≡ 0 }
    ensures { StreamsPlan plan.now
        (state (S.known sources.old) (S.files sources.old) (S.names sources.old)
        (S.reads sources.old))
        (state (S.known sources.new) (S.files sources.new) (S.names sources.new)
        (S.reads sources.new))
        (S.IsLog sources.old) (S.IsLog sources.new) (W.output w.old) (W.output w.new) result }
{
    let order = order_of(plan);
    facts(order, plan);
    manifest_layout::laws::fitting_is_planned();
    let _ = sources.count();
    let form = CramfsForm::new(plan, order);
    image_stream::stream_through::<CramfsForm<'_>, S, W, Crc32>(&form, sources, w, buffer)
}

/// Writes the image of a plan as `stream_through` does, through one buffer of 4,096 bytes.
pub fn stream<S: Sources, W: ByteWrite>(
    plan: &Plan,
    sources: &mut S,
    w: &mut W,
) -> Result<(), StreamError>
    requires format { (o : Order) × (plan.now.format ≡ cramfs o) }
    requires files { S.files sources.old ≡ length plan.now.sizes }
    ensures { StreamsPlan plan.now
        (state (S.known sources.old) (S.files sources.old) (S.names sources.old)
        (S.reads sources.old))
        (state (S.known sources.new) (S.files sources.new) (S.names sources.new)
        (S.reads sources.new))
        (S.IsLog sources.old) (S.IsLog sources.new) (W.output w.old) (W.output w.new) result }
{
    let mut space: [u8; 4096] = [0; 4096];
    stream_through(plan, sources, w, space.as_mut_slice())
}

/// Writes the image of a plan as `stream_through` does, but reads each source whole only once: the
/// superblock is replaced at the end (`image_stream::stream_once`).
///
/// # Errors
///
/// `StreamError` has the reasons. Nothing is promised of what was written then.
pub fn stream_once<S: Sources, W: Rewrite>(
    plan: &Plan,
    sources: &mut S,
    w: &mut W,
    buffer: &mut [u8],
) -> Result<(), StreamError>
    requires format { (o : Order) × (plan.now.format ≡ cramfs o) }
    requires files { S.files sources.old ≡ length plan.now.sizes }
    requires room { 4096 ≤ length buffer.old }
    requires words { length buffer.old % 4 ≡ 0 }
    ensures { StreamsPlanOnce plan.now
        (state (S.known sources.old) (S.files sources.old) (S.names sources.old)
        (S.reads sources.old))
        (state (S.known sources.new) (S.files sources.new) (S.names sources.new)
        (S.reads sources.new))
        (S.IsLog sources.old) (S.IsLog sources.new) (W.output w.old) (W.output w.new) result }
{
    let order = order_of(plan);
    facts(order, plan);
    manifest_layout::laws::fitting_is_planned();
    let _ = sources.count();
    let form = CramfsForm::new(plan, order);
    image_stream::stream_once::<CramfsForm<'_>, S, W, Crc32>(&form, sources, w, buffer)
}

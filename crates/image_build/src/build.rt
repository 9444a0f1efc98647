//! The builds, in memory and to a writer.
ghost use Rattle.std.specs.Prelude.{◌≡◌, ◌%◌, ◌≤◌, map, length, IfOk, IfErr, Ok, Err};
ghost use Rattle.cramfs_format.specs.declared.order.Order.{Order};
ghost use Rattle.cramfs_format.specs.declared.order.Order.TheVariants.{Little, Big};
ghost use Rattle.formats.specs.Format.{romfs, cramfs, format_of};
ghost use Rattle.image_build.specs.Builds.{Builds};
ghost use Rattle.image_build.specs.Streams.{StreamsPlan, StreamsPlanOnce};
ghost use Rattle.image_stream.specs.Outcomes.{state};
ghost use Rattle.manifest.specs.Grammar.{IsManifest};
ghost use Rattle.manifest.specs.Lines.{ManifestLines};
ghost use Rattle.manifest_layout.specs.Format.{layout_of};
ghost use Rattle.manifest_layout.specs.Plans.{IsPlanOf};

use crate::error::BuildError;
use image_stream::{Sources, StreamError};
use layout_plan::plan;
use manifest::parse;
use manifest_layout::{Format, Plan};
use rom_fields::{ByteWrite, Contents, OutOfMemory, Rewrite};
use std::alloc::Global;

/// Returns the sizes of the contents, in their order.
fn sizes_of(alloc: Global, contents: &Contents<'_>) -> Result<Vec<u64>, OutOfMemory>
    ensures { IfOk result (λ sizes. sizes.items ≡ map length contents.now) }
{
    let mut sizes = Vec::new(alloc);
    for file in 0..contents.len() {
        let Some(content) = contents.get(file) else {
            unreachable!();
        };
        sizes.push(content.len() as u64)?;
    }
    Ok(sizes)
}

/// Returns `len` bytes.
fn zeros(alloc: Global, len: usize) -> Result<Vec<u8>, OutOfMemory>
    ensures { IfOk result (λ zeros. length zeros.items ≡ len) }
{
    let zeros = vec![in alloc; 0; len]?;
    Ok(zeros)
}

/// Writes the romfs image of a plan that was made for exactly these contents.
fn fill_romfs(plan: &Plan, contents: &Contents<'_>, out: &mut [u8])
    requires format { plan.now.format ≡ romfs }
    requires sizes { plan.now.sizes ≡ map length contents.now }
    requires room { length out.old ≡ plan.now.image_len }
    ensures { (m : ManifestLines) → IsManifest m
        → IsPlanOf plan.now.format m (map length contents.now) plan.now
        → out.new ≡ layout_of plan.now.format m contents.now }
{
    if romfs_write::write(plan, contents, out).is_err() {
        unreachable!();
    }
}

/// Writes the cramfs image of such a plan, in its byte order.
fn fill_cramfs(plan: &Plan, contents: &Contents<'_>, out: &mut [u8])
    requires format { (o : Order) × (plan.now.format ≡ cramfs o) }
    requires sizes { plan.now.sizes ≡ map length contents.now }
    requires room { length out.old ≡ plan.now.image_len }
    ensures { (m : ManifestLines) → IsManifest m
        → IsPlanOf plan.now.format m (map length contents.now) plan.now
        → out.new ≡ layout_of plan.now.format m contents.now }
{
    if cramfs_write::write(plan, contents, out).is_err() {
        unreachable!();
    }
}

/// Writes the image of such a plan, in its format.
fn fill(plan: &Plan, contents: &Contents<'_>, out: &mut [u8])
    requires sizes { plan.now.sizes ≡ map length contents.now }
    requires room { length out.old ≡ plan.now.image_len }
    ensures { (m : ManifestLines) → IsManifest m
        → IsPlanOf plan.now.format m (map length contents.now) plan.now
        → out.new ≡ layout_of plan.now.format m contents.now }
{
    match plan.format() {
        Format::Romfs => fill_romfs(plan, contents, out),
        Format::Cramfs | Format::CramfsBig => fill_cramfs(plan, contents, out),
    }
}

/// Returns the image of a manifest in this format.
fn build(
    alloc: Global,
    format: Format,
    manifest: &[u8],
    contents: &Contents<'_>,
) -> Result<Vec<u8>, BuildError>
    ensures ok { IfOk result
        (λ image. Builds (format_of format) manifest.now contents.now (Ok image.items)) }
    ensures err { IfErr result
        (λ e. Builds (format_of format) manifest.now contents.now (Err e)) }
{
    manifest_layout::laws::layout_is_meant();
    let manifest = parse(alloc, manifest)?;
    if contents.len() != manifest.sources().len() {
        return Err(BuildError::Count);
    }
    let sizes = sizes_of(alloc, contents)?;
    let plan = plan(alloc, &manifest, &sizes, format)?;
    let mut image = zeros(alloc, plan.image_len())?;
    fill(&plan, contents, &mut image);
    Ok(image)
}

/// Returns the romfs image of a manifest, with these contents of its sources, in the order of the
/// `file` lines. A check finds no fault in it, and it holds what the manifest means
/// (`laws::built_is_accepted`).
///
/// # Errors
///
/// `BuildError` has the reasons, in this order: the text is not a valid manifest; there are fewer
/// or more contents than sources; the manifest does not fit the format. `OutOfMemory` if memory was
/// refused.
pub fn build_romfs(
    alloc: Global,
    manifest: &[u8],
    contents: &Contents<'_>,
) -> Result<Vec<u8>, BuildError>
    ensures ok { IfOk result (λ image. Builds romfs manifest.now contents.now (Ok image.items)) }
    ensures err { IfErr result (λ e. Builds romfs manifest.now contents.now (Err e)) }
{
    build(alloc, Format::Romfs, manifest, contents)
}

/// Returns the cramfs image of a manifest, with the lowest byte of each word first. Otherwise it is
/// like `build_romfs`.
///
/// # Errors
///
/// As for `build_romfs`.
pub fn build_cramfs(
    alloc: Global,
    manifest: &[u8],
    contents: &Contents<'_>,
) -> Result<Vec<u8>, BuildError>
    ensures ok { IfOk result
        (λ image. Builds (cramfs Little) manifest.now contents.now (Ok image.items)) }
    ensures err { IfErr result (λ e. Builds (cramfs Little) manifest.now contents.now (Err e)) }
{
    build(alloc, Format::Cramfs, manifest, contents)
}

/// Returns the cramfs image of a manifest, with the highest byte of each word first. Otherwise it
/// is like `build_romfs`.
///
/// # Errors
///
/// As for `build_romfs`.
pub fn build_cramfs_big(
    alloc: Global,
    manifest: &[u8],
    contents: &Contents<'_>,
) -> Result<Vec<u8>, BuildError>
    ensures ok { IfOk result
        (λ image. Builds (cramfs Big) manifest.now contents.now (Ok image.items)) }
    ensures err { IfErr result (λ e. Builds (cramfs Big) manifest.now contents.now (Err e)) }
{
    build(alloc, Format::CramfsBig, manifest, contents)
}

/// Writes the image of a plan, in the plan's format, through a buffer of the caller's, without
/// taking memory, and flushes the writer. A larger buffer needs fewer reads and writes. The sources
/// are read for their sizes, each at its last byte and one byte further; then for the checksum,
/// as far as the value covers them; and then whole, for what is written.
///
/// At `Ok`, exactly the image was written that a build in memory answers, if the contents of the
/// sources are known. Otherwise a whole image was written, with some contents of the planned sizes
/// and the checksum of exactly these bytes. A check accepts it (`laws::streamed_is_accepted`).
///
/// # Errors
///
/// `StreamError` has the reasons. If the contents of the sources are known and have the planned
/// sizes, a prefix of the image was written.
pub fn stream_through<S: Sources, W: ByteWrite>(
    plan: &Plan,
    sources: &mut S,
    w: &mut W,
    buffer: &mut [u8],
) -> Result<(), StreamError>
    requires files { S.files sources.old ≡ length plan.now.sizes }
    requires room { 4096 ≤ length buffer.old }
    requires words { length buffer.old % 4 ≡ 0 }
    ensures { StreamsPlan plan.now
        (state (S.known sources.old) (S.files sources.old) (S.names sources.old)
        (S.reads sources.old))
        (state (S.known sources.new) (S.files sources.new) (S.names sources.new)
        (S.reads sources.new))
        (S.IsLog sources.old) (S.IsLog sources.new) (W.output w.old) (W.output w.new) result }
{
    manifest_layout::laws::layout_is_meant();
    match plan.format() {
        Format::Romfs => romfs_write::stream_through(plan, sources, w, buffer),
        Format::Cramfs | Format::CramfsBig => {
            cramfs_write::stream_through(plan, sources, w, buffer)
        }
    }
}

/// Writes the image of a plan as `stream_through` does, through one buffer of 4,096 bytes.
pub fn stream<S: Sources, W: ByteWrite>(
    plan: &Plan,
    sources: &mut S,
    w: &mut W,
) -> Result<(), StreamError>
    requires { S.files sources.old ≡ length plan.now.sizes }
    ensures { StreamsPlan plan.now
        (state (S.known sources.old) (S.files sources.old) (S.names sources.old)
        (S.reads sources.old))
        (state (S.known sources.new) (S.files sources.new) (S.names sources.new)
        (S.reads sources.new))
        (S.IsLog sources.old) (S.IsLog sources.new) (W.output w.old) (W.output w.new) result }
{
    let mut space: [u8; 4096] = [0; 4096];
    stream_through(plan, sources, w, space.as_mut_slice())
}

/// Writes the image of a plan as `stream_through` does, but reads each source whole only once. In
/// cramfs the superblock is replaced at the end.
///
/// # Errors
///
/// `StreamError` has the reasons. Nothing is promised of what was written then.
pub fn stream_once<S: Sources, W: Rewrite>(
    plan: &Plan,
    sources: &mut S,
    w: &mut W,
    buffer: &mut [u8],
) -> Result<(), StreamError>
    requires files { S.files sources.old ≡ length plan.now.sizes }
    requires room { 4096 ≤ length buffer.old }
    requires words { length buffer.old % 4 ≡ 0 }
    ensures { StreamsPlanOnce plan.now
        (state (S.known sources.old) (S.files sources.old) (S.names sources.old)
        (S.reads sources.old))
        (state (S.known sources.new) (S.files sources.new) (S.names sources.new)
        (S.reads sources.new))
        (S.IsLog sources.old) (S.IsLog sources.new) (W.output w.old) (W.output w.new) result }
{
    manifest_layout::laws::layout_is_meant();
    match plan.format() {
        Format::Romfs => romfs_write::stream_through(plan, sources, w, buffer),
        Format::Cramfs | Format::CramfsBig => cramfs_write::stream_once(plan, sources, w, buffer),
    }
}

//! The sizes of the sources, before anything is written.
ghost use Rattle.std.specs.Prelude.{◌≡◌, ◌<◌, ◌≤◌, ◌^◌, ℕ, List, true, false, length, get_or, OnOk};
ghost use Rattle.std.specs.Prelude.{OnErr, IfOk, IfErr};
ghost use Rattle.image_stream.specs.Answers.{Grew};
ghost use Rattle.image_stream.specs.Sources.{IfKnown, content_of, FailedAt};
ghost use Rattle.image_stream.specs.Outcomes.{AreSized};
ghost use Rattle.image_stream.specs.Steps.{IsSizeFault, IsLeastStreamFault};

use crate::error::StreamError;
use crate::segmented::Segmented;
use crate::sources::{SourceFailed, Sources};

/// Returns whether a file has at least `size` bytes, by a read of the last of them.
fn reaches<S: Sources>(
    sources: &mut S,
    file: usize,
    size: u64,
    buffer: &mut [u8],
) -> Result<bool, SourceFailed>
    requires file { file < S.files sources.old }
    requires room { 0 < length buffer.old }
    ensures known { S.known sources.new ≡ S.known sources.old }
    ensures files { S.files sources.new ≡ S.files sources.old }
    ensures names { S.names sources.new ≡ S.names sources.old }
    ensures yes { IfOk result (λ yes. yes ≡ true → IfKnown (S.known sources.old)
        (λ cs. size ≤ length (content_of cs file))) }
    ensures no { IfOk result (λ yes. yes ≡ false → IfKnown (S.known sources.old)
        (λ cs. length (content_of cs file) < size)) }
    ensures grew { OnOk result (Grew (S.IsLog sources.old) (S.IsLog sources.new)) }
    ensures quiet { OnOk result (S.reads sources.new ≡ S.reads sources.old) }
    ensures fault { OnErr result (FailedAt file (S.reads sources.old) (S.reads sources.new)) }
{
    if size == 0 {
        return Ok(true);
    }
    match sources.read_at(file, size - 1, &mut buffer[..1]) {
        Ok(0) => Ok(false),
        Ok(_) => Ok(true),
        Err(SourceFailed) => Err(SourceFailed),
    }
}

/// Checks that a file has its planned size: it has the last byte of that size, and no further byte.
fn measure<S: Sources>(
    sources: &mut S,
    file: usize,
    size: u64,
    buffer: &mut [u8],
) -> Result<(), StreamError>
    requires file { file < S.files sources.old }
    requires small { size < 2 ^ 32 }
    requires room { 0 < length buffer.old }
    ensures known { S.known sources.new ≡ S.known sources.old }
    ensures files { S.files sources.new ≡ S.files sources.old }
    ensures names { S.names sources.new ≡ S.names sources.old }
    ensures ok { OnOk result (IfKnown (S.known sources.old)
        (λ cs. length (content_of cs file) ≡ size)) }
    ensures grew { OnOk result (Grew (S.IsLog sources.old) (S.IsLog sources.new)) }
    ensures quiet { OnOk result (S.reads sources.new ≡ S.reads sources.old) }
    ensures fault { IfErr result (IsSizeFault (S.known sources.old) file size
        (S.reads sources.old) (S.reads sources.new)) }
{
    match reaches(sources, file, size, buffer) {
        Ok(true) => {}
        Ok(false) => return Err(StreamError::SizeDiffers { file }),
        Err(SourceFailed) => return Err(StreamError::SourceFault { file }),
    }
    match reaches(sources, file, size + 1, buffer) {
        Ok(false) => Ok(()),
        Ok(true) => Err(StreamError::SizeDiffers { file }),
        Err(SourceFailed) => Err(StreamError::SourceFault { file }),
    }
}

/// Checks the sizes of all files, in order.
pub fn measure_all<L: Segmented, S: Sources>(
    layout: &L,
    sources: &mut S,
    buffer: &mut [u8],
) -> Result<(), StreamError>
    requires files { S.files sources.old ≡ length (L.form layout.now).sizes }
    requires small { (k : ℕ) → get_or (L.form layout.now).sizes k 0 < 2 ^ 32 }
    requires room { 0 < length buffer.old }
    ensures known { S.known sources.new ≡ S.known sources.old }
    ensures files { S.files sources.new ≡ S.files sources.old }
    ensures names { S.names sources.new ≡ S.names sources.old }
    ensures ok { OnOk result (IfKnown (S.known sources.old) (AreSized (L.form layout.now).sizes)) }
    ensures grew { OnOk result (Grew (S.IsLog sources.old) (S.IsLog sources.new)) }
    ensures quiet { OnOk result (S.reads sources.new ≡ S.reads sources.old) }
    ensures fault { IfErr result (IsLeastStreamFault (S.known sources.old) (L.form layout.now).sizes
        (S.reads sources.old) (S.reads sources.new)) }
{
    for file in 0..layout.files() {
        match measure(sources, file, layout.size(file), buffer) {
            Ok(()) => {}
            Err(e) => return Err(e),
        }
    }
    Ok(())
}

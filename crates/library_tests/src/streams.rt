//! Streams from sources that change or fail and to writers that fail, beside images that are built
//! in memory.
use crate::made::{FORMATS, built, contents_of, planned};
use crate::spoiled::{Fault, Spoiled};
use image_build::{
    BuildError, Contents, Format, Plan, Sources, StreamError, build_romfs, stream, stream_once,
};
use rom_fields::{ByteWrite, Faulty, Memory, Plain};
use std::alloc::Global;
use std::test::Fail;

/// Bytes of more than two blocks.
const LARGE: &[u8; 9001] = &[b'q'; 9001];

/// A manifest with the contents of its sources, and their sizes.
type Fitting = (&'static [u8], &'static [&'static [u8]], &'static [u64]);

/// Each of these fits all formats.
const FITTING: [Fitting; 2] = [
    (b"file /a 0644 0 0 4 s\n", &[b"hello"], &[5]),
    (
        b"volume name\nfile /z 0755 0 0 4096 s\nfile /b 0644 0 0 16 t\nfile /a 0644 0 0 4 u\n",
        &[b"one", LARGE, b""],
        &[3, 9001, 0],
    ),
];

/// How a stream ended, or nothing if the number of sources is not the plan's.
type Ended = Option<Result<(), StreamError>>;

/// Streams a plan from sources with a fault after this number of reads.
fn streamed<W: ByteWrite>(
    plan: &Plan,
    contents: &Contents<'_>,
    fault: Fault,
    sound: u64,
    w: &mut W,
) -> Ended {
    let mut sources = Spoiled::new(contents, fault, sound);
    if sources.count() == plan.sizes().len() {
        Some(stream(plan, &mut sources, w))
    } else {
        None
    }
}

/// Streams a plan to a writer that accepts this number of calls, each with at most 100 bytes: what
/// the writer then holds, and how it ended.
fn sent(alloc: Global, plan: &Plan, all: &[&[u8]], calls: u64) -> Result<(Vec<u8>, Ended), Fail> {
    let contents = contents_of(alloc, all)?;
    let mut w = Faulty::new(Plain::new(Vec::new(alloc)), calls, 100);
    let ended = streamed(plan, &contents, Fault::Unreadable, u64::MAX, &mut w);
    Ok((w.into_inner().into_inner(), ended))
}

/// The same from sources with a fault after this number of reads, to a writer that accepts
/// everything.
fn spoiled(
    alloc: Global,
    plan: &Plan,
    all: &[&[u8]],
    fault: Fault,
    sound: u64,
) -> Result<(Vec<u8>, Ended), Fail> {
    let contents = contents_of(alloc, all)?;
    let mut w = Plain::new(Vec::new(alloc));
    let ended = streamed(plan, &contents, fault, sound, &mut w);
    Ok((w.into_inner(), ended))
}

/// The image of a manifest with these contents.
fn image_of(alloc: Global, text: &[u8], all: &[&[u8]], format: Format) -> Result<Vec<u8>, Fail> {
    let contents = contents_of(alloc, all)?;
    let image = built(alloc, text, &contents, format).ok_or("a manifest that fits")?;
    Ok(image)
}

/// Whether a stream to a writer that accepts this number of calls is whole. If it is not, it ends
/// with a failed write, and the writer holds a front of the image.
fn is_whole_in(
    alloc: Global,
    plan: &Plan,
    image: &[u8],
    all: &[&[u8]],
    calls: u64,
) -> Result<bool, Fail> {
    let (held, ended) = sent(alloc, plan, all, calls)?;
    match ended {
        Some(Ok(())) if held.as_slice() == image && calls > 0 => Ok(true),
        Some(Err(StreamError::WriteFault)) if image.starts_with(&held) => Ok(false),
        _ => Err(Fail::new("a front of the image and a failed write")),
    }
}

/// Whether the streams to writers that accept 0 to 399 calls are whole from one of them on.
fn writes_fail_in_turn(alloc: Global, format: Format) -> Result<bool, Fail> {
    let (text, all, sizes) = FITTING[1];
    let image = image_of(alloc, text, all, format)?;
    let plan = planned(alloc, text, sizes, format)?;
    let mut is_whole = false;
    for calls in 0..400u64 {
        let is_next_whole = is_whole_in(alloc, &plan, &image, all, calls)?;
        if is_whole && !is_next_whole {
            return Ok(false);
        }
        is_whole = is_next_whole;
    }
    Ok(is_whole)
}

#[test]
fn contents_of_another_size(rt: HostRuntime) -> Result<(), Fail> {
    let (text, _, sizes) = FITTING[0];
    let differs = Some(Err(StreamError::SizeDiffers { file: 0 }));
    for format in FORMATS {
        let plan = planned(rt.alloc(), text, sizes, format)?;
        let (held, ended) = sent(rt.alloc(), &plan, &[b"hello!"], u64::MAX)?;
        assert!(rt; ended == differs);
        assert!(rt; held.is_empty());
        let none = Contents::new(rt.alloc());
        assert!(rt; matches!(build_romfs(rt.alloc(), text, &none), Err(BuildError::Count)));
    }
    Ok(())
}

#[test]
fn each_write_fails_in_turn(rt: HostRuntime) -> Result<(), Fail> {
    for format in FORMATS {
        assert!(rt; writes_fail_in_turn(rt.alloc(), format)?);
    }
    Ok(())
}

/// Whether a stream from sources that fail after this number of reads is whole. If it is not, it
/// ends with a fault of a source, and the writer holds a front of the image.
fn is_whole_after(
    alloc: Global,
    plan: &Plan,
    image: &[u8],
    all: &[&[u8]],
    sound: u64,
) -> Result<bool, Fail> {
    let (held, ended) = spoiled(alloc, plan, all, Fault::Unreadable, sound)?;
    match ended {
        Some(Ok(())) if held.as_slice() == image && sound > 0 => Ok(true),
        Some(Err(StreamError::SourceFault { file })) if file < 3 && image.starts_with(&held) => {
            Ok(false)
        }
        _ => Err(Fail::new("a front of the image and a fault of a source")),
    }
}

/// Whether the streams from sources that fail after 0 to 39 reads are whole from one of them on.
fn reads_fail_in_turn(alloc: Global, format: Format) -> Result<bool, Fail> {
    let (text, all, sizes) = FITTING[1];
    let image = image_of(alloc, text, all, format)?;
    let plan = planned(alloc, text, sizes, format)?;
    let mut is_whole = false;
    for sound in 0..40u64 {
        let is_next_whole = is_whole_after(alloc, &plan, &image, all, sound)?;
        if is_whole && !is_next_whole {
            return Ok(false);
        }
        is_whole = is_next_whole;
    }
    Ok(is_whole)
}

#[test]
fn each_read_fails_in_turn(rt: HostRuntime) -> Result<(), Fail> {
    for format in FORMATS {
        assert!(rt; reads_fail_in_turn(rt.alloc(), format)?);
    }
    Ok(())
}

/// How a stream of a manifest's plan ends, from sources with a fault after this number of reads.
fn ended_after(
    alloc: Global,
    fitting: Fitting,
    format: Format,
    fault: Fault,
    sound: u64,
) -> Result<Ended, Fail> {
    let (text, all, sizes) = fitting;
    let plan = planned(alloc, text, sizes, format)?;
    let (_, ended) = spoiled(alloc, &plan, all, fault, sound)?;
    Ok(ended)
}

#[test]
fn contents_are_read_as_far_as_they_count(rt: HostRuntime) -> Result<(), Fail> {
    // for the sizes 2, 2 and 1 reads, and for the bytes 1, 3 and none; for the checksum of romfs,
    // which ends in the first part of /b, 1 read, and for that of cramfs 1, 3 and none
    for (format, reads) in [
        (Format::Romfs, 10),
        (Format::Cramfs, 13),
        (Format::CramfsBig, 13),
    ] {
        let (all, one_less) = (
            ended_after(rt.alloc(), FITTING[1], format, Fault::Unreadable, reads)?,
            ended_after(rt.alloc(), FITTING[1], format, Fault::Unreadable, reads - 1)?,
        );
        assert!(rt; all == Some(Ok(())));
        assert!(rt; matches!(&one_less, Some(Err(StreamError::SourceFault { file: _ }))));
    }
    Ok(())
}

#[test]
fn contents_that_change_are_printed(rt: HostRuntime) -> Result<(), Fail> {
    let (whole, changed) = (Some(Ok(())), Some(Err(StreamError::Changed)));
    for format in FORMATS {
        // two reads for the size, one for the checksum, and one for the bytes
        for (sound, want) in [(0, whole), (1, whole), (2, whole), (3, changed), (4, whole)] {
            let ended = ended_after(rt.alloc(), FITTING[0], format, Fault::Changed, sound)?;
            assert!(rt; ended == want);
        }
    }
    Ok(())
}

/// Streams a plan, and replaces the superblock at the end, from sources that fail after this number
/// of reads.
fn streamed_once(plan: &Plan, contents: &Contents<'_>, sound: u64, w: &mut Memory) -> Ended {
    let mut sources = Spoiled::new(contents, Fault::Unreadable, sound);
    let mut space: [u8; 4096] = [0; 4096];
    if sources.count() == plan.sizes().len() {
        Some(stream_once(plan, &mut sources, w, space.as_mut_slice()))
    } else {
        None
    }
}

/// What a stream that replaces the superblock writes, from sources that fail after this number of
/// reads, and how it ends.
fn sent_once(
    alloc: Global,
    plan: &Plan,
    all: &[&[u8]],
    sound: u64,
) -> Result<(Vec<u8>, Ended), Fail> {
    let contents = contents_of(alloc, all)?;
    let mut w = Memory::new(alloc);
    let ended = streamed_once(plan, &contents, sound, &mut w);
    Ok((w.into_bytes(), ended))
}

/// Whether a stream that replaces the superblock reads 9 times: for the sizes 2, 2 and 1 times, and
/// for the bytes 1, 3 and 0 times.
fn reads_once(alloc: Global, format: Format) -> Result<bool, Fail> {
    let (text, all, sizes) = FITTING[1];
    let image = image_of(alloc, text, all, format)?;
    let plan = planned(alloc, text, sizes, format)?;
    let (whole, ended) = sent_once(alloc, &plan, all, 9)?;
    let (_, failed) = sent_once(alloc, &plan, all, 8)?;
    let is_failed = matches!(&failed, Some(Err(StreamError::SourceFault { file: _ })));
    Ok(ended == Some(Ok(())) && whole.as_slice() == image.as_slice() && is_failed)
}

#[test]
fn contents_are_read_once_for_cramfs(rt: HostRuntime) -> Result<(), Fail> {
    for format in [Format::Cramfs, Format::CramfsBig] {
        assert!(rt; reads_once(rt.alloc(), format)?);
    }
    Ok(())
}

//! The alignments of files.
ghost use Rattle.std.specs.Prelude.{◌≡◌, ℕ, IfOk, OnErr, OnOk, map};
ghost use Rattle.build_commands.specs.Alignments.{aligned_all, aligned_at, aligned_each, larger};
ghost use Rattle.build_commands.specs.Alignments.{largest, shared, shared_by};
ghost use Rattle.build_commands.specs.Overlay.{AreInOrder};

use crate::inventory::NamedFile;
use rom_fields::OutOfMemory;
use std::alloc::Global;
use std::collections::BTreeMap;

/// Alignments of files, by their devices and numbers.
type Largest = BTreeMap<(u64, u64), u32>;

/// The alignment that is noted for a file, or 0.
fn aligned_at(largest: &Largest, file: &NamedFile) -> u32
    ensures { result ≡ aligned_at largest.now file.now.inode.device file.now.inode.number }
{
    let key = (file.inode.device, file.inode.number);
    largest.get(&key).copied().unwrap_or(0)
}

/// Notes the alignment of a file with several links, unless a larger one is noted.
fn note(largest: &mut Largest, file: &NamedFile) -> Result<(), OutOfMemory>
    ensures { OnOk result ((device number : ℕ) → aligned_at largest.new device number
        ≡ larger device number file.now (aligned_at largest.old device number)) }
{
    if file.has_links {
        let align = file.align.max(aligned_at(largest, file));
        largest.insert((file.inode.device, file.inode.number), align)?;
    }
    Ok(())
}

/// The largest alignment of each file with several links, by its device and number.
fn largest_of(alloc: Global, found: &[NamedFile]) -> Result<Largest, OutOfMemory>
    ensures { IfOk result (λ m. (device number : ℕ)
        → aligned_at m device number ≡ largest device number found.now) }
{
    let mut largest: Largest = BTreeMap::new(alloc);
    for file in found {
        note(&mut largest, file)?;
    }
    Ok(largest)
}

/// Gives a file with several links the alignment that is noted for it.
fn share_one(largest: &Largest, file: &mut NamedFile)
    ensures { file.new ≡ shared_by largest.now file.old }
{
    if file.has_links {
        file.align = aligned_at(largest, file);
    }
}

/// Gives each file with several links the alignment that is noted for it.
fn share(largest: &Largest, found: &mut [NamedFile])
    ensures { found.new ≡ map (shared_by largest.now) found.old }
{
    for index in 0..found.len() {
        share_one(largest, &mut found[index]);
    }
}

/// Gives each name of a file with several links the largest alignment of its names, since only one
/// of these has a line with an alignment.
///
/// # Errors
///
/// `OutOfMemory`. Then no alignment is changed.
pub fn share_alignments(alloc: Global, found: &mut [NamedFile]) -> Result<(), OutOfMemory>
    ensures shared { OnOk result (found.new ≡ map (shared found.old) found.old) }
    ensures unchanged { OnErr result (found.new ≡ found.old) }
{
    let largest = largest_of(alloc, found)?;
    share(&largest, found);
    Ok(())
}

/// Gives each file the alignment of its index, if there is one.
fn align_each(found: &mut [NamedFile], aligns: &[u32])
    ensures { found.new ≡ aligned_each aligns.now found.old }
{
    for index in 0..found.len() {
        if let Some(align) = aligns.get(index) {
            found[index].align = *align;
        }
    }
}

/// Gives files the alignments of their indices, in bytes. Then each name of a file with several
/// links gets the largest alignment of its names. All paths stay.
///
/// # Errors
///
/// `OutOfMemory`.
pub fn align_all(alloc: Global, found: &mut [NamedFile], aligns: &[u32]) -> Result<(), OutOfMemory>
    ensures aligned { OnOk result (found.new ≡ aligned_all aligns.now found.old) }
    ensures order { AreInOrder found.old → AreInOrder found.new }
{
    align_each(found, aligns);
    share_alignments(alloc, found)
}

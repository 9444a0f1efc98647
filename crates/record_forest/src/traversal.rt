//! The traversal of the records of an image, from its root.
ghost use Rattle.std.specs.Prelude.{◌≡◌, ◌≢◌, ◌+◌, ◌^◌, ◌<◌, ◌≤◌, ℕ, Some, IfOk, IfErr, OnOk, List};
ghost use Rattle.std.specs.Prelude.{[], ◌∷◌, ◌++◌};
ghost use Rattle.rom_fields.specs.declared.fault.Fault.{Fault};
ghost use Rattle.record_forest.specs.declared.traversal.TraversalError.TheVariants.{OutOfMemory};
ghost use Rattle.record_forest.specs.References.{AreLawful};
ghost use Rattle.record_forest.specs.Forest.{Forest, all_rows, IsForest};
ghost use Rattle.record_forest.specs.Known.{AreKnown};
ghost use Rattle.record_forest.specs.Lesser.{lesser};
ghost use Rattle.record_forest.specs.Traversal.{IsLeastRefusal};

use crate::known::VerifiedRanges;
use crate::least::lesser_fault;
use crate::records::Records;
use crate::reference::{Edge, Edges, Reference, Row};
use rom_fields::Fault;
use std::alloc::{AllocFailed, Global};
use std::collections::BTreeSet;

/// The reason why a traversal returned no records.
#[derive(Debug, Drop)]
pub enum TraversalError {
    /// Memory was refused.
    OutOfMemory,
    /// There are more references than the limit.
    TooMany,
    /// A record has this fault.
    Record(Fault),
    /// Two references lead to the record at this offset.
    Twice(u32),
}

/// A reference that is still to be looked at, with the values of its record's row.
#[derive(Clone, Copy)]
struct Pending {
    edge: Edge,
    directory: u32,
    parent: u32,
    depth: u32,
}

/// The lesser of a noted offset, if there is one, and `at`.
fn lesser_offset(noted: Option<u32>, at: u32) -> Option<u32>
    ensures { result ≡ lesser noted at }
{
    match noted {
        None => Some(at),
        Some(least) => Some(if least < at { least } else { at }),
    }
}

/// The root's row.
fn root_row(reference: Reference, root: u32) -> Row
    ensures { result ≡ record {
      offset = root;
      reference = reference;
      directory = root;
      parent = root;
      depth = 0;
    } }
{
    Row {
        offset: root,
        reference,
        directory: root,
        parent: root,
        depth: 0,
    }
}

/// A reference that follows from the superblock's. It is in the root's own list.
fn below_root(edge: Edge, root: u32) -> Pending
    ensures { result ≡ record { edge = edge; directory = root; parent = root; depth = 1 } }
{
    Pending {
        edge,
        directory: root,
        parent: root,
        depth: 1,
    }
}

/// The row of the record at `at`, to which `next` leads.
fn row_of(next: Pending, at: u32) -> Row
    ensures { result ≡ record {
      offset = at;
      reference = next.edge.reference;
      directory = next.directory;
      parent = next.parent;
      depth = next.depth;
    } }
{
    Row {
        offset: at,
        reference: next.edge.reference,
        directory: next.directory,
        parent: next.parent,
        depth: next.depth,
    }
}

/// The own list of the record at `at`, to which `next` leads.
fn own_of(next: Pending, at: u32, own: Edge) -> Pending
    requires { next.depth + 1 < 2 ^ 32 }
    ensures { result ≡ record {
      edge = own;
      directory = at;
      parent = next.directory;
      depth = next.depth + 1;
    } }
{
    Pending {
        edge: own,
        directory: at,
        parent: next.directory,
        depth: next.depth + 1,
    }
}

/// The reference to the next record after the one to which `next` leads. It is in the same list.
fn after_of(next: Pending, after: Edge) -> Pending
    ensures { result ≡ record {
      edge = after;
      directory = next.directory;
      parent = next.parent;
      depth = next.depth;
    } }
{
    Pending {
        edge: after,
        directory: next.directory,
        parent: next.parent,
        depth: next.depth,
    }
}

/// The values with which a traversal begins, if the record at `root` has these edges: the root's
/// row, its offset, and the references that follow from the superblock's.
fn start(
    alloc: Global,
    top: Reference,
    root: u32,
    edges: Edges,
) -> Result<(Vec<Row>, BTreeSet<u32, Global>, Vec<Pending>), TraversalError>
    ensures rows { IfOk result (λ s. s.0.items
        ≡ record { offset = root; reference = top; directory = root; parent = root; depth = 0 }
        ∷ []) }
    ensures visited { IfOk result (λ s. s.1.keys ≡ root ∷ []) }
    ensures stack { IfOk result (λ s. s.2.items
        ≡ record { edge = edges.after; directory = root; parent = root; depth = 1 }
        ∷ record { edge = edges.own; directory = root; parent = root; depth = 1 } ∷ []) }
    ensures refused { IfErr result (λ e. e ≡ OutOfMemory) }
{
    let mut rows = Vec::new(alloc);
    let mut visited = BTreeSet::new(alloc);
    let mut stack = Vec::new(alloc);
    rows.push(root_row(top, root))?;
    visited.insert(root)?;
    stack.push(below_root(edges.after, root))?;
    stack.push(below_root(edges.own, root))?;
    Ok((rows, visited, stack))
}

/// Adds the row of the record at `at`, to which `next` leads, and the references that follow from
/// it.
fn enter(
    rows: &mut Vec<Row>,
    stack: &mut Vec<Pending>,
    next: Pending,
    at: u32,
    edges: Edges,
) -> Result<(), TraversalError>
    requires { next.depth + 1 < 2 ^ 32 }
    ensures rows { OnOk result (rows.new.items ≡ rows.old.items
        ++ record {
          offset = at;
          reference = next.edge.reference;
          directory = next.directory;
          parent = next.parent;
          depth = next.depth;
        } ∷ []) }
    ensures stack { OnOk result (stack.new.items ≡ (stack.old.items
        ++ record {
          edge = edges.after;
          directory = next.directory;
          parent = next.parent;
          depth = next.depth;
        } ∷ [])
        ++ record {
          edge = edges.own;
          directory = at;
          parent = next.directory;
          depth = next.depth + 1;
        } ∷ []) }
    ensures refused { IfErr result (λ e. e ≡ OutOfMemory) }
{
    rows.push(row_of(next, at))?;
    stack.push(after_of(next, edges.after))?;
    stack.push(own_of(next, at, edges.own))?;
    Ok(())
}

/// Returns the records from the root on, in preorder, or the least fault of references and records:
/// more references than `most`; otherwise a record's fault; otherwise a record to which two
/// references lead. It may also report that memory was refused.
pub fn traverse<R: Records>(
    alloc: Global,
    records: &R,
    most: u32,
) -> Result<Vec<Row>, TraversalError>
    requires { AreLawful (R.references records.now) (R.sound records.now) }
    ensures ok { IfOk result (λ v. (f : Forest) × (v.items ≡ all_rows (R.references records.now) f)
        × IsForest (R.references records.now) (R.sound records.now) most f) }
    ensures fault { IfErr result (IsLeastRefusal (R.references records.now) (R.sound records.now)
        (R.faulty records.now) most) }
{
    if most == 0 {
        return Err(TraversalError::TooMany);
    }
    let top = records.top();
    let Some(root) = top.target else {
        unreachable!();
    };
    let mut known = VerifiedRanges::new(alloc);
    match records.edges(&mut known, top.reference, root) {
        Err(fault) => Err(TraversalError::Record(fault)),
        Ok(edges) => traverse_below(alloc, records, known, most, root, edges),
    }
}

/// Does the same as `traverse`, if the root is the valid record at `root` with these edges.
fn traverse_below<R: Records>(
    alloc: Global,
    records: &R,
    known: VerifiedRanges,
    most: u32,
    root: u32,
    edges: Edges,
) -> Result<Vec<Row>, TraversalError>
    requires lawful { AreLawful (R.references records.now) (R.sound records.now) }
    requires known { AreKnown (R.well records.now) known }
    requires some { 0 < most }
    requires root { (R.references records.now).target (R.references records.now).top ≡ Some root }
    requires sound { R.sound records.now (R.references records.now).top }
    requires faultless { (e : Fault) → R.faulty records.now (R.references records.now).top e → ⊥ }
    requires own { edges.own.reference ≡ (R.references records.now).own
        (R.references records.now).top }
    requires own_target { edges.own.target ≡ (R.references records.now).target edges.own.reference }
    requires after { edges.after.reference ≡ (R.references records.now).after
        (R.references records.now).top }
    requires after_target { edges.after.target
        ≡ (R.references records.now).target edges.after.reference }
    ensures ok { IfOk result (λ v. (f : Forest) × (v.items ≡ all_rows (R.references records.now) f)
        × IsForest (R.references records.now) (R.sound records.now) most f) }
    ensures fault { IfErr result (IsLeastRefusal (R.references records.now) (R.sound records.now)
        (R.faulty records.now) most) }
{
    let mut known = known;
    let (mut rows, mut visited, mut stack) = start(alloc, records.top().reference, root, edges)?;
    let mut count: u32 = 1;
    let mut noted: Option<Fault> = None;
    let mut twice: Option<u32> = None;
    'references: while let Some(next) = stack.pop() {
        let Some(at) = next.edge.target else {
            continue;
        };
        if count == most {
            return Err(TraversalError::TooMany);
        }
        count += 1;
        let edges = match records.edges(&mut known, next.edge.reference, at) {
            Ok(edges) => edges,
            Err(fault) => {
                noted = lesser_fault(noted, fault);
                continue;
            }
        };
        if visited.insert(at)? {
            enter(&mut rows, &mut stack, next, at, edges)?;
            continue;
        }
        twice = lesser_offset(twice, at);
        if records.is_chained() {
            continue;
        }
        stack.push(after_of(next, edges.after))?;
    }
    match (noted, twice) {
        (Some(fault), _) => Err(TraversalError::Record(fault)),
        (None, Some(at)) => Err(TraversalError::Twice(at)),
        (None, None) => Ok(rows),
    }
}

impl<T: Drop> From<AllocFailed<T>> for TraversalError {
    ghost use Rattle.record_forest.specs.declared.traversal.TraversalError.TheVariants.{OutOfMemory};

    ghost from_gives = { λ _ e. e ≡ OutOfMemory };

    fn from(_: AllocFailed<T>) -> Self {
        TraversalError::OutOfMemory
    }
}

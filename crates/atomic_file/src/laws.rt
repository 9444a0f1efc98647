//! What the theorem refuses.
ghost use Rattle.std.specs.Prelude.{ℕ, List, Option};
ghost use Rattle.atomic_file.specs.WrongRuns.{RefusesMoment, RefusesEnd, RefusesError};
ghost use Rattle.atomic_file.specs.WrongRuns.{renamed_before_sync, renamed_before_close};
ghost use Rattle.atomic_file.specs.WrongRuns.{sync_error_dropped, close_error_dropped};
ghost use Rattle.atomic_file.specs.WrongRuns.{written_in_place, removed_first, not_durable};
ghost use Rattle.atomic_file.specs.WrongRuns.{part_left};

/// Shows that the promises refuse the runs that may lose a file: a rename before the part is
/// synchronized or closed, or after one of the two was refused; bytes that are written into the
/// file itself; a removal of the file before the rename; an end before the directory is
/// synchronized. An error that leaves the part is refused, too.
pub fn refused_runs()
    ensures before_sync { RefusesMoment renamed_before_sync }
    ensures before_close { (known : Option (List ℕ)) → RefusesMoment (renamed_before_close known) }
    ensures sync_error { (known : Option (List ℕ)) → RefusesMoment (sync_error_dropped known) }
    ensures close_error { (known : Option (List ℕ)) → RefusesMoment (close_error_dropped known) }
    ensures in_place { RefusesMoment written_in_place }
    ensures removal { (known : Option (List ℕ)) → RefusesMoment (removed_first known) }
    ensures directory { (known : Option (List ℕ)) → RefusesEnd (not_durable known) }
    ensures part { RefusesError part_left }
{}

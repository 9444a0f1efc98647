//! Laws on several sessions over several images.
ghost use Rattle.std.specs.Prelude.{◌≡◌, ◌<◌, ℕ, List, None, slice_set};
ghost use Rattle.rom_tree.specs.Image.{Image};
ghost use Rattle.path_walk.specs.declared.mount.Mount.{Mount};
ghost use Rattle.path_walk.specs.Graft.{MountedNode};
ghost use Rattle.open_files.specs.Machine.{Table};
ghost use Rattle.open_files.specs.Sessions.{Sessions, no_sessions};
ghost use Rattle.serve_lines.specs.Served.{used, exchanges, lines_of};
ghost use Rattle.serve_lines.specs.Views.{SeesItsView, LeavesOwn};
ghost use Rattle.rom_serve.specs.Machines.{space_machine, session_of};
ghost use Rattle.rom_serve.specs.SessionLines.{space_lines, NeverMounts};

/// Shows that the replies to one session are those that it would get if its view were the whole
/// input: its own lines, and the `mount` and `umount` lines of all sessions.
pub fn views()
    ensures { (ms : List Image) (s : Sessions (List Mount) (Table MountedNode))
        → SeesItsView (space_lines ms) s }
{}

/// Shows that `mount` and `umount` leave what each session has open as it is. So an open file still
/// has its node's bytes or entries.
pub fn mounts_leave_tables()
    ensures { (ms : List Image) → LeavesOwn (space_lines ms) }
{}

/// Shows that a line that names no session changes nothing.
pub fn unnamed_lines()
    ensures { (ms : List Image) (s : Sessions (List Mount) (Table MountedNode)) (l : List ℕ)
        → session_of l ≡ None → (space_machine ms).next s l ≡ s }
{}

/// Shows that no line ends the serving of several images, so all of the input is used.
pub fn all_used()
    ensures { (ms : List Image) (x : List ℕ) → used (space_machine ms) x ≡ x }
{}

/// Shows that all replies stay the same if an image other than 0 that no line mounts is replaced by
/// any other.
pub fn untouched_image()
    ensures { (ms : List Image) (i : ℕ) (m : Image) (x : List ℕ) → 0 < i → NeverMounts i x
        → exchanges (space_machine (slice_set ms i m)) (no_sessions 64) (lines_of x)
        ≡ exchanges (space_machine ms) (no_sessions 64) (lines_of x) }
{}

//! The laws of manifests: printed lines are read back, the first bad line of a text is the one for
//! which `parse` refuses it, and a line by itself has the fault that it has behind other lines.
ghost use Rattle.std.specs.Prelude.{◌≡◌, List, ℕ, [], Ok, true, false};
ghost use Rattle.std.specs.Option.{is_some};
ghost use Rattle.manifest.specs.Alone.{own_fault};
ghost use Rattle.manifest.specs.Faults.{fault_in, faults_of, first_fault};
ghost use Rattle.manifest.specs.Grammar.{fault_of, has_parent, has_target, manifest_of};
ghost use Rattle.manifest.specs.Lines.{line_at};
ghost use Rattle.manifest.specs.Paths.{names_of, parent_of};
ghost use Rattle.manifest.specs.declared.line.Line.{Line};
ghost use Rattle.manifest.specs.Printed.{AreTaken, IsVolume, as_read, first_number};
ghost use Rattle.manifest.specs.Printed.{manifest_text};

/// Shows that the text of lines is read as a manifest of exactly these lines, numbered in their
/// order, and of this volume. The grammar has to accept each line behind those before it.
pub fn reads_back()
    ensures { (volume : List ℕ) (ls : List Line) → IsVolume volume
        → AreTaken [] (first_number volume) ls
        → manifest_of (manifest_text volume ls) ≡ Ok (as_read volume ls) }
{}

/// Shows that the first bad line of a text is the one for which `parse` refuses the text, with the
/// same fault, and that a text without bad lines is a manifest.
pub fn first_is_parsed()
    ensures { (text : List ℕ) → first_fault (faults_of text) ≡ fault_in (manifest_of text) }
{}

/// Shows that a line has behind others exactly the fault that `read_line` finds, if they make its
/// directory and what it names, and do not make its path.
pub fn alone_is_behind()
    ensures { (latest : List Line) (l : Line)
        → has_parent latest (parent_of (names_of l.path)) ≡ true
        → is_some (line_at latest l.path) ≡ false
        → has_target latest l.word l.text ≡ true
        → fault_of latest l ≡ own_fault l }
{}

//! Laws on the definitions.
ghost use Rattle.std.specs.Prelude.{◌≡◌, ℕ, List};
ghost use Rattle.serve_lines.specs.Served.{lines_of, joined};

/// Shows that the lines of an input, joined to an input and cut again, are the same.
pub fn lines_again()
    ensures { (x : List ℕ) → lines_of (joined (lines_of x)) ≡ lines_of x }
{}

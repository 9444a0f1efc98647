//! Laws of images of either format, and of the bytes that a check looks at.
ghost use Rattle.cramfs_format.specs.Superblock.{order_of};
ghost use Rattle.formats.specs.Begins.{BeginsRomfs, BeginsCramfs};
ghost use Rattle.image_check.specs.Checked.{HasTree, IsFaultless};
ghost use Rattle.image_check.specs.Checked.{IsLeastFaultUnder, IsRefused, Shows};
ghost use Rattle.formats.specs.Reach.{IsSumRefused, Reaches};
ghost use Rattle.rom_fields.specs.FaultNumbers.{SUM};
ghost use Rattle.rom_fields.specs.declared.check_error.CheckError.TheVariants.{Fault};
ghost use Rattle.rom_fields.specs.declared.check_error.CheckError.{CheckError};
ghost use Rattle.rom_tree.specs.Image.{Image};
ghost use Rattle.rom_tree.specs.Tree.{Node};
ghost use Rattle.rom_tree.specs.declared.types.Limits.{Limits};
ghost use Rattle.rom_tree.specs.declared.types.Report.{Report};
ghost use Rattle.std.specs.Prelude.{◌≡◌, ℕ, List, ◌≤◌, ◌↔◌, length, take};

/// States that bytes have at most one tree, of any format and under any limits.
pub fn one_tree()
    ensures { (all : List ℕ) (limits others : Limits) (t u : Node) → HasTree all limits t
        → HasTree all others u → t ≡ u }
{
    romfs_format::laws::one_tree();
    cramfs_format::laws::one_tree();
}

/// States that bytes have no fault exactly if they have a tree.
pub fn exact()
    ensures tree { (all : List ℕ) (limits : Limits) (t : Node) → HasTree all limits t
        → IsFaultless all limits }
    ensures faultless { (all : List ℕ) (limits : Limits) → IsFaultless all limits
        → (t : Node) × HasTree all limits t }
{
    romfs_image::laws::exact();
    cramfs_image::laws::exact();
}

/// States that a file and its first n bytes have the same tree, the same faults, the same format
/// and byte order, and the same report, if n is at least what `reach_of` returns for the first 76
/// bytes.
pub fn no_further()
    ensures tree { (all : List ℕ) (reach n : ℕ) (limits : Limits) (t : Node)
        → Reaches (take 76 all) reach → reach ≤ n
        → HasTree (take n all) limits t ↔ HasTree all limits t }
    ensures fault { (all : List ℕ) (reach n : ℕ) (limits : Limits) (e : CheckError)
        → Reaches (take 76 all) reach → reach ≤ n
        → IsLeastFaultUnder (take n all) limits e ↔ IsLeastFaultUnder all limits e }
    ensures faultless { (all : List ℕ) (reach n : ℕ) (limits : Limits)
        → Reaches (take 76 all) reach → reach ≤ n
        → IsFaultless (take n all) limits ↔ IsFaultless all limits }
    ensures romfs { (all : List ℕ) (reach n : ℕ) → Reaches (take 76 all) reach → reach ≤ n
        → BeginsRomfs (take n all) ↔ BeginsRomfs all }
    ensures cramfs { (all : List ℕ) (reach n : ℕ) → Reaches (take 76 all) reach → reach ≤ n
        → BeginsCramfs (take n all) ↔ BeginsCramfs all }
    ensures order { (all : List ℕ) (reach n : ℕ) → Reaches (take 76 all) reach → reach ≤ n
        → order_of (take n all) ≡ order_of all }
    ensures shown { (all : List ℕ) (reach n : ℕ) (limits : Limits) (m : Image) (report : Report)
        → Reaches (take 76 all) reach → reach ≤ n → Shows (take n all) limits m report
        → (w : Image) × Shows all limits w report × (w.tree ≡ m.tree) }
    ensures report { (all : List ℕ) (reach n : ℕ) (limits : Limits) (m w : Image) (report : Report)
        → Reaches (take 76 all) reach → reach ≤ n → m.bytes ≡ take n all → w.bytes ≡ all
        → m.tree ≡ w.tree → Shows (take n all) limits m report ↔ Shows all limits w report }
{}

/// States that a file has no tree, and 5 Sum at 12 as its least fault, if its first 512 bytes are
/// refused by their sum.
pub fn refused()
    ensures tree { (all : List ℕ) (limits : Limits) → IsSumRefused (take 512 all) (length all)
        → IsRefused all limits (Fault SUM 12) }
    ensures fault { (all : List ℕ) (limits : Limits) → IsSumRefused (take 512 all) (length all)
        → IsLeastFaultUnder all limits (Fault SUM 12) }
{}

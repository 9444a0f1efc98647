//! What a program needs that the image which is built would not have.
ghost use Rattle.std.specs.Prelude.{◌≡◌, IfOk, map};
ghost use Rattle.rom_tree.specs.Tree.{IsShallow};
ghost use Rattle.program_report.specs.Needs.{missing};
ghost use Rattle.build_commands.specs.Needed.{those_there};

use program_report::FileNeeds;
use rom_tree::TreeImage;
use std::alloc::{AllocError, Global};

/// Returns the interpreter and the libraries that a file needs and an image does not have, in their
/// order. The image does not change.
///
/// # Errors
///
/// Memory was refused.
pub fn unmet<'a, 'i, T: TreeImage<'i>>(
    alloc: Global,
    image: &mut T,
    needs: &FileNeeds<'a>,
) -> Result<Vec<&'a [u8]>, AllocError>
    requires { IsShallow (T.image image.old).tree }
    ensures unmet { IfOk result (λ v. map (λ n. n.now) v.items
        ≡ those_there (missing (T.image image.old) needs.now)) }
    ensures stays { T.image image.new ≡ T.image image.old }
{
    let mut unmet = Vec::new(alloc);
    for index in 0..needs.count() {
        if let Some(name) = needs.missing(image, index) {
            unmet.push(name)?;
        }
    }
    Ok(unmet)
}

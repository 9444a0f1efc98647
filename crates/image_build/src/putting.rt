//! An image that replaces a file.
ghost use Rattle.std.specs.Prelude.{◌≡◌, ◌≤◌, ◌%◌, List, length, IfOk, OnErr, IfErr};
ghost use Rattle.atomic_file.specs.Log.{Event, Throughout};
ghost use Rattle.atomic_file.specs.Moments.{IsNoPart, IsBegun, IsOldOrNew, IsReplaced};
ghost use Rattle.atomic_file.specs.Moments.{IsDurable, IsKept};
ghost use Rattle.atomic_file.specs.Runs.{IsUnwritten, IsStop};
ghost use Rattle.image_build.specs.Images.{IsCheckedImage, IsImageFault};

use crate::image::{LastCheck, PlanImage, Unwritten};
use atomic_file::{Begun, Directory, Durability, Names, Unfinished, finish};
use image_stream::Sources;

/// Fills a part with the image of a plan, and gives it the name of a file, which it replaces.
///
/// At each moment the file is what it was or the image of the plan, whole, with the contents that
/// the reads answered last, and a crash at each moment leaves it so. It is the image only after the
/// last check passed.
///
/// # Errors
///
/// `NotWritten`: the image was not written, or the last check failed. `NotKept`: the directory
/// refused a call. The file is what it was, except if only the synchronization of the directory was
/// refused.
pub fn put<D: Directory, S: Sources, K: LastCheck>(
    directory: &mut D,
    names: Names,
    begun: Begun<D::Part>,
    image: &mut PlanImage<'_, S, K>,
) -> Result<Durability, Unfinished<Unwritten<K::Error>, D::Part>>
    requires distinct { IsNoPart names names.out }
    requires room { 4 ≤ D.room directory.old }
    requires empty { (D.Part.output begun.part).contents ≡ D.fresh }
    requires files { S.files image.old.sources ≡ length image.old.plan.now.sizes }
    requires buffer { 4096 ≤ length image.old.buffer.now }
    requires words { length image.old.buffer.now % 4 ≡ 0 }
    ensures any_moment { (old : List Event) → IsBegun names begun.name old (D.log directory.old)
        → Throughout (IsOldOrNew names (IsCheckedImage (K.passed image.new.last)
        image.old.padding (S.known image.old.sources) (S.IsLog image.old.sources)
        (S.IsLog image.new.sources) image.old.plan.now D.fresh) old) (D.log directory.old)
        (D.log directory.new) }
    ensures ok { IfOk result (λ d. (old : List Event)
        → IsBegun names begun.name old (D.log directory.old)
        → IsReplaced names (IsCheckedImage (K.passed image.new.last) image.old.padding
        (S.known image.old.sources) (S.IsLog image.old.sources) (S.IsLog image.new.sources)
        image.old.plan.now D.fresh) old (D.log directory.new)) }
    ensures durable { IfOk result (λ d. IsDurable d (D.log directory.new)) }
    ensures err { OnErr result ((old : List Event)
        → IsBegun names begun.name old (D.log directory.old)
        → IsKept names (IsCheckedImage (K.passed image.new.last) image.old.padding
        (S.known image.old.sources) (S.IsLog image.old.sources) (S.IsLog image.new.sources)
        image.old.plan.now D.fresh) old (D.log directory.new)) }
    ensures cause { IfErr result (λ e. IsStop names begun.name
        (IsCheckedImage (K.passed image.new.last) image.old.padding (S.known image.old.sources)
        (S.IsLog image.old.sources) (S.IsLog image.new.sources) image.old.plan.now D.fresh)
        (IsUnwritten (IsImageFault (K.fails image.old.last image.new.last)
        (S.known image.old.sources) image.old.plan.now (S.reads image.old.sources)
        (S.reads image.new.sources)) D.fresh)
        (D.log directory.old) (D.log directory.new) e) }
    ensures names { S.names image.new.sources ≡ S.names image.old.sources }
{
    finish(directory, names, begun, image)
}

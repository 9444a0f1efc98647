//! The header and the script of an image.
ghost use Rattle.std.specs.Prelude.{◌≡◌, ◌<◌, ◌≤◌, true, false};
ghost use Rattle.std.specs.Prelude.{Some, length, OnOk, OnErr, IfErr};
ghost use Rattle.std.specs.Bool.{OnTrue, OnFalse};
ghost use Rattle.std.specs.Io.KnownBytes.{Appends};
ghost use Rattle.rom_fields.specs.Failures.{Rose};
ghost use Rattle.rom_fields.specs.Written.{AppendsPrefix, Puts, sink};
ghost use Rattle.rom_tree.specs.Tree.{Node, is_regular, IsShallow, places_of};
ghost use Rattle.rom_tree.specs.Image.{image_node, HasNode};
ghost use Rattle.rom_tree.specs.Walks.{given_path};
ghost use Rattle.image_info.specs.Runs.{runs};
ghost use Rattle.map_forms.specs.Forms.{last_lines};
ghost use Rattle.map_forms.specs.Header.{first_lines, head_text, header_text, map_text};
ghost use Rattle.map_forms.specs.Header.{node_macros, only_address, script_text, HasLongPath};
ghost use Rattle.map_forms.specs.declared.error.HeaderError.TheVariants.{LongPath, WriteFault};
ghost use Rattle.map_forms.specs.declared.error.HeaderError.TheVariants.{OutOfMemory};

use crate::choice::Choice;
use crate::error::HeaderError;
use crate::form::{Form, put_behind, put_last_lines};
use crate::macros::{put_front, put_macros, put_name};
use crate::numbers::{put_address, put_length};
use arrayvec::ArrayVec;
use rom_fields::{ByteWrite, put};
use rom_tree::{NodeId, TreeImage, Walk, is_regular_at, longest_run};

/// The most bytes of a path: 65 names of 255 bytes, each with a slash.
const LONGEST_PATH: usize = 16_640;

/// Puts what comes before all definitions.
fn put_first_lines<W: ByteWrite>(w: &mut W, failed: &mut bool, form: Form, prefix: &[u8])
    ensures { Puts (sink (W.output w.old) failed.old) (sink (W.output w.new) failed.new)
        (first_lines form prefix.now) }
{
    match form {
        Form::Header => {
            put(
                w,
                failed,
                b"/* The files of an image, made by romtool map --c. */\n#ifndef ",
            );
            put_name(w, failed, prefix, b"", b"_MAP_H");
            put(w, failed, b"\n#define ");
            put_name(w, failed, prefix, b"", b"_MAP_H");
            put(w, failed, b"\n\n");
        }
        Form::Script => put(
            w,
            failed,
            b"/* The files of an image, made by romtool map --ld. */\n",
        ),
    }
}

/// Puts what comes before the definitions of files.
fn put_head<W: ByteWrite>(
    w: &mut W,
    failed: &mut bool,
    form: Form,
    prefix: &[u8],
    base: u64,
    size: u64,
)
    ensures { Puts (sink (W.output w.old) failed.old) (sink (W.output w.new) failed.new)
        (head_text form prefix.now base size) }
{
    put_first_lines(w, failed, form, prefix);
    put_front(w, failed, form, prefix, b"", b"_BASE");
    put_address(w, failed, form, base);
    put_behind(w, failed, form);
    put_front(w, failed, form, prefix, b"", b"_SIZE");
    put_length(w, failed, form, size);
    put_behind(w, failed, form);
}

/// Returns whether this number of bytes is all of a file that is not empty.
fn is_whole(size: u32, len: u64) -> bool
    ensures yes { OnTrue result ((0 < size) × (len ≡ size)) }
    ensures no { OnFalse result (0 < size → len ≡ size → ⊥) }
{
    size > 0 && len == u64::from(size)
}

/// Returns the address of a file, if it has some bytes and they follow one another.
fn address_of<'a, T: TreeImage<'a>>(image: &T, base: u64, node: NodeId, size: u32) -> Option<u64>
    requires { HasNode (T.image image.now) node.0 }
    ensures { (x : Node) → image_node (T.image image.now) node.0 ≡ Some x
        → size ≡ length (places_of x) → result ≡ only_address base (runs (places_of x)) }
{
    let (place, len) = longest_run(image, node, 0, u64::from(size));
    if is_whole(size, len) {
        Some(base.wrapping_add(u64::from(place)))
    } else {
        None
    }
}

/// Puts what is defined of the name that a walk returned last, if it is that of a chosen regular
/// file. `path` is room for its path.
fn put_file<'a, T: TreeImage<'a>, C: Choice, W: ByteWrite>(
    image: &T,
    w: &mut W,
    failed: &mut bool,
    form: Form,
    prefix: &[u8],
    base: u64,
    choice: &C,
    node: NodeId,
    walk: &Walk<'a>,
    path: &mut ArrayVec<u8, LONGEST_PATH>,
) -> Result<(), HeaderError>
    requires { HasNode (T.image image.now) node.0 }
    ensures ok { OnOk result ((x : Node) → image_node (T.image image.now) node.0 ≡ Some x
        → Puts (sink (W.output w.old) failed.old) (sink (W.output w.new) failed.new)
        (node_macros form (C.chosen choice.now) prefix.now base (given_path walk.now) x)) }
    ensures regular { OnErr result ((x : Node) → image_node (T.image image.now) node.0 ≡ Some x
        → is_regular x ≡ true) }
    ensures long { IfErr result (λ e. e ≡ LongPath → 16640 < length (given_path walk.now)) }
    ensures memory { IfErr result (λ e. e ≡ OutOfMemory → C.refuses choice.now) }
    ensures unfailed { IfErr result (λ e. e ≡ WriteFault → ⊥) }
    ensures output { OnErr result (W.output w.new ≡ W.output w.old) }
    ensures failed { OnErr result (failed.new ≡ failed.old) }
{
    if !is_regular_at(image, node) {
        return Ok(());
    }
    path.clear();
    match walk.append_path(path) {
        Ok(()) => {}
        Err(_) => return Err(HeaderError::LongPath),
    }
    let Ok(is_chosen) = choice.chooses(path.as_slice()) else {
        return Err(HeaderError::OutOfMemory);
    };
    if !is_chosen {
        return Ok(());
    }
    let size = image.stat(node).size;
    let address = address_of(image, base, node, size);
    put(w, failed, b"\n");
    put_macros(w, failed, form, prefix, path.as_slice(), address, size);
    Ok(())
}

/// Ends a map whose files are all put.
fn put_end<W: ByteWrite>(w: &mut W, failed: bool, form: Form) -> Result<(), HeaderError>
    ensures ok { OnOk result (Puts (sink (W.output w.old) failed) (sink (W.output w.new) false)
        (last_lines form)) }
    ensures err { IfErr result (λ e. (e ≡ WriteFault) × Puts (sink (W.output w.old) failed)
        (sink (W.output w.new) true) (last_lines form)) }
{
    let mut failed = failed;
    put_last_lines(w, &mut failed, form);
    if failed {
        Err(HeaderError::WriteFault)
    } else {
        Ok(())
    }
}

/// Writes a map of this form.
fn write_map<'a, T: TreeImage<'a>, C: Choice, W: ByteWrite>(
    form: Form,
    image: &T,
    base: u64,
    prefix: &[u8],
    choice: &C,
    w: &mut W,
) -> Result<(), HeaderError>
    requires { IsShallow (T.image image.now).tree }
    ensures ok { OnOk result (Appends (W.output w.old).contents (W.output w.new).contents
        (map_text form (C.chosen choice.now) prefix.now base (length (T.image image.now).bytes)
        (T.image image.now).tree)) }
    ensures err { OnErr result (AppendsPrefix (W.output w.old).contents (W.output w.new).contents
        (map_text form (C.chosen choice.now) prefix.now base (length (T.image image.now).bytes)
        (T.image image.now).tree)) }
    ensures long { IfErr result (λ e. e ≡ LongPath → HasLongPath (T.image image.now).tree) }
    ensures memory { IfErr result (λ e. e ≡ OutOfMemory → C.refuses choice.now) }
    ensures quiet { OnOk result ((W.output w.new).failures ≡ (W.output w.old).failures) }
    ensures rose { IfErr result (λ e. e ≡ WriteFault
        → Rose (W.output w.old).failures (W.output w.new).failures) }
    ensures still { IfErr result (λ e. e ≡ LongPath
        → (W.output w.new).failures ≡ (W.output w.old).failures) }
    ensures spared { IfErr result (λ e. e ≡ OutOfMemory
        → (W.output w.new).failures ≡ (W.output w.old).failures) }
{
    let mut path = ArrayVec::new();
    let mut failed = false;
    let mut walk = Walk::new();
    put_head(
        w,
        &mut failed,
        form,
        prefix,
        base,
        image.bytes().len() as u64,
    );
    while !failed {
        let Some(node) = walk.next(image) else {
            return put_end(w, failed, form);
        };
        match put_file(
            image,
            w,
            &mut failed,
            form,
            prefix,
            base,
            choice,
            node,
            &walk,
            &mut path,
        ) {
            Ok(()) => {}
            Err(e) => return Err(e),
        }
    }
    Err(HeaderError::WriteFault)
}

/// Writes a header for C and C++ of an image whose first byte has the address `base`. Each name of
/// a chosen regular file has a macro for its length and one for its path. It has one for its
/// address if the file has at least one byte and its bytes follow one another. The names of macros
/// begin with the prefix.
///
/// # Errors
///
/// `WriteFault` if a write failed, `LongPath` if the path of a regular file has more than 16,640
/// bytes, `OutOfMemory` if the choice was refused memory. Then a prefix of the header was written.
pub fn write_header<'a, T: TreeImage<'a>, C: Choice, W: ByteWrite>(
    image: &T,
    base: u64,
    prefix: &[u8],
    choice: &C,
    w: &mut W,
) -> Result<(), HeaderError>
    requires { IsShallow (T.image image.now).tree }
    ensures ok { OnOk result (Appends (W.output w.old).contents (W.output w.new).contents
        (header_text (C.chosen choice.now) prefix.now base (length (T.image image.now).bytes)
        (T.image image.now).tree)) }
    ensures err { OnErr result (AppendsPrefix (W.output w.old).contents (W.output w.new).contents
        (header_text (C.chosen choice.now) prefix.now base (length (T.image image.now).bytes)
        (T.image image.now).tree)) }
    ensures long { IfErr result (λ e. e ≡ LongPath → HasLongPath (T.image image.now).tree) }
    ensures memory { IfErr result (λ e. e ≡ OutOfMemory → C.refuses choice.now) }
    ensures quiet { OnOk result ((W.output w.new).failures ≡ (W.output w.old).failures) }
    ensures rose { IfErr result (λ e. e ≡ WriteFault
        → Rose (W.output w.old).failures (W.output w.new).failures) }
    ensures still { IfErr result (λ e. e ≡ LongPath
        → (W.output w.new).failures ≡ (W.output w.old).failures) }
    ensures spared { IfErr result (λ e. e ≡ OutOfMemory
        → (W.output w.new).failures ≡ (W.output w.old).failures) }
{
    write_map(Form::Header, image, base, prefix, choice, w)
}

/// Writes a script for GNU ld of an image whose first byte has the address `base`. It provides for
/// each name of a chosen regular file a symbol for its length, and one for its address if the file
/// has at least one byte and its bytes follow one another. The symbols have the names of a header's
/// macros.
///
/// # Errors
///
/// `WriteFault` if a write failed, `LongPath` if the path of a regular file has more than 16,640
/// bytes, `OutOfMemory` if the choice was refused memory. Then a prefix of the script was written.
pub fn write_script<'a, T: TreeImage<'a>, C: Choice, W: ByteWrite>(
    image: &T,
    base: u64,
    prefix: &[u8],
    choice: &C,
    w: &mut W,
) -> Result<(), HeaderError>
    requires { IsShallow (T.image image.now).tree }
    ensures ok { OnOk result (Appends (W.output w.old).contents (W.output w.new).contents
        (script_text (C.chosen choice.now) prefix.now base (length (T.image image.now).bytes)
        (T.image image.now).tree)) }
    ensures err { OnErr result (AppendsPrefix (W.output w.old).contents (W.output w.new).contents
        (script_text (C.chosen choice.now) prefix.now base (length (T.image image.now).bytes)
        (T.image image.now).tree)) }
    ensures long { IfErr result (λ e. e ≡ LongPath → HasLongPath (T.image image.now).tree) }
    ensures memory { IfErr result (λ e. e ≡ OutOfMemory → C.refuses choice.now) }
    ensures quiet { OnOk result ((W.output w.new).failures ≡ (W.output w.old).failures) }
    ensures rose { IfErr result (λ e. e ≡ WriteFault
        → Rose (W.output w.old).failures (W.output w.new).failures) }
    ensures still { IfErr result (λ e. e ≡ LongPath
        → (W.output w.new).failures ≡ (W.output w.old).failures) }
    ensures spared { IfErr result (λ e. e ≡ OutOfMemory
        → (W.output w.new).failures ≡ (W.output w.old).failures) }
{
    write_map(Form::Script, image, base, prefix, choice, w)
}

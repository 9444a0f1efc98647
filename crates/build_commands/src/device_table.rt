//! A table of devices: what its rows add to the files that were found, and which attributes they
//! set. `specs/DeviceTable.antt` says what a row does.
ghost use Rattle.std.specs.List.{list_any};
ghost use Rattle.std.specs.Option.{option_map};
ghost use Rattle.std.specs.Prelude.{◌≡◌, ◌∷◌, [], ◌++◌, false, true, IfErr, IfOk, None, OnOk};
ghost use Rattle.std.specs.Prelude.{decimal, map};
ghost use Rattle.build_commands.specs.DeviceTable as table;
ghost use Rattle.build_commands.specs.DeviceTable.{IsListed, IsMade, IsRefusal, devices, entry_of};
ghost use Rattle.build_commands.specs.DeviceTable.{is_below, is_regular_in};
ghost use Rattle.build_commands.specs.DeviceTable.{is_set_below, line_for, rows_view, shown_from};
ghost use Rattle.build_commands.specs.Fitting.{is_directory_in};
ghost use Rattle.build_commands.specs.Inventory.{path_of};
ghost use Rattle.build_commands.specs.Lists.{Gives, IsNew, line_of, setting_of};
ghost use Rattle.build_commands.specs.Overlay.{AreInOrder, is_directory};
ghost use Rattle.manifest.specs.declared.line.Word.{Word};
ghost use Rattle.build_commands.specs.Rights.{file_at};
ghost use Rattle.build_commands.specs.TableRow.{row_view, word_of_node};

use crate::devices::{cut, file_of};
use crate::fits::first_unfit;
use crate::inventory::{FileKind, NamedFile};
use crate::listing::{ListError, Listing, MOST_FILES, Why, refused, text_in};
use crate::overlay::{OverlayError, is_directory, laid_over, sort};
use crate::rights::{Attributes, Change, file_at};
use crate::table_row::{Kind, Node, Numbers, Row, row_in};
use manifest::error::{BAD_NUMBER, BAD_TARGET, BAD_WORD, EXISTS};
use manifest::{Line, Word, own_fault};
use rom_fields::OutOfMemory;
use std::alloc::Global;
use std::collections::BTreeSet;

/// The mode of a directory that is made if its row has none.
const USUAL_MODE: u32 = 0o755;

/// The device number of a directory that is made only since another one is in it.
pub const IMPLIED: u64 = u64::MAX - 1;

/// What rows made so far, with the paths of the directories among their files.
#[derive(Drop)]
struct Made<'a> {
    listing: Listing,
    directories: BTreeSet<&'a [u8]>,
}

/// The line of a manifest for a file of a row, at a path. A device has this minor number.
fn line_for(
    alloc: Global,
    row: &Row<'_>,
    word: Word,
    minor: u32,
    path: &[u8],
) -> Result<Line, OutOfMemory>
    ensures { IfOk result (λ l. l ≡ line_for (row_view row.now) word minor path.now) }
{
    Ok(Line {
        number: row.line,
        word,
        path: path.to_vec(alloc)?.into(),
        mode: row.numbers.mode.unwrap_or(USUAL_MODE),
        uid: row.numbers.uid,
        gid: row.numbers.gid,
        align: 0,
        major: row.numbers.major,
        minor,
        text: Vec::new(alloc).into(),
    })
}

/// The file of a row at a path. A device has this minor number.
fn file_for(
    alloc: Global,
    row: &Row<'_>,
    word: Word,
    minor: u64,
    path: &[u8],
) -> Result<NamedFile, ListError>
    ensures file { Gives line_of result (table.file_for (row_view row.now) word minor path.now) }
    ensures new { IfOk result IsNew }
{
    let Ok(minor) = u32::try_from(minor) else {
        return Err(refused(row.line, BAD_NUMBER, Why::Row));
    };
    if path.is_empty() {
        return Err(refused(row.line, BAD_WORD, Why::Row));
    }
    let line = line_for(alloc, row, word, minor, path)?;
    match own_fault(&line) {
        Some(fault) => Err(refused(row.line, fault, Why::Row)),
        None => file_of(alloc, &line),
    }
}

/// A path with a number behind it.
fn numbered(alloc: Global, path: &[u8], number: u64) -> Result<Vec<u8>, OutOfMemory>
    ensures { IfOk result (λ v. v.items ≡ path.now ++ decimal number) }
{
    let digits = format!(in alloc; "{number}")?;
    let mut name = path.to_vec(alloc)?;
    name.extend_from_slice(digits.as_bytes())?;
    Ok(name)
}

/// The device of a row at a path, with this minor number.
fn device_for(
    alloc: Global,
    row: &Row<'_>,
    node: Node,
    minor: u64,
    path: &[u8],
) -> Result<NamedFile, ListError>
    ensures file { Gives line_of result
        (table.file_for (row_view row.now) (word_of_node node) minor path.now) }
    ensures new { IfOk result IsNew }
    ensures other { IfOk result (λ f. is_directory f ≡ false) }
{
    file_for(alloc, row, node.word(), minor, path)
}

/// The device of this number, from 0 on: if there are several, with a number at the end of its
/// path.
fn device(alloc: Global, row: &Row<'_>, node: Node, step: u32) -> Result<NamedFile, ListError>
    ensures file { Gives line_of result (table.device (row_view row.now) node step) }
    ensures new { IfOk result IsNew }
    ensures other { IfOk result (λ f. is_directory f ≡ false) }
{
    if row.count < 2 {
        return device_for(alloc, row, node, u64::from(row.numbers.minor), row.path);
    }
    let more = u64::from(step).saturating_mul(u64::from(row.numbers.increment));
    let minor = u64::from(row.numbers.minor).saturating_add(more);
    let number = u64::from(row.numbers.start) + u64::from(step);
    let path = numbered(alloc, row.path, number)?;
    device_for(alloc, row, node, minor, &path)
}

/// Returns how many devices a row makes.
pub fn devices(row: &Row<'_>) -> u32
    ensures { result ≡ devices (row_view row.now) }
{
    match row.kind {
        Kind::Device(_) => row.count.max(1),
        _ => 0,
    }
}

/// Refuses a row whose last file no manifest could have. It has the longest name and the greatest
/// number.
fn check(alloc: Global, row: &Row<'_>) -> Result<(), ListError>
    ensures { Gives (λ u. u) result (table.check (row_view row.now)) }
{
    match row.kind {
        Kind::Device(node) => {
            device(alloc, row, node, row.count.saturating_sub(1))?;
        }
        Kind::Directory => {
            file_for(alloc, row, Word::Dir, 0, row.path)?;
        }
        _ => {}
    }
    Ok(())
}

/// The change of the attributes of the file at a path.
fn change(alloc: Global, row: &Row<'_>, path: &[u8]) -> Result<Change, ListError>
    ensures { Gives setting_of result (table.setting (row_view row.now) path.now) }
{
    Ok(Change {
        line: row.line,
        path: text_in(alloc, row.line, path)?,
        attributes: Attributes {
            mode: row.numbers.mode,
            uid: row.numbers.uid,
            gid: row.numbers.gid,
        },
    })
}

/// Adds the change of the attributes of the file at a path.
fn set(alloc: Global, row: &Row<'_>, path: &[u8], listing: &mut Listing) -> Result<(), ListError>
    ensures table { Gives (λ _. table.table listing.new) result
        (table.with_setting (table.table listing.old) (table.setting (row_view row.now) path.now)) }
    ensures files { listing.new.files ≡ listing.old.files }
{
    let change = change(alloc, row, path)?;
    listing.changes.push(change)?;
    Ok(())
}

/// Whether a file that was found is a directory.
fn is_found(found: &[NamedFile], path: &[u8]) -> bool
    ensures { AreInOrder found.now → result ≡ is_directory_in (file_at path.now found.now) }
{
    file_at(found, path).is_some_and(is_directory)
}

/// Whether a row made a directory at a path.
fn is_made(made: &Made<'_>, path: &[u8]) -> bool
    requires { IsMade made.now }
    ensures { result ≡ table.makes_directory (table.table made.now.listing).entries path.now }
{
    made.directories.contains(path)
}

/// Adds a directory, which has this path.
fn add_made<'a>(made: &mut Made<'a>, path: &'a [u8], file: NamedFile) -> Result<(), ListError>
    requires made { IsMade made.old }
    requires directory { is_directory file ≡ true }
    requires path { path_of file ≡ path.now }
    ensures table { Gives (λ _. table.table made.new.listing) result
        (table.with_entry (table.table made.old.listing) (entry_of file)) }
    ensures made { OnOk result (IsMade made.new) }
{
    made.directories.insert(path)?;
    made.listing.add_file(file)?;
    Ok(())
}

/// The directory of a row at a path.
fn directory_for(alloc: Global, row: &Row<'_>, path: &[u8]) -> Result<NamedFile, ListError>
    ensures file { Gives line_of result (table.file_for (row_view row.now) Word.Dir 0 path.now) }
    ensures new { IfOk result IsNew }
    ensures directory { IfOk result (λ f. is_directory f ≡ true) }
    ensures path { IfOk result (λ f. path_of f ≡ path.now) }
{
    file_for(alloc, row, Word::Dir, 0, path)
}

/// A row that makes a missing directory.
fn as_parent<'a>(row: &Row<'a>) -> Row<'a>
    ensures { row_view result ≡ table.as_parent (row_view row.now) }
{
    Row {
        numbers: Numbers {
            mode: None,
            uid: 0,
            gid: 0,
            ..row.numbers
        },
        ..*row
    }
}

/// Adds the directory at a path, unless it was found or made.
fn add_parent<'a>(
    alloc: Global,
    row: &Row<'a>,
    path: &'a [u8],
    found: &[NamedFile],
    made: &mut Made<'a>,
) -> Result<(), ListError>
    requires made { IsMade made.old }
    ensures table { AreInOrder found.now → Gives (λ _. table.table made.new.listing) result
        (table.with_parent found.now (row_view row.now) (table.table made.old.listing)
        path.entry.now) }
    ensures made { OnOk result (IsMade made.new) }
{
    if is_found(found, path) || is_made(made, path) {
        return Ok(());
    }
    let mut file = directory_for(alloc, &as_parent(row), path)?;
    file.inode.device = IMPLIED;
    add_made(made, path, file)
}

/// Adds the directories above that of a row that are missing.
fn add_parents<'a>(
    alloc: Global,
    row: &Row<'a>,
    found: &[NamedFile],
    made: &mut Made<'a>,
) -> Result<(), ListError>
    requires made { IsMade made.old }
    ensures table { AreInOrder found.now → Gives (λ _. table.table made.new.listing) result
        (table.with_parents found.now (row_view row.now) (table.table made.old.listing)
        (table.ancestors row.now.path.now)) }
    ensures made { OnOk result (IsMade made.new) }
{
    for at in 1..row.path.len() {
        if row.path[at] == b'/' {
            add_parent(alloc, row, &row.path[..at], found, made)?;
        }
    }
    Ok(())
}

/// Adds the directory of a row, and those above it that are missing, or sets the attributes of the
/// one that was found.
fn add_directory<'a>(
    alloc: Global,
    row: &Row<'a>,
    found: &[NamedFile],
    made: &mut Made<'a>,
) -> Result<(), ListError>
    requires made { IsMade made.old }
    ensures table { AreInOrder found.now → Gives (λ _. table.table made.new.listing) result
        (table.with_directory found.now (row_view row.now) (table.table made.old.listing)) }
    ensures made { OnOk result (IsMade made.new) }
{
    if is_found(found, row.path) {
        return set(alloc, row, row.path, &mut made.listing);
    }
    add_parents(alloc, row, found, made)?;
    let file = directory_for(alloc, row, row.path)?;
    add_made(made, row.path, file)
}

/// Sets the attributes of a regular file, which may be missing unless it is needed.
fn add_change(
    alloc: Global,
    row: &Row<'_>,
    is_needed: bool,
    found: &[NamedFile],
    listing: &mut Listing,
) -> Result<(), ListError>
    ensures table { AreInOrder found.now → Gives (λ _. table.table listing.new) result
        (table.with_regular found.now (row_view row.now) is_needed (table.table listing.old)) }
    ensures files { listing.new.files ≡ listing.old.files }
{
    if is_regular(file_at(found, row.path)) {
        return set(alloc, row, row.path, listing);
    }
    if is_needed {
        return Err(refused(row.line, BAD_TARGET, Why::File));
    }
    Ok(())
}

/// Whether a file was found, and is a regular one.
fn is_regular(file: Option<&NamedFile>) -> bool
    ensures { result ≡ is_regular_in (option_map (λ f. f.now) file.entry) }
{
    match file {
        Some(file) => matches!(file.kind, FileKind::Regular),
        None => false,
    }
}

/// Whether a path is another one, or below it.
fn is_below(path: &[u8], other: &[u8]) -> bool
    ensures { result ≡ is_below path.now other.now }
{
    let Some(front) = path.get(..other.len()) else {
        return false;
    };
    front == other && begins_name(&path[other.len()..])
}

/// Whether nothing is left of a path, or a slash is next.
fn begins_name(rest: &[u8]) -> bool
    ensures { result ≡ table.begins_name rest.now }
{
    match rest {
        [] => true,
        [first, ..] => *first == b'/',
    }
}

/// Whether a file is at a path or below it, and no symbolic link.
fn is_set_below(file: &NamedFile, path: &[u8]) -> bool
    ensures { result ≡ is_set_below path.now file.now }
{
    !matches!(file.kind, FileKind::Symlink(_)) && is_below(file.path(), path)
}

/// Adds the same, unless all rows would set more than are permitted.
fn set_limited(
    alloc: Global,
    row: &Row<'_>,
    path: &[u8],
    listing: &mut Listing,
) -> Result<(), ListError>
    ensures table { Gives (λ _. table.table listing.new) result
        (table.with_limited (row_view row.now) (table.table listing.old)
        (table.setting (row_view row.now) path.now)) }
    ensures files { listing.new.files ≡ listing.old.files }
{
    if listing.changes.len() >= MOST_FILES {
        return Err(refused(row.line, BAD_NUMBER, Why::Many));
    }
    set(alloc, row, path, listing)
}

/// Sets the attributes of each found file that is at the path of a row or below it, and no symbolic
/// link. Returns whether there is one.
fn set_found(
    alloc: Global,
    row: &Row<'_>,
    found: &[NamedFile],
    listing: &mut Listing,
) -> Result<bool, ListError>
    ensures table { Gives (λ _. table.table listing.new) result
        (table.with_settings (row_view row.now) (table.table listing.old) found.now) }
    ensures there { IfOk result (λ b. b ≡ list_any (is_set_below row.now.path.now) found.now) }
    ensures files { listing.new.files ≡ listing.old.files }
{
    let mut is_there = false;
    for file in found {
        if is_set_below(file, row.path) {
            is_there = true;
            set_limited(alloc, row, file.path(), listing)?;
        }
    }
    Ok(is_there)
}

/// Gives a file the attributes of a row, if it is at its path or below it, and no symbolic link.
/// Returns whether it is.
fn give(row: &Row<'_>, file: &mut NamedFile) -> bool
    ensures file { file.new ≡ table.set_below (row_view row.now) file.old }
    ensures there { result ≡ is_set_below row.now.path.now file.old }
{
    if !is_set_below(file, row.path) {
        return false;
    }
    file.mode = row.numbers.mode.unwrap_or(file.mode);
    file.uid = row.numbers.uid;
    file.gid = row.numbers.gid;
    true
}

/// Gives the attributes of a row to each file that is at its path or below it, and no symbolic
/// link. Returns whether there is one.
fn set_made(row: &Row<'_>, files: &mut [NamedFile]) -> bool
    ensures files { files.new ≡ map (table.set_below (row_view row.now)) files.old }
    ensures there { result ≡ list_any (is_set_below row.now.path.now) files.old }
{
    let mut is_there = false;
    for index in 0..files.len() {
        if give(row, &mut files[index]) {
            is_there = true;
        }
    }
    is_there
}

/// Gives the attributes of a row to each file that earlier rows made, in the same way.
fn set_listed(row: &Row<'_>, listing: &mut Listing) -> bool
    ensures files { listing.new.files.items
        ≡ map (table.set_below (row_view row.now)) listing.old.files.items }
    ensures changes { listing.new.changes ≡ listing.old.changes }
    ensures there { result ≡ list_any (is_set_below row.now.path.now) listing.old.files.items }
{
    set_made(row, &mut listing.files)
}

/// Sets the attributes of a file and of all that is below it, except symbolic links. Those that
/// earlier rows made get them at once.
fn add_below(
    alloc: Global,
    row: &Row<'_>,
    found: &[NamedFile],
    listing: &mut Listing,
) -> Result<(), ListError>
    ensures table { Gives (λ _. table.table listing.new) result
        (table.with_below found.now (row_view row.now) (table.table listing.old)) }
    ensures files { OnOk result (listing.new.files.items
        ≡ map (table.set_below (row_view row.now)) listing.old.files.items) }
{
    let is_found = set_found(alloc, row, found, listing)?;
    let is_made = set_listed(row, listing);
    if is_found | is_made {
        return Ok(());
    }
    Err(refused(row.line, BAD_TARGET, Why::File))
}

/// Adds the device of a number.
fn add_device(
    alloc: Global,
    row: &Row<'_>,
    node: Node,
    step: u32,
    made: &mut Made<'_>,
) -> Result<(), ListError>
    requires { IsMade made.old }
    ensures table { Gives (λ _. table.table made.new.listing) result (table.add_entry
        (table.table made.old.listing) false (table.device (row_view row.now) node step)) }
    ensures made { OnOk result (IsMade made.new) }
{
    let file = device(alloc, row, node, step)?;
    made.listing.add_file(file)?;
    Ok(())
}

/// Adds the devices of a row: one, or as many as it says.
fn add_devices(
    alloc: Global,
    row: &Row<'_>,
    node: Node,
    made: &mut Made<'_>,
) -> Result<(), ListError>
    requires { IsMade made.old }
    ensures table { Gives (λ _. table.table made.new.listing) result (table.with_devices
        (row_view row.now) node (table.table made.old.listing) 0 (devices (row_view row.now))) }
    ensures made { OnOk result (IsMade made.new) }
{
    for step in 0..devices(row) {
        add_device(alloc, row, node, step, made)?;
    }
    Ok(())
}

/// Adds what a row says.
fn add_row<'a>(
    alloc: Global,
    row: &Row<'a>,
    found: &[NamedFile],
    made: &mut Made<'a>,
) -> Result<(), ListError>
    requires made { IsMade made.old }
    ensures table { AreInOrder found.now → Gives (λ _. table.table made.new.listing) result
        (table.with_row found.now (row_view row.now) (table.table made.old.listing)) }
    ensures made { OnOk result (IsMade made.new) }
{
    match row.kind {
        Kind::Regular => add_change(alloc, row, true, found, &mut made.listing),
        Kind::MaybeRegular => add_change(alloc, row, false, found, &mut made.listing),
        Kind::Directory => add_directory(alloc, row, found, made),
        Kind::Below => {
            add_below(alloc, row, found, &mut made.listing)?;
            Ok(())
        }
        Kind::Device(node) => add_devices(alloc, row, node, made),
    }
}

/// The rows of a table, and how many devices they make.
#[derive(Drop)]
struct Rows<'a> {
    rows: Vec<Row<'a>>,
    devices: u64,
}

/// Adds a row to others.
fn add_next<'a>(alloc: Global, rows: &mut Rows<'a>, row: Row<'a>) -> Result<(), ListError>
    ensures { Gives (λ _. rows_view rows.new) result
        (table.with_next (rows_view rows.old) (row_view row.entry)) }
{
    let all = rows.devices.saturating_add(u64::from(devices(&row)));
    if all > MOST_FILES as u64 {
        return Err(refused(row.line, BAD_NUMBER, Why::Many));
    }
    check(alloc, &row)?;
    rows.rows.push(row)?;
    rows.devices = all;
    Ok(())
}

/// Adds the row of a line, if it is one.
fn add_line<'a>(
    alloc: Global,
    rows: &mut Rows<'a>,
    number: u64,
    line: &'a [u8],
) -> Result<(), ListError>
    ensures { Gives (λ _. rows_view rows.new) result
        (table.with_line (rows_view rows.old) number line.entry.now) }
{
    match row_in(alloc, number, line)? {
        None => Ok(()),
        Some(row) => add_next(alloc, rows, row),
    }
}

/// The rows of a text, if each of them is one by itself.
fn rows_in<'a>(alloc: Global, text: &'a [u8]) -> Result<Rows<'a>, ListError>
    ensures { Gives rows_view result (table.rows_of text.entry.now) }
{
    let mut rows = Rows {
        rows: Vec::new(alloc),
        devices: 0,
    };
    let mut rest = Some(text);
    let mut number = 0u64;
    while let Some(bytes) = rest {
        let (line, more) = cut(bytes, b'\n');
        number += 1;
        add_line(alloc, &mut rows, number, line)?;
        rest = more;
    }
    Ok(rows)
}

/// What rows say, one after the other.
fn add_rows(alloc: Global, rows: &[Row<'_>], found: &[NamedFile]) -> Result<Listing, ListError>
    ensures { AreInOrder found.now → Gives table.table result
        (table.with_rows found.now table.nothing (map row_view rows.now)) }
{
    let mut made = Made {
        listing: Listing::new(alloc),
        directories: BTreeSet::new(alloc),
    };
    for row in rows {
        add_row(alloc, row, found, &mut made)?;
    }
    Ok(made.listing)
}

/// What the lines of a text say: each row is looked at by itself first.
fn read_table(alloc: Global, text: &[u8], found: &[NamedFile]) -> Result<Listing, ListError>
    ensures { AreInOrder found.now → Gives table.table result (table.table_of found.now text.now) }
{
    let rows = rows_in(alloc, text)?;
    add_rows(alloc, &rows.rows, found)
}

/// Whether a file is a directory that is made only since another one is in it, at the path of a
/// file of another kind before it.
fn is_hidden(before: Option<&NamedFile>, file: &NamedFile) -> bool
    ensures { result ≡ table.is_hidden (option_map (λ f. f.now) before.entry) file.now }
{
    match before {
        Some(before) => {
            file.inode.device == IMPLIED && file.path() == before.path() && !is_directory(before)
        }
        None => false,
    }
}

/// The sorted files without those that are hidden.
fn shown(alloc: Global, files: Vec<NamedFile>) -> Result<Vec<NamedFile>, OutOfMemory>
    ensures { IfOk result (λ v. v.items ≡ shown_from None files.items) }
{
    let mut shown: Vec<NamedFile> = Vec::new(alloc);
    for file in files {
        if !is_hidden(shown.last(), &file) {
            shown.push(file)?;
        }
    }
    Ok(shown)
}

/// The last file of each path, sorted.
fn last_of_each(alloc: Global, mut files: Vec<NamedFile>) -> Result<Vec<NamedFile>, ListError>
    ensures laid { IfOk result (λ v. table.IsLaid files.items v.items) }
    ensures mixed { IfErr result (table.IsMixedUp files.items) }
{
    sort(&mut files)?;
    match laid_over(alloc, shown(alloc, files)?) {
        Ok(laid) => Ok(laid),
        Err(OverlayError::OutOfMemory) => Err(ListError::OutOfMemory),
        Err(OverlayError::Kinds(file)) => Err(refused(file.inode.number, EXISTS, Why::File)),
    }
}

/// Returns what the rows of a text say, its files sorted by their paths, the last one of each path.
/// The found files are in the order of their paths.
///
/// # Errors
///
/// `Bad` for the first row that is refused by itself; then for the first that is refused after the
/// rows before it; then for one whose file and the one before it of the same path are of two kinds;
/// then for the first whose file does not fit; `OutOfMemory`.
pub fn listed(alloc: Global, text: &[u8], found: &[NamedFile]) -> Result<Listing, ListError>
    ensures listed { AreInOrder found.now → IfOk result (IsListed found.now text.now) }
    ensures refused { AreInOrder found.now → IfErr result (IsRefusal found.now text.now) }
{
    let Listing { files, changes } = read_table(alloc, text, found)?;
    let files = last_of_each(alloc, files)?;
    match first_unfit(alloc, &files, found)? {
        None => Ok(Listing { files, changes }),
        Some(bad) => Err(ListError::Bad(bad)),
    }
}

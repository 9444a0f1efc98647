//! Lists and tables of devices, where no file was found.
use build_commands::alignments::share_alignments;
use build_commands::inventory::{NamedFile, lines, put_found};
use build_commands::listing::{BadLine, ListError, Listing, Why};
use build_commands::{device_table, devices};
use rom_fields::Plain;
use std::alloc::Global;
use std::test::Fail;

/// Each file is after those above it.
const SORTED: &[u8] = b"dir /dev 0755 0 0\n\
nod /dev/console 0600 0 5 c 5 1\n\
slink /dev/tty 0777 0 0 console\n";

/// Three devices, and a directory whose parents are missing.
const TABLE: &[u8] = b"/dev d 755 0 0\n\
/dev/tty c 666 root 5 4 0 2 1 3\n\
/opt/a/b d -1 7 8\n";

const OF_TABLE: &[u8] = b"dir /dev 0755 0 0\n\
nod /dev/tty2 0666 0 5 c 4 0\n\
nod /dev/tty3 0666 0 5 c 4 1\n\
nod /dev/tty4 0666 0 5 c 4 2\n\
dir /opt 0755 0 0\n\
dir /opt/a 0755 0 0\n\
dir /opt/a/b 0755 7 8\n";

/// The lines of files in a manifest.
fn lines_of(alloc: Global, files: &[NamedFile]) -> Option<Vec<u8>> {
    let lines = lines(alloc, None, files).ok()?;
    let mut text = Plain::new(Vec::new(alloc));
    put_found(&mut text, b"", &lines).ok()?;
    Some(text.into_inner())
}

/// Whether the files of a list have these lines, and so many changes are set.
fn has(alloc: Global, listed: Result<Listing, ListError>, text: &[u8], changes: usize) -> bool {
    let Ok(listing) = listed else {
        return false;
    };
    let Some(lines) = lines_of(alloc, &listing.files) else {
        return false;
    };
    lines.as_slice() == text && listing.changes.len() == changes
}

/// Whether a list is refused for this line, number and reason.
fn is_refused(listed: Result<Listing, ListError>, line: u64, number: u32, why: Why) -> bool {
    match listed {
        Err(ListError::Bad(bad)) => bad == BadLine { line, number, why },
        _ => false,
    }
}

#[test]
fn list_of_devices(rt: HostRuntime) -> Result<(), Fail> {
    let alloc = rt.alloc();
    let text = b"# a console\n\
slink /dev/tty 0777 0 0 console\n\
nod /dev/console 0600 0 5 c 5 1\n\
\n\
mode /etc 0700 1 2\n\
dir /dev 0755 0 0\n";
    assert!(rt; has(alloc, devices::listed(alloc, text, &[]), SORTED, 1));
    Ok(())
}

#[test]
fn list_of_given_devices(rt: HostRuntime) -> Result<(), Fail> {
    let alloc = rt.alloc();
    let given = [
        ("/console", "c", "5", "1", "0600"),
        ("/sda", "b", "8", "0", "0660"),
    ];
    let text = devices::list_for(alloc, &given).unwrap_or(Vec::new(alloc));
    let lines = b"nod /console 0600 0 0 c 5 1\nnod /sda 0660 0 0 b 8 0\n";
    assert!(rt; text.as_slice() == lines.as_slice());
    Ok(())
}

#[test]
fn lists_that_are_refused(rt: HostRuntime) -> Result<(), Fail> {
    let alloc = rt.alloc();
    let unknown = devices::listed(alloc, b"dir /a 0755 0 0\nfile /a/b 0644 0 0 4 x\n", &[]);
    assert!(rt; is_refused(unknown, 2, 1, Why::Word));
    let twice = devices::listed(alloc, b"pipe /a 0644 0 0\n\npipe /a 0644 0 0\n", &[]);
    assert!(rt; is_refused(twice, 3, 5, Why::Exists));
    let orphan = devices::listed(alloc, b"sock /a/b 0644 0 0", &[]);
    assert!(rt; is_refused(orphan, 1, 4, Why::Parent));
    Ok(())
}

#[test]
fn table_of_devices(rt: HostRuntime) -> Result<(), Fail> {
    let alloc = rt.alloc();
    assert!(rt; has(alloc, device_table::listed(alloc, TABLE, &[]), OF_TABLE, 0));
    let many = device_table::listed(alloc, b"/a c 600 0 0 1 1 0 1 65537", &[]);
    assert!(rt; is_refused(many, 1, 2, Why::Count));
    let absent = device_table::listed(alloc, b"/a r 600 0 0\n", &[]);
    assert!(rt; is_refused(absent, 1, 7, Why::File));
    Ok(())
}

/// The alignments of two names of one file and of another file, after they were shared.
fn shared(alloc: Global) -> Option<Vec<u32>> {
    let text = b"pipe /a 0644 0 0\npipe /b 0644 0 0\npipe /c 0644 0 0\n";
    let Listing { mut files, .. } = devices::listed(alloc, text, &[]).ok()?;
    for file in &mut files {
        file.has_links = file.path() != b"/c".as_slice();
        file.align = if file.path() == b"/b".as_slice() {
            4096
        } else {
            16
        };
        file.inode.number = 7;
    }
    share_alignments(alloc, &mut files).ok()?;
    let mut alignments = Vec::new(alloc);
    for file in &files {
        alignments.push(file.align).ok()?;
    }
    Some(alignments)
}

#[test]
fn names_of_one_file_get_one_alignment(rt: HostRuntime) -> Result<(), Fail> {
    let alignments = shared(rt.alloc()).unwrap_or(Vec::new(rt.alloc()));
    assert!(rt; alignments.as_slice() == [4096, 4096, 16].as_slice());
    Ok(())
}

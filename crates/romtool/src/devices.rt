//! A list or a table of devices: files that are added to the scanned ones, and attributes that are
//! set; and why a line of it is refused.
use crate::explained;
use crate::reporter::Reporter;
use crate::stop::{Stop, unread};
use build_commands::listing::{BadLine, Why};
use build_commands::print_bad_manifest;
use program_streams::Held;
use rom_commands::Status;
use rom_fields::Plain;
use sentences::reasons::{
    DEVICE_EXISTS, DEVICE_NO_PARENT, DEVICE_NO_TEXT, DEVICE_WORD, MODE_LINE, NO_SUCH_FILE,
    TABLE_COUNT, TABLE_FILE, TABLE_FILES, TABLE_LINE, TABLE_NUMBER, TABLE_PATH, TABLE_TYPE,
};
use std::alloc::AllocError;
use system_files::reading::Text;
use system_files::{Stamp, Watched, reading};

/// The sentence for the reason why a line is refused, unless it is the fault of a manifest.
fn reason(why: Why) -> Option<&'static str> {
    Some(match why {
        Why::Grammar => return None,
        Why::Word => DEVICE_WORD,
        Why::Mode => MODE_LINE,
        Why::Text => DEVICE_NO_TEXT,
        Why::Many => TABLE_FILES,
        Why::Row => TABLE_LINE,
        Why::Number => TABLE_NUMBER,
        Why::Type => TABLE_TYPE,
        Why::Count => TABLE_COUNT,
        Why::Deep => TABLE_PATH,
        Why::File => TABLE_FILE,
        Why::Missing => NO_SUCH_FILE,
        Why::Exists => DEVICE_EXISTS,
        Why::Parent => DEVICE_NO_PARENT,
    })
}

/// Reports on standard error which line of the file is refused, and why. Returns the status.
pub fn refuse(reporter: &Reporter<'_>, name: &str, text: &[u8], bad: BadLine) -> Status {
    let BadLine { line, number, why } = bad;
    let rt = reporter.rt;
    let _ = print_bad_manifest(
        &mut Plain::new(Held::new(rt.alloc(), rt.stderr())),
        line,
        number,
    );
    let mut words = reporter.words();
    match reason(why) {
        None => explained::bad_manifest(&mut words, name, text, line, number),
        Some(reason) => explained::bad_line(&mut words, name, line, reason),
    }
    reporter.tell(&words);
    Status::Refused
}

/// A regular file of this name that was read in this state.
fn watched_of(rt: &HostRuntime, name: &str, state: Stamp) -> Result<Watched, AllocError> {
    Ok(Watched {
        name: String::from_str(rt.alloc(), name)?,
        state,
        is_source: false,
    })
}

/// Returns the bytes of the file of this name, and notes a regular file.
pub fn text_of_file(
    rt: &HostRuntime,
    name: &str,
    watched: &mut Vec<Watched>,
) -> Result<Vec<u8>, Stop> {
    let text = match reading::manifest(rt, name) {
        Ok(text) => text,
        Err(e) => return Err(unread(rt.alloc(), name, e)),
    };
    let Text { bytes, file } = text;
    if let Some(state) = file.stamp {
        watched.push(watched_of(rt, name, state)?)?;
    }
    Ok(bytes)
}

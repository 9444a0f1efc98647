//! Prints the program's version, for scripts.
use crate::stop::Stop;
use command_line::VERSION;
use program_streams::Held;
use rom_commands::Status;
use std::io::{self, Write};

/// Prints `romtool VERSION`, by one write.
pub fn run(rt: &HostRuntime) -> Result<Status, Stop> {
    let line = format!(in rt.alloc(); "romtool {VERSION}\n")?;
    let mut out = Held::new(rt.alloc(), io::writer(rt));
    match out.write_all(line.as_bytes()).and_then(|()| out.flush()) {
        Ok(()) => Ok(Status::Done),
        Err(_) => Err(Stop::unwritten()),
    }
}

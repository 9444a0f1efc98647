//! `romtool` builds, checks, lists and serves images of read-only file systems.
//!
//! The subcommands are the rows of `table.rt` in `command_line`. Without one, the example image
//! `hello` is checked and listed.
//!
//! What is printed, answered and written, how a file is replaced, and what the `ok` of a command
//! means, is proved in `rom_commands`, `build_commands`, `image_manifest` and `image_build`; what
//! is read into memory and how streams are used, in `program_streams` and `system_files`; how an
//! image is extracted, in `tree_extract`.
//! The proofs on files are about accounts: lists of the calls that `system_files` and `system_tree`
//! make to the system. The other work with files and directories is only tested.
#![tactic(auto)]

mod aligning;
mod arguments;
mod asked;
mod building;
mod contents;
mod depfile;
mod devices;
mod directories;
mod dump;
mod equal;
mod explained;
mod extracting;
mod extraction;
mod files;
mod in_place;
mod inspect;
mod inventory;
mod limit;
mod needed;
mod origin;
mod output;
mod packing;
mod patterns;
mod placed;
mod placing;
mod program;
mod question;
mod readings;
mod replies;
mod reporter;
mod scan_all;
mod scanning;
mod serving;
mod several;
mod sources;
mod stop;
mod totals;
mod unchanged;
mod unfit;
mod version;
mod warned;
mod watched;
mod words;
mod written;

use std::process::ExitCode;

fn main(rt: HostRuntime) -> ExitCode {
    ExitCode::from(program::run(&rt))
}

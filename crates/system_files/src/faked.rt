//! Whether owners and devices are wrong, since a program that fakes them does not reach this one.
//!
//! fakeroot and pseudo fake owners, modes and devices for the programs in which the dynamic linker
//! loads their library. Their variables are also in the environment of a program that is static.
use memchr::memmem;
use program_streams::read_until;
use std::env::{Env, FillError};
use std::fs::{File, OpenFile};
use std::io;

/// The libraries in the memory of this program.
const LOADED: &str = "/proc/self/maps";

/// The most bytes that are read of their list.
const MOST: u64 = 1 << 24;

/// Whether a variable is in the environment.
fn is_set(rt: &HostRuntime, name: &str) -> bool {
    let mut value = [0; 1];
    !matches!(rt.var(name, &mut value), Err(FillError::NotPresent))
}

/// Whether a variable of the environment is 1.
fn is_one(rt: &HostRuntime, name: &str) -> bool {
    let mut value = [0; 1];
    match rt.var(name, &mut value) {
        Ok(len) => value.get(..len) == Some(b"1".as_slice()),
        Err(_) => false,
    }
}

/// The library that has to be loaded by what the environment says, if one has.
fn faking_library(rt: &HostRuntime) -> Option<&'static [u8]> {
    if is_set(rt, "FAKEROOTKEY") || is_set(rt, "FAKED_MODE") {
        Some(b"libfakeroot")
    } else if is_set(rt, "PSEUDO_PREFIX") && !is_one(rt, "PSEUDO_DISABLED") {
        Some(b"libpseudo")
    } else {
        None
    }
}

/// The list of the libraries in the memory of this program.
fn loaded(rt: &HostRuntime) -> io::Result<Vec<u8>> {
    let mut bytes = Vec::new(rt.alloc());
    read_until(&mut File::open(rt, LOADED)?, &mut bytes, MOST, 0)?;
    Ok(bytes)
}

/// Returns whether fakeroot or pseudo is asked for and is not in this program, so that owners and
/// devices would be wrong.
pub fn is_unfaked(rt: &HostRuntime) -> bool {
    let Some(library) = faking_library(rt) else {
        return false;
    };
    match loaded(rt) {
        Ok(loaded) => memmem::find(&loaded, library).is_none(),
        Err(_) => false,
    }
}

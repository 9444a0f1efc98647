//! How many bytes of an image are read at most.
use command_line::size_named;
use std::env::{Env, FillError};
use std::str;
use system_files::reading::Limit;

/// The option that says it.
const OPTION: &str = "--max-size";

/// The environment variable that says it otherwise.
const VARIABLE: &str = "ROMTOOL_MAX_SIZE";

/// Returns the limit that the words give, or without such words the environment, if one does.
pub fn limit_of(rt: &HostRuntime, most: Option<u64>) -> Option<Limit> {
    if most.is_some() {
        return Some(Limit { most, by: OPTION });
    }
    let mut value = [0; 32];
    let len = match rt.var(VARIABLE, &mut value) {
        Ok(len) => len,
        Err(FillError::NotPresent) => return None,
        Err(FillError::TooLong) => 0,
    };
    let most = match str::from_utf8(value.get(..len).unwrap_or(&[])) {
        Ok(word) => size_named(word),
        Err(_) => None,
    };
    Some(Limit { most, by: VARIABLE })
}

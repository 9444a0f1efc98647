//! The values that clap returns for arguments.
ghost use Rattle.std.specs.Prelude.{◌≡◌, IfOk, Some, codes, map, option_map};
ghost use Rattle.clap.specs.Words.{all_of, first_of, found_of, rows_of};
ghost use Rattle.command_line.specs.Numbers.{IsOptional, IsSize};
ghost use Rattle.command_line.specs.Words.{AreTexts, IsFlag};

use crate::error::{WordsError, Wrong};
use crate::numbers::size_named;
use clap::ArgMatches;
use std::alloc::{AllocError, Global};

/// Returns the value of a name, if it has one.
pub(crate) fn value_of<'a>(values: &ArgMatches<'a>, name: &str) -> Option<&'a str>
    ensures { option_map (λ v. v.now) result ≡ first_of name.now (rows_of (found_of values.now)) }
{
    values.get_str(name)
}

/// Returns the values of a name, if it has any.
pub(crate) fn values_of<'m, 'a>(values: &'m ArgMatches<'a>, name: &str) -> Option<&'m [&'a str]>
    ensures { option_map (λ s. map (λ v. v.now) s.now) result
        ≡ all_of name.now (rows_of (found_of values.now)) }
{
    values.get_strs(name)
}

/// Returns the value of a required name.
pub(crate) fn wanted<'a>(values: &ArgMatches<'a>, name: &str) -> Result<&'a str, WordsError<'a>>
    ensures { IfOk result (λ v. first_of name.now (rows_of (found_of values.now)) ≡ Some v.now) }
{
    match value_of(values, name) {
        Some(value) => Ok(value),
        None => Err(Wrong::Missing.into()),
    }
}

/// Returns whether the option of this name, which has no value, is given.
pub(crate) fn is_given(values: &ArgMatches<'_>, name: &str) -> bool
    ensures { IsFlag (rows_of (found_of values.now)) name.now result }
{
    match value_of(values, name) {
        Some(word) => word == "true",
        None => false,
    }
}

/// Returns the number of bytes that the value of a name says, if it has one.
pub(crate) fn size_of<'a>(
    values: &ArgMatches<'a>,
    name: &str,
) -> Result<Option<u64>, WordsError<'a>>
    ensures { IfOk result (IsOptional IsSize (first_of name.now (rows_of (found_of values.now)))) }
{
    match value_of(values, name) {
        None => Ok(None),
        Some(word) => match size_named(word) {
            Some(size) => Ok(Some(size)),
            None => Err(Wrong::Size(word).into()),
        },
    }
}

/// Returns the most bytes of an image that is read, if they are given.
pub(crate) fn most_of<'a>(values: &ArgMatches<'a>) -> Result<Option<u64>, WordsError<'a>>
    ensures { IfOk result (IsOptional IsSize
        (first_of (codes "max-size") (rows_of (found_of values.now)))) }
{
    size_of(values, "max-size")
}

/// Returns the values of a name, or an empty list if it has none.
pub(crate) fn texts_of<'a>(
    alloc: Global,
    values: &ArgMatches<'a>,
    name: &str,
) -> Result<Vec<&'a str>, AllocError>
    ensures { IfOk result (λ v. AreTexts (rows_of (found_of values.now)) name.now v.items) }
{
    let mut texts = Vec::new(alloc);
    if let Some(found) = values_of(values, name) {
        texts.extend_from_slice(found)?;
    }
    Ok(texts)
}

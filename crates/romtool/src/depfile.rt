//! The file with the rules for make that a build writes.
use crate::stop::{Stop, failed};
use build_commands::Rule;
use rom_fields::{ByteWrite, put};
use sentences::reasons::{NOT_TAKEN, OWN_PART, OWN_RULE, RULE_UNFIT};
use system_files::{Target, is_part_of};

/// Writes a rule to the part that is to get the name of the file.
fn write(rt: &HostRuntime, name: &str, rule: Rule<'_>, target: &mut Target) -> Result<(), Stop> {
    let text = rule.text(rt.alloc())?;
    let Some(mut writer) = target.take_writer() else {
        return Err(failed(rt.alloc(), name, NOT_TAKEN));
    };
    let mut is_failed = false;
    put(&mut writer, &mut is_failed, &text);
    if writer.flush().is_ok() && !is_failed {
        target.put_back(writer);
        return Ok(());
    }
    match writer.error() {
        Some(e) => Err(Stop::of_file(rt.alloc(), name.as_bytes(), e.into())),
        None => Err(failed(rt.alloc(), name, NOT_TAKEN)),
    }
}

/// Refuses a rule that make could not read, and one that has the name of a part of the image, or
/// the reverse: a part is removed or renamed.
///
/// # Errors
///
/// `Failed`, `Memory`.
pub fn check(rt: &HostRuntime, name: &str, rule: Rule<'_>) -> Result<(), Stop> {
    if !rule.is_sayable() {
        return Err(failed(rt.alloc(), name, RULE_UNFIT));
    }
    if is_part_of(rt, name, rule.out) || is_part_of(rt, rule.out, name) {
        return Err(failed(rt.alloc(), name, OWN_PART));
    }
    Ok(())
}

/// Writes a rule to its target, which has this name and is not the image's file. The target gets
/// this name after the image has got its own.
///
/// # Errors
///
/// `Failed`, `Memory`. Then no part is left.
pub fn written(
    rt: &HostRuntime,
    name: &str,
    rule: Rule<'_>,
    mut target: Target,
    image: &Target,
) -> Result<Target, Stop> {
    let result = if target.has_place_of(rt, image) {
        Err(failed(rt.alloc(), name, OWN_RULE))
    } else {
        write(rt, name, rule, &mut target)
    };
    match result {
        Ok(()) => Ok(target),
        Err(stop) => {
            target.abandon(rt);
            Err(stop)
        }
    }
}

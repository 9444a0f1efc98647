//! The rules of an image.
ghost use Rattle.std.specs.Prelude.{◌≡◌, ◌∷◌, [], ◌&&◌, ◌++◌, flat_map, map, string_bytes, IfOk};
ghost use Rattle.std.specs.Prelude.{OnOk, List, ℕ, option_to_list};
ghost use Rattle.std.specs.List.{list_all};
ghost use Rattle.build_commands.specs.Names.{is_sayable as sayable};
ghost use Rattle.build_commands.specs.Rules.{empty_rule, prerequisite, rules};

use crate::rule_name::{add_name, is_sayable};
use std::alloc::{AllocError, Global};

/// The text before each prerequisite.
const BETWEEN: &[u8] = b" \\\n  ";

/// An image, and the files that it depends on.
#[derive(Clone, Copy)]
pub struct Rule<'a> {
    pub out: &'a str,
    /// The manifest's file, if it has one.
    pub manifest: Option<&'a str>,
    pub sources: &'a [&'a str],
    /// The directories in which the sources were found, if they were scanned.
    pub directories: &'a [String],
}

/// Whether make has a spelling of each of these names.
fn are_sayable(names: &[&str]) -> bool
    ensures { result ≡ list_all sayable (map (λ n. n.now) names.now) }
{
    for name in names {
        if !is_sayable(name.as_bytes()) {
            return false;
        }
    }
    true
}

/// Whether make has a spelling of each of these names.
fn are_texts_sayable(names: &[String]) -> bool
    ensures { result ≡ list_all sayable (map string_bytes names.now) }
{
    for name in names {
        if !is_sayable(name.as_bytes()) {
            return false;
        }
    }
    true
}

/// Adds a prerequisite.
fn add_prerequisite(text: &mut Vec<u8>, name: &[u8]) -> Result<(), AllocError>
    ensures { OnOk result (text.new.items ≡ text.old.items ++ prerequisite name.now) }
{
    text.extend_from_slice(BETWEEN)?;
    add_name(text, name, false)
}

/// Adds a rule without prerequisites.
fn add_empty_rule(text: &mut Vec<u8>, name: &[u8]) -> Result<(), AllocError>
    ensures { OnOk result (text.new.items ≡ text.old.items ++ empty_rule name.now) }
{
    text.push(b'\n')?;
    add_name(text, name, true)?;
    text.extend_from_slice(b":\n")
}

/// Adds the manifest's file as a prerequisite, if there is one.
fn add_manifest(text: &mut Vec<u8>, manifest: Option<&str>) -> Result<(), AllocError>
    ensures { OnOk result (text.new.items ≡ text.old.items
        ++ flat_map prerequisite (map (λ m. m.now) (option_to_list manifest.entry))) }
{
    match manifest {
        Some(name) => add_prerequisite(text, name.as_bytes()),
        None => Ok(()),
    }
}

/// Adds names as prerequisites.
fn add_sources(text: &mut Vec<u8>, names: &[&str]) -> Result<(), AllocError>
    ensures { OnOk result (text.new.items
        ≡ text.old.items ++ flat_map prerequisite (map (λ n. n.now) names.now)) }
{
    for name in names {
        add_prerequisite(text, name.as_bytes())?;
    }
    Ok(())
}

/// Adds directories as prerequisites.
fn add_directories(text: &mut Vec<u8>, names: &[String]) -> Result<(), AllocError>
    ensures { OnOk result (text.new.items
        ≡ text.old.items ++ flat_map prerequisite (map string_bytes names.now)) }
{
    for name in names {
        add_prerequisite(text, name.as_bytes())?;
    }
    Ok(())
}

/// Adds a rule without prerequisites for each source.
fn add_source_rules(text: &mut Vec<u8>, names: &[&str]) -> Result<(), AllocError>
    ensures { OnOk result (text.new.items
        ≡ text.old.items ++ flat_map empty_rule (map (λ n. n.now) names.now)) }
{
    for name in names {
        add_empty_rule(text, name.as_bytes())?;
    }
    Ok(())
}

/// Adds a rule without prerequisites for each directory.
fn add_directory_rules(text: &mut Vec<u8>, names: &[String]) -> Result<(), AllocError>
    ensures { OnOk result (text.new.items
        ≡ text.old.items ++ flat_map empty_rule (map string_bytes names.now)) }
{
    for name in names {
        add_empty_rule(text, name.as_bytes())?;
    }
    Ok(())
}

impl Rule<'_> {
    /// Returns whether make has a spelling of each name.
    pub fn is_sayable(&self) -> bool
        ensures { result ≡ (sayable self.now.out.now
            && (list_all sayable (map (λ m. m.now) (option_to_list self.now.manifest))
            && (list_all sayable (map (λ s. s.now) self.now.sources.now)
            && list_all sayable (map string_bytes self.now.directories.now)))) }
    {
        let is_manifest_sayable = match self.manifest {
            Some(name) => is_sayable(name.as_bytes()),
            None => true,
        };
        is_sayable(self.out.as_bytes())
            && is_manifest_sayable
            && are_sayable(self.sources)
            && are_texts_sayable(self.directories)
    }

    /// Returns the text of the rules.
    ///
    /// # Errors
    ///
    /// `AllocError` if memory was refused.
    pub fn text(&self, alloc: Global) -> Result<Vec<u8>, AllocError>
        ensures { IfOk result (λ t. t.items ≡ rules self.now.out.now
            (map (λ m. m.now) (option_to_list self.now.manifest))
            (map (λ s. s.now) self.now.sources.now)
            (map string_bytes self.now.directories.now)) }
    {
        let mut text = Vec::new(alloc);
        add_name(&mut text, self.out.as_bytes(), true)?;
        text.push(b':')?;
        add_manifest(&mut text, self.manifest)?;
        add_sources(&mut text, self.sources)?;
        add_directories(&mut text, self.directories)?;
        text.push(b'\n')?;
        add_source_rules(&mut text, self.sources)?;
        add_directory_rules(&mut text, self.directories)?;
        Ok(text)
    }
}

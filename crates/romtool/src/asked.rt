//! What a build is asked for.
ghost use Rattle.std.specs.Prelude.{◌≡◌, option_map};
ghost use Rattle.romtool.specs.Filled.{filled};

use build_commands::{Partition, Wanted};
use command_line::Build;

/// A build: what is asked for of the image, and its files.
#[derive(Clone, Copy)]
pub struct Asked<'a> {
    pub wanted: Wanted<'a>,
    /// The name of the manifest's file.
    pub manifest: &'a str,
    pub out: &'a str,
    /// Whether a program that needs a file which the image would not have is refused.
    pub needs: bool,
    /// Whether a source that is a symbolic link is refused.
    pub no_follow: bool,
    /// The file for the rule for make, if one is asked for.
    pub depfile: Option<&'a str>,
}

impl<'a> Asked<'a> {
    /// Returns what the words of a build ask for.
    pub fn by(build: Build<'a>) -> Asked<'a>
        ensures format { result.wanted.format ≡ build.entry.format }
        ensures sources { result.wanted.sources ≡ build.entry.sources }
        ensures strict { result.wanted.strict ≡ build.entry.strict }
        ensures xip { result.wanted.xip ≡ build.entry.xip }
        ensures needs { result.needs ≡ build.entry.needs }
        ensures max_size { result.wanted.max_size ≡ build.entry.max_size }
        ensures partition { result.wanted.partition ≡ option_map filled build.entry.padding }
    {
        Asked {
            wanted: Wanted {
                format: build.format,
                sources: build.sources,
                strict: build.strict,
                xip: build.xip,
                max_size: build.max_size,
                partition: build.padding.map(|padding| Partition {
                    size: padding.size,
                    fill: padding.fill,
                }),
            },
            manifest: build.manifest,
            out: build.out,
            needs: build.needs,
            no_follow: build.no_follow,
            depfile: build.depfile,
        }
    }
}

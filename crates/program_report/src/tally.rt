//! The totals of a report.
ghost use Rattle.std.specs.Prelude.{◌≡◌};
ghost use Rattle.program_report.specs.Lines.{noted, noted_if, tally_warns};

use crate::finding::{Found, Verdict, is_shared};

/// How many programs were found, and their pages. A number that does not fit is 2^64 - 1.
#[derive(Clone, Copy, Debug, PartialEq, Eq)]
pub struct Tally {
    /// The number of programs and libraries.
    pub programs: u64,
    /// The pages that are in place.
    pub in_place: u64,
    /// The pages that are copied.
    pub copied: u64,
    /// The number of programs of which nothing is in place.
    pub not: u64,
    /// The number of programs whose last page has other data as well.
    pub shared: u64,
}

impl Tally {
    /// Nothing was found yet.
    pub(crate) const NONE: Tally = Tally {
        programs: 0,
        in_place: 0,
        copied: 0,
        not: 0,
        shared: 0,
    };

    /// Returns the totals with one program more.
    pub(crate) fn noted(&self, found: &Found) -> Tally
        ensures { result ≡ noted self.now found.now }
    {
        let programs = self.programs.saturating_add(1);
        match found.verdict {
            Verdict::InPlace(pages) => Tally {
                programs,
                in_place: self.in_place.saturating_add(pages.in_place),
                copied: self.copied.saturating_add(pages.copied),
                not: self.not,
                shared: self.shared.saturating_add(u64::from(is_shared(found))),
            },
            Verdict::Not { pages, .. } => Tally {
                programs,
                in_place: self.in_place,
                copied: self.copied.saturating_add(pages),
                not: self.not.saturating_add(1),
                shared: self.shared,
            },
        }
    }

    /// Returns the totals with one program more, if one was found.
    pub(crate) fn noted_if(&self, found: Option<Found>) -> Tally
        ensures { result ≡ noted_if self.now found }
    {
        match found {
            Some(found) => self.noted(&found),
            None => *self,
        }
    }

    /// Returns whether a program is not, or not wholly, executed in place.
    pub(crate) fn warns(&self) -> bool
        ensures { result ≡ tally_warns self.now }
    {
        self.not > 0 || self.shared > 0
    }
}

// How many files there are of each finding.
ghost use Rattle.std.specs.Prelude.{◌≡◌, ◌<◌, ◌^◌, ◌-◌, [], Some};
ghost use Rattle.volume_compare.specs.CompareText.{AreAtMost, totals_of, totals_text, totals_with};

use crate::finding::{Finding, Side};
use std::fmt;

/// How many files there are of each finding.
#[derive(Clone, Copy)]
pub struct Totals {
    /// Whether nothing is found but files that are the same.
    pub equal: bool,
    pub same: u64,
    pub body: u64,
    pub entry: u64,
    pub only_first: u64,
    pub only_second: u64,
    pub unreadable: u64,
}

impl Totals {
    /// Those of no files.
    pub fn none() -> Totals
        ensures { result ≡ totals_of [] }
    {
        Totals {
            equal: true,
            same: 0,
            body: 0,
            entry: 0,
            only_first: 0,
            only_second: 0,
            unreadable: 0,
        }
    }

    /// Counts one more.
    pub fn add(&mut self, finding: Finding)
        requires { AreAtMost self.old (2 ^ 64 - 2) }
        ensures { self.new ≡ totals_with self.old finding }
    {
        self.equal = self.equal && finding == Finding::Same;
        match finding {
            Finding::Same => self.same += 1,
            Finding::Body => self.body += 1,
            Finding::Entry => self.entry += 1,
            Finding::Only(Side::First) => self.only_first += 1,
            Finding::Only(Side::Second) => self.only_second += 1,
            Finding::Unreadable(_) => self.unreadable += 1,
        }
    }
}

impl fmt::Display for Totals {
    ghost output = { λ t. Some (totals_text t) };

    fn fmt<W: fmt::Write>(&self, f: &mut fmt::Formatter<W>) -> fmt::Result {
        let Totals {
            same,
            body,
            entry,
            ..
        } = self;
        if self.equal {
            return write!(f, "EQUAL files {same}");
        }
        let only_first = self.only_first;
        let only_second = self.only_second;
        let unreadable = self.unreadable;
        write!(f, "DIFFERENT same {same} body {body} entry {entry}")?;
        write!(
            f,
            " only1 {only_first} only2 {only_second} unreadable {unreadable}"
        )
    }
}

// What is found of a file of two volumes.
ghost use Rattle.std.specs.Prelude.{◌≡◌, length};
ghost use Rattle.volume_compare.specs.Contents.{IsJudged, content_view};
ghost use Rattle.volume_compare.specs.declared.finding.Finding.TheVariants as findings;
ghost use Rattle.volume_compare.specs.declared.finding.Side.TheVariants as sides;

use crate::content::{Content, judge};

/// One of two volumes.
#[derive(Clone, Copy, Debug, PartialEq, Eq)]
pub enum Side {
    First,
    Second,
}

/// What is found of a file, or of a file and its partner.
#[derive(Clone, Copy, PartialEq, Eq)]
pub enum Finding {
    /// The file of this volume can't be read.
    Unreadable(Side),
    /// It is one of this volume, and has no partner.
    Only(Side),
    /// Their texts differ.
    Body,
    /// Their texts are the same, and the rest of their contents differs.
    Entry,
    /// Their contents are the same.
    Same,
}

/// What is found, and how many bytes of the texts of both volumes were read for it.
#[derive(Clone, Copy)]
pub struct Found {
    pub finding: Finding,
    pub first_bytes: u64,
    pub second_bytes: u64,
}

impl Found {
    /// A file can't be read; so many bytes of the first volume were.
    pub fn unreadable(side: Side, first_bytes: u64) -> Found
        ensures { result ≡ record { finding = findings.Unreadable side; first_bytes = first_bytes; second_bytes = 0 } }
    {
        Found {
            finding: Finding::Unreadable(side),
            first_bytes,
            second_bytes: 0,
        }
    }

    /// A file of the first volume has no partner.
    pub fn only_first(first_bytes: u64) -> Found
        ensures { result ≡ record {
          finding = findings.Only sides.First;
          first_bytes = first_bytes;
          second_bytes = 0;
        } }
    {
        Found {
            finding: Finding::Only(Side::First),
            first_bytes,
            second_bytes: 0,
        }
    }

    /// A file of the second volume has no partner.
    pub fn only_second(second_bytes: u64) -> Found
        ensures { result ≡ record {
          finding = findings.Only sides.Second;
          first_bytes = 0;
          second_bytes = second_bytes;
        } }
    {
        Found {
            finding: Finding::Only(Side::Second),
            first_bytes: 0,
            second_bytes,
        }
    }

    /// A file and its partner have these contents.
    pub fn both(content: &Content, other: &Content) -> Found
        ensures judged { IsJudged (content_view content.now) (content_view other.now) result.finding }
        ensures first { result.first_bytes ≡ length content.now.text.items }
        ensures second { result.second_bytes ≡ length other.now.text.items }
    {
        Found {
            finding: judge(content, other),
            first_bytes: content.bytes(),
            second_bytes: other.bytes(),
        }
    }
}

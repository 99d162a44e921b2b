// What is known of the file of an entry, and how it is kept.
ghost use Rattle.std.specs.Prelude.{◌≡◌};
ghost use Rattle.std.specs.Int.{w64, from_le_bytes, to_le_bytes};
ghost use Rattle.file_listings.specs.Known.{digest_kept};

use a2_device::Part;
use row_text::{Digest, Digested};

/// What is known of a file beside its entry.
#[derive(Clone, Copy)]
pub struct Facts {
    /// The address of a binary file of DOS 3.3, where it was read.
    pub address: Option<u16>,
    /// The digest of its contents, where digests are told.
    pub digest: Digested,
}

/// Whether the parts of files are told, and those of a file.
#[derive(Clone, Copy)]
pub enum KnownParts<'a> {
    /// They are not told.
    Untold,
    /// They are, and those of this file are not known.
    Missing,
    /// Those of this file, in order.
    Of(&'a [Part]),
}

/// What is known of a file: the facts, and its parts.
#[derive(Clone, Copy)]
pub struct KnownFile<'a> {
    pub facts: Facts,
    pub parts: KnownParts<'a>,
}

impl KnownFile<'_> {
    /// Nothing is known.
    pub const NONE: KnownFile<'static> = KnownFile {
        facts: Facts {
            address: None,
            digest: Digested::Untold,
        },
        parts: KnownParts::Untold,
    };
}

// A digest as it is kept: there are many of them, so its count takes no room to be aligned.
#[derive(Clone, Copy)]
pub(crate) enum KeptDigest {
    Untold,
    Missing,
    Of { count: [u8; 8], sha256: [u8; 32] },
}

// What is kept of a file.
#[derive(Clone, Copy)]
pub(crate) struct Kept {
    pub address: Option<u16>,
    pub digest: KeptDigest,
    // Whether its parts are known.
    pub placed: bool,
}

// The count of a digest is read as it was kept. It does nothing, and is called for this clause.
fn count_stays(count: u64)
    ensures { from_le_bytes w64 (to_le_bytes w64 count) ≡ count }
{}

impl KeptDigest {
    // A digest to be kept.
    fn of(digest: Digested) -> KeptDigest
        ensures { digest_kept result ≡ digest }
    {
        match digest {
            Digested::Untold => KeptDigest::Untold,
            Digested::Missing => KeptDigest::Missing,
            Digested::Of(digest) => {
                count_stays(digest.count);
                let count = digest.count.to_le_bytes();
                let sha256 = digest.sha256;
                KeptDigest::Of { count, sha256 }
            }
        }
    }

    // The digest that is kept.
    fn told(self) -> Digested
        ensures { result ≡ digest_kept self }
    {
        match self {
            KeptDigest::Untold => Digested::Untold,
            KeptDigest::Missing => Digested::Missing,
            KeptDigest::Of { count, sha256 } => Digested::Of(Digest {
                count: u64::from_le_bytes(count),
                sha256,
            }),
        }
    }
}

impl Kept {
    // What is to be kept of a file.
    pub(crate) fn of(facts: Facts, placed: bool) -> Kept
        ensures address { result.address ≡ facts.address }
        ensures digest { digest_kept result.digest ≡ facts.digest }
        ensures placed { result.placed ≡ placed }
    {
        Kept {
            address: facts.address,
            digest: KeptDigest::of(facts.digest),
            placed,
        }
    }

    // The facts that are kept.
    pub(crate) fn facts(self) -> Facts
        ensures { result ≡ record { address = self.address; digest = digest_kept self.digest } }
    {
        Facts {
            address: self.address,
            digest: self.digest.told(),
        }
    }
}

// A writer that hands all on, and keeps a copy of the front.
ghost use Rattle.std.specs.Prelude.{◌≡◌, [], Some, IfOk, OnErr, option_map, take};
ghost use Rattle.std.specs.Io.{WritesAtMost};
ghost use Rattle.std.specs.Io.KnownBytes.{Keeps, WriteAppends};
ghost use Rattle.explanations.specs.Overheard.{Hears};

use std::alloc::Global;
use std::io::{self, Write};

/// The most bytes that are kept of what was told, some 300,000 lines. The listing of a hostile volume may be far
/// longer.
const MOST_HEARD: usize = 8_388_608;

/// A writer that hands all on to another, and keeps a copy of what that one took, of its first 8,388,608 bytes at the
/// most.
#[derive(Drop)]
pub struct Overheard<W> {
    pub inner: W,
    /// What the inner writer took, as far as it is kept; `None` from where there was no memory for it.
    pub told: Option<Vec<u8>>,
}

impl<W: Write> Overheard<W> {
    /// A writer that hands all on to this one, and has heard nothing yet.
    pub fn new(alloc: Global, inner: W) -> Overheard<W>
        ensures inner { result.inner ≡ inner }
        ensures told { option_map (λ v. v.items) result.told ≡ Some [] }
    {
        Overheard {
            inner,
            told: Some(Vec::new(alloc)),
        }
    }
}

// What was heard, with these bytes behind it as far as there is room for them, if there is memory for them.
fn heard(told: Option<Vec<u8>>, bytes: &[u8]) -> Option<Vec<u8>>
    ensures { Hears (option_map (λ v. v.items) told) (option_map (λ v. v.items) result) bytes.now }
{
    let mut told = told?;
    let room = MOST_HEARD.saturating_sub(told.len());
    told.extend_from_slice(&bytes[..room.min(bytes.len())])
        .ok()?;
    Some(told)
}

impl<W: Write> Write for Overheard<W> {
    ghost contents = { λ o. W.contents o.inner };

    fn write(&mut self, buf: &[u8]) -> io::Result<usize>
        ensures bound { WritesAtMost result buf.now }
        ensures bytes { WriteAppends (W.contents self.old.inner) (W.contents self.new.inner) result buf.now }
        ensures told { IfOk result (λ count. Hears (option_map (λ v. v.items) self.old.told)
            (option_map (λ v. v.items) self.new.told) (take count buf.now)) }
        ensures untold { OnErr result (self.new.told ≡ self.old.told) }
    {
        let count = self.inner.write(buf)?;
        self.told = heard(self.told.take(), &buf[..count]);
        Ok(count)
    }

    fn flush(&mut self) -> io::Result<()>
        ensures bytes { Keeps (W.contents self.old.inner) (W.contents self.new.inner) }
        ensures told { self.new.told ≡ self.old.told }
    {
        self.inner.flush()
    }
}

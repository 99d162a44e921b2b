//! A certificate from its text.

ghost use Rattle.std.specs.Prelude.{◌≡◌, ◌==◌, ◌+◌, ◌-◌, ◌≤◌, length, take, IfOk, IfErr, count_by};
ghost use Rattle.ring_cert.specs.Certificates.{HasText, certificate_text};
ghost use Rattle.ring_cert.specs.Faults.{IsFaultOfText};
ghost use Rattle.ring_cert.specs.Reading.{StopsReading};
ghost use Rattle.ring_cert.specs.Told.{told};

use crate::certificate::{Cert, CertError};
use crate::sections::{Stop, claim_at, layout_at, plan_at};
use std::alloc::Allocator;

/// The certificate of which these bytes are the text. `Syntax` exactly where they are the text of none, with the number
/// of the first line that cannot stand there.
pub fn read<A: Allocator + Copy>(alloc: A, bytes: &[u8]) -> Result<Cert<A>, CertError>
    ensures found { IfOk result (λ cert. bytes.now ≡ certificate_text (told cert)) }
    ensures fits { IfOk result (λ cert. HasText (told cert)) }
    ensures fault { IfErr result (IsFaultOfText bytes.now) }
{
    match certificate_at(alloc, bytes) {
        Ok(cert) => Ok(cert),
        Err(Stop::Fault(rest)) => Err(CertError::Syntax(line_number(bytes, rest.len()))),
        Err(Stop::OutOfMemory) => Err(CertError::Memory),
    }
}

/// The certificate, or the rest of the text from its first line on that cannot stand.
fn certificate_at<A: Allocator + Copy>(alloc: A, bytes: &[u8]) -> Result<Cert<A>, Stop<'_>>
    ensures found { IfOk result (λ cert. bytes.now ≡ certificate_text (told cert)) }
    ensures fits { IfOk result (λ cert. HasText (told cert)) }
    ensures stop { IfErr result (StopsReading bytes.now) }
{
    let (at, places, claimed) = layout_at(alloc, bytes)?;
    let (off, rings, bound, planned) = claim_at(alloc, claimed)?;
    let (moves, rest) = plan_at(alloc, planned)?;
    if !rest.is_empty() {
        return Err(Stop::Fault(rest));
    }
    Ok(Cert {
        at,
        places,
        off,
        rings,
        bound,
        moves,
    })
}

/// The number, from 1, of the line with which the last `left` bytes begin.
fn line_number(bytes: &[u8], left: usize) -> usize
    requires { left ≤ length bytes.now }
    ensures { result ≡ count_by (λ byte. byte == 10) (take (length bytes.now - left) bytes.now) + 1 }
{
    let before = &bytes[..bytes.len() - left];
    before.iter().filter(|byte| **byte == b'\n').count() + 1
}

// The job that tells whether a certificate shows that no plan is shorter.
ghost use Rattle.std.specs.Prelude.{◌≡◌, Some, IsTrue};
ghost use Rattle.a2_device.specs.Device.{OnlyReads};
ghost use Rattle.shop_volumes.specs.TellingFailures.{FailsForLack, tells_device};
ghost use Rattle.shop_reads.specs.VerifyReply.{IsVerdict, IsVerified, TellsFault, TellsNoText, fault_text};
ghost use Rattle.vol_format.specs.Fits.{Fits};

use a2_device::Device;
use ring_cert::{CertError, CertFault, read, verify};
use shop_replies::{Failure, Refusal, Reply};
use shop_volumes::unopened_reply;
use std::alloc::Global;
use std::fmt;
use vol_format::Format;
use vol_layout::Layout;
use vol_mover::{Opening, Options};

/// The most bytes of a certificate's text that is read.
pub const MOST_CERTIFICATE: usize = 16_777_216;

// The name of a fault, with its number where it has one.
#[derive(Clone, Copy)]
struct FaultName(CertFault);

impl fmt::Display for FaultName {
    ghost output = { λ n. Some (fault_text n.0) };

    fn fmt<W: fmt::Write>(&self, f: &mut fmt::Formatter<W>) -> fmt::Result {
        match self.0 {
            CertFault::OtherLayout => write!(f, "OtherLayout"),
            CertFault::NotMisplaced(part) => write!(f, "NotMisplaced {part}"),
            CertFault::Repeated(part) => write!(f, "Repeated {part}"),
            CertFault::NotARing(ring) => write!(f, "NotARing {ring}"),
            CertFault::IllegalMove(step) => write!(f, "IllegalMove {step}"),
            CertFault::NotAtTarget => write!(f, "NotAtTarget"),
            CertFault::Sum => write!(f, "Sum"),
            CertFault::Memory => write!(f, "Memory"),
        }
    }
}

// The reply to a certificate that is not good for the layout.
fn fault_reply(alloc: Global, fault: CertFault) -> Reply
    ensures { TellsFault fault result }
{
    if fault == CertFault::Memory {
        return Reply::failed(Failure::Memory);
    }
    let name = FaultName(fault);
    match format!(in alloc; "REFUSED {name}\n") {
        Ok(text) => Reply::wrong(text),
        Err(_) => Reply::failed(Failure::Memory),
    }
}

// The reply to bytes that are no certificate's text.
fn no_text_reply(alloc: Global, error: CertError) -> Reply
    ensures { TellsNoText error result }
{
    let CertError::Syntax(line) = error else {
        return Reply::failed(Failure::Memory);
    };
    match format!(in alloc; "REFUSED Syntax {line}\n") {
        Ok(text) => Reply::wrong(text),
        Err(_) => Reply::failed(Failure::Memory),
    }
}

/// The reply to a certificate's text, for a layout.
pub fn verdict_reply(alloc: Global, layout: &Layout, text: &[u8]) -> Reply
    ensures { IsVerdict layout.now text.now result }
{
    let cert = match read(alloc, text) {
        Ok(cert) => cert,
        Err(error) => return no_text_reply(alloc, error),
    };
    if let Err(fault) = verify(alloc, layout, &cert) {
        return fault_reply(alloc, fault);
    }
    let bound = cert.bound;
    match format!(in alloc; "OPTIMAL {bound}\n") {
        Ok(text) => Reply::done(text),
        Err(_) => Reply::failed(Failure::Memory),
    }
}

/// Whether a text is a certificate that shows that no plan for the volume's layout is shorter, or what is wrong with
/// it.
pub fn verify_reply<D: Device, F: Format>(
    alloc: Global,
    device: &mut D,
    format: &F,
    reclaim: bool,
    text: &[u8],
) -> Reply
    requires fits { Fits (F.meaning format.now) (D.state device.old) }
    ensures reads { OnlyReads (tells_device result) (D.state device.old) (D.state device.new) }
    ensures told { IsTrue (D.state device.old).honest → FailsForLack (D.state device.old) result
        → IsVerified reclaim text.now (F.meaning format.now) (D.state device.old) result }
{
    if text.len() > MOST_CERTIFICATE {
        return Reply::refused(Refusal::InputTooLong);
    }
    match Opening::read(alloc, device, format, Options { reclaim }) {
        Ok(opening) => verdict_reply(alloc, &opening.layout, text),
        Err(error) => unopened_reply(alloc, &error),
    }
}

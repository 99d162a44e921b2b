// How a job with output files ends.
ghost use Rattle.std.specs.Prelude.{
  ◌≡◌,
  ◌≢◌,
  ◌⊎◌,
  ℕ,
  List,
  IfErr,
  IfSome,
  IsErrAnd,
  IsSome,
  IsTrue,
  None,
  OnOk,
};
ghost use Rattle.std.specs.Io.KnownBytes.{Keeps};
ghost use Rattle.shop_replies.specs.Reply.{certificate_in};
ghost use Rattle.shop_outputs.specs.Endings.{
  IsCertificateUntold,
  IsEnding,
  IsImageUntold,
  IsOffDisk,
  IsOutOfMemory,
  IsOutOfPlace,
  IsReplyEnding,
  IsUntold,
  IsToldEnding,
  IsUnflushed,
};
ghost use Rattle.shop_host.specs.Runs.{IsRun};
ghost use Rattle.shop_outputs.specs.Asides.{destination};
ghost use Rattle.shop_outputs.specs.Protected.{IsKept};
ghost use Rattle.shop_outputs.specs.Puts.{
  AreApart,
  AreBothPlaced,
  ArePrepared,
  IsHeld,
  IsPut,
  IsCertificateHanded,
  IsImageHanded,
  IsReady,
  IsReplySettled,
  IsSettled,
  image_bytes,
  may_end,
  may_prepare_both,
};
ghost use Rattle.shop_outputs.specs.Written.{IsFlushed, IsStraight, IsUntouched, failure_of};

use crate::ending::{Ending, Unwritten};
use crate::output::Output;
use shop_host::Host;
use shop_replies::{Failure, Reply, written};
use std::io::{ErrorKind, Write};

/// Ends a job by its reply: hands the image that it has to a file, and its certificate to another or none, and settles
/// both. Where no file is asked for, the reply is told. A text that finds no room in memory is not told in part. A file
/// that no one may write is not replaced by an image, and nothing is told then.
pub fn end_by<H: Host, T: Write>(
    host: &mut H,
    reply: Reply,
    mut out: Output<'_, H>,
    certificate: Output<'_, H>,
    text: &mut T,
) -> Ending
    ensures ending { IsReplyEnding reply result (T.contents text.old) (T.contents text.new) }
    ensures untold { IsUntold result (T.contents text.old) (T.contents text.new) }
    ensures protected { IsKept out.entry → IsSome reply.image
        → IsUnflushed ErrorKind.PermissionDenied Unwritten.Image result (T.contents text.old) (T.contents text.new)
        ⊎ IsOutOfMemory result (T.contents text.old) (T.contents text.new) }
    ensures straight { IsStraight out.entry → IsImageUntold result (T.contents text.old) (T.contents text.new) }
    ensures straight_certificate { IsStraight certificate.entry
        → IsCertificateUntold result (T.contents text.old) (T.contents text.new) }
    ensures files { IsTrue (H.state host.old).honest → IsUntouched out.entry → IsUntouched certificate.entry
        → AreApart (H.state host.old).leads (destination out.entry) (destination certificate.entry)
        → IsReplySettled reply (destination out.entry) (destination certificate.entry) result
        (H.state host.old) (H.state host.new) }
{
    if let Output::Nothing = out {
        discard_both(host, out, certificate);
        return Ending::written(reply.tell(text));
    }
    let certificate = hand_certificate(host, &reply, certificate);
    let Reply {
        status,
        told,
        image,
    } = reply;
    match told.text(host.alloc()) {
        Ok(told) => {
            hand_image(host, image, &mut out);
            settle(
                host,
                out,
                certificate,
                status.number(),
                told.as_slice(),
                text,
            )
        }
        Err(_) => {
            discard_both(host, out, certificate);
            Ending::written(Reply::failed(Failure::Memory).tell(text))
        }
    }
}

// Puts the certificate of a reply into its output. Where the reply has none, no file takes a place.
fn hand_certificate<'a, H: Host>(
    host: &mut H,
    reply: &Reply,
    mut certificate: Output<'a, H>,
) -> Output<'a, H>
    ensures straight { IsStraight certificate.entry → IsStraight result }
    ensures handed { IsTrue (H.state host.old).honest → IsUntouched certificate.entry
        → IsCertificateHanded H.place (certificate_in reply.now.told) certificate.entry result
        (H.state host.old) (H.state host.new) }
{
    if let Some(bytes) = reply.certificate() {
        certificate.put(host, bytes);
        return certificate;
    }
    match certificate {
        Output::Aside(file) => {
            file.discard(host);
            Output::Nothing
        }
        Output::Held(file) => Output::Held(file),
        Output::Nothing => Output::Nothing,
    }
}

// Hands the image of a reply to its output, if there is one. An empty file is made too; where it can't be, the settling
// tells why.
fn hand_image<H: Host>(host: &mut H, image: Option<Vec<u8>>, out: &mut Output<'_, H>)
    ensures protected { IsKept out.old → IsSome image → failure_of out.new ≡ Some ErrorKind.PermissionDenied }
    ensures straight { IsStraight out.old → IsStraight out.new }
    ensures handed { IsTrue (H.state host.old).honest → IsUntouched out.old
        → IsImageHanded H.place (image_bytes image) out.old out.new
        (H.state host.old) (H.state host.new) }
{
    let Some(image) = image else {
        return;
    };
    let _ = out.open(host);
    out.put(host, image.as_slice());
}

/// Ends a job whose image was handed to a file and its certificate to another or none: both are put onto the disk, or
/// written where a path is written straight, then the text is told, and then they take their places, or follow the text
/// on standard output. Where one of these fails, what stood at the places stands, and the status is 4; of an image that
/// is not on the disk, nothing is told. Where no image was handed out, no certificate is kept.
///
/// The certificate takes its place first. It tells the layout of the image that stood there before, so where the image
/// can't take its own place then, it is good for the one that stands.
pub fn settle<H: Host, T: Write>(
    host: &mut H,
    mut out: Output<'_, H>,
    mut certificate: Output<'_, H>,
    status: u8,
    told: &[u8],
    text: &mut T,
) -> Ending
    ensures ending { IsEnding status told.now result (T.contents text.old) (T.contents text.new) }
    ensures untold { IsUntold result (T.contents text.old) (T.contents text.new) }
    ensures no_image { IsUntouched out.entry
        → IsToldEnding status told.now result (T.contents text.old) (T.contents text.new) }
    ensures failed { IfSome (failure_of out.entry) (λ kind.
        IsUnflushed kind Unwritten.Image result (T.contents text.old) (T.contents text.new)) }
    ensures straight { IsStraight out.entry → IsImageUntold result (T.contents text.old) (T.contents text.new) }
    ensures straight_certificate { IsStraight certificate.entry
        → IsCertificateUntold result (T.contents text.old) (T.contents text.new) }
    ensures files { IsTrue (H.state host.old).honest → (image said : List ℕ)
        → IsPut H.place out.entry image (H.state host.old).files
        → IsPut H.place certificate.entry said (H.state host.old).files
        → AreApart (H.state host.old).leads (destination out.entry) (destination certificate.entry)
        → IsRun (may_end (H.state host.old).leads (destination out.entry) image (destination certificate.entry) said)
        (H.state host.old) (H.state host.new)
        × IsSettled out.entry image certificate.entry said status result
        (H.state host.old).files (H.state host.new).files }
    ensures no_file { IsTrue (H.state host.old).honest → IsUntouched out.entry
        → IsHeld H.place out.entry → IsHeld H.place certificate.entry
        → IsRun (may_prepare_both (H.state host.old).leads (destination out.entry) (destination certificate.entry))
        (H.state host.old) (H.state host.new) }
{
    if out.is_empty() {
        discard_both(host, out, certificate);
        return tell(status, told, text);
    }
    if let Err((kind, unwritten)) = flush_both(host, &mut out, &mut certificate) {
        discard_both(host, out, certificate);
        return tell_unflushed(kind, unwritten, text);
    }
    if written(told, status, text) != status {
        discard_both(host, out, certificate);
        return Ending::stopped(Unwritten::Text);
    }
    match take_both_places(host, out, certificate) {
        Ok(()) => Ending::written(status),
        Err(unwritten) => Ending::stopped(unwritten),
    }
}

// Puts both files onto the disk, the certificate first, or answers which of them can't be, and why.
fn flush_both<H: Host>(
    host: &mut H,
    out: &mut Output<'_, H>,
    certificate: &mut Output<'_, H>,
) -> Result<(), (ErrorKind, Unwritten)>
    ensures unwritten { IfErr result (λ why. IsOffDisk why.1) }
    ensures failed { IfSome (failure_of out.old) (λ kind.
        IsErrAnd result (λ why. (why.0 ≡ kind) × (why.1 ≡ Unwritten.Image))) }
    ensures done { OnOk result (IsFlushed out.old out.new × IsFlushed certificate.old certificate.new) }
    ensures destinations { (destination out.new ≡ destination out.old)
        × (destination certificate.new ≡ destination certificate.old) }
    ensures held { IsTrue (H.state host.old).honest → (image said : List ℕ)
        → IsPut H.place out.old image (H.state host.old).files
        → IsPut H.place certificate.old said (H.state host.old).files
        → AreApart (H.state host.old).leads (destination out.old) (destination certificate.old)
        → ArePrepared H.place out.old out.new image certificate.old certificate.new said result
        (H.state host.old) (H.state host.new) }
{
    if let Some(kind) = out.failure() {
        return Err((kind, Unwritten::Image));
    }
    if let Err(error) = certificate.flush_to_disk(host) {
        return Err((error.kind(), Unwritten::Certificate));
    }
    match out.flush_to_disk(host) {
        Ok(()) => Ok(()),
        Err(error) => Err((error.kind(), Unwritten::Image)),
    }
}

// Ends a job one of whose files could not be put onto the disk, for such a reason: want of memory is told, and of any
// other nothing.
fn tell_unflushed<T: Write>(kind: ErrorKind, unwritten: Unwritten, text: &mut T) -> Ending
    ensures { IsUnflushed kind unwritten result (T.contents text.old) (T.contents text.new) }
{
    if kind == ErrorKind::OutOfMemory {
        return Ending::written(Reply::failed(Failure::Memory).tell(text));
    }
    Ending::stopped(unwritten)
}

// Puts both files into their places, or answers which of them can't be.
fn take_both_places<H: Host>(
    host: &mut H,
    out: Output<'_, H>,
    certificate: Output<'_, H>,
) -> Result<(), Unwritten>
    ensures failed { IfErr result IsOutOfPlace }
    ensures image { IsUntouched out.entry → IfErr result (λ unwritten. unwritten ≡ Unwritten.Certificate) }
    ensures certificate { IsUntouched certificate.entry → IfErr result (λ unwritten.
        unwritten ≢ Unwritten.Certificate) }
    ensures placed { IsTrue (H.state host.old).honest → (image said : List ℕ)
        → IsReady H.place out.entry image (H.state host.old).files
        → IsReady H.place certificate.entry said (H.state host.old).files
        → AreApart (H.state host.old).leads (destination out.entry) (destination certificate.entry)
        → AreBothPlaced out.entry image certificate.entry said result (H.state host.old) (H.state host.new) }
{
    let is_alone = certificate.is_empty();
    if certificate.take_place(host).is_err() {
        out.discard(host);
        return Err(Unwritten::Certificate);
    }
    match out.take_place(host) {
        Ok(()) => Ok(()),
        Err(_) if is_alone => Err(Unwritten::ImageAfterText),
        Err(_) => Err(Unwritten::ImageAfterCertificate),
    }
}

// Removes what was written aside of both files.
fn discard_both<H: Host>(host: &mut H, out: Output<'_, H>, certificate: Output<'_, H>)
    ensures { IsTrue (H.state host.old).honest → IsHeld H.place out.entry → IsHeld H.place certificate.entry
        → IsRun (may_prepare_both (H.state host.old).leads (destination out.entry) (destination certificate.entry))
        (H.state host.old) (H.state host.new) }
{
    out.discard(host);
    certificate.discard(host);
}

// Tells the text of a job that handed no image out.
fn tell<T: Write>(status: u8, told: &[u8], text: &mut T) -> Ending
    ensures { IsToldEnding status told.now result (T.contents text.old) (T.contents text.new) }
{
    if written(told, status, text) == status {
        Ending::written(status)
    } else {
        Ending::stopped(Unwritten::Text)
    }
}

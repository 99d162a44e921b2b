// Jobs, from an image's reader to the text and the output file.
ghost use Rattle.std.specs.Prelude.{
  ◌≡◌,
  ◌⊎◌,
  ◌↔◌,
  ◌+◌,
  take,
  IfOk,
  IfErr,
  IfSome,
  IsTrue,
};
ghost use Rattle.shop_jobs.specs.Input.{IsRead, IsReadBeside, beside_view, input_view, reading_view, source_view};
ghost use Rattle.shop_jobs.specs.Job.{
  ChangeOf,
  LookAt,
  ask_view,
  change_view,
  job_view,
  look_view,
  volume_ask_view,
  wrapping_view,
};
ghost use Rattle.shop_replies.specs.ContainerReply.{IsWrapReply};
ghost use Rattle.shop_replies.specs.ConvertReply.{IsConvertReply};
ghost use Rattle.shop_replies.specs.Reply.{held};
ghost use Rattle.shop_replies.specs.Reading.{IsReadFailure};
ghost use Rattle.shop_commands.specs.Answer.{
  ChangesVolume,
  HandsOutFor,
  IsAnswer,
  IsDosCatalogAnswer,
  IsInPlaceAnswer,
  IsReplyToBytes,
  IsReplyToPayload,
  IsProtected,
  IsStatus,
  IsToldOfVolume,
  MakesImage,
  ReadsExtra,
  ReadsImage,
  WhereKnown,
  beside_bytes,
  image_bytes,
  most_extra as extra_most,
  most_for as image_most,
  order_in,
  parts_of,
  unread_reply as unread,
};

use crate::beside::{boot_of, extra_of};
use crate::creating::create_reply;
use crate::work::change_work;
use a2_device::Order;
use disk_container::{Container, Shell};
use image_readings::identify_reply;
use shop_changes::image_change;
use shop_jobs::{
    Ask, Beside, Change, ImageReading, Input, Job, Look, Source, VolumeAsk, WrapOptions,
};
use shop_reads::image_look;
use shop_replies::{
    Failure, Refusal, Reply, Side, convert_reply, most_beside, most_bytes, most_of_image,
    read_front, unwrap_reply, wrap_reply,
};
use std::alloc::Global;
use std::io::{Read, Write};

// The most bytes that are taken of the image: a job that takes whatever they are has those of a container.
fn most_for(job: &Job) -> u32
    ensures { result ≡ image_most (ask_view job.now.ask) (reading_view job.now.input.reading) }
{
    match &job.ask {
        Ask::Identify | Ask::Unwrap => most_of_image(&ImageReading::Bytes),
        _ => most_of_image(&job.input.reading),
    }
}

// The most bytes that are taken of what is read beside the image: of an image whose system is copied those of the order
// of the new volume, of one that is compared those of its own, and of a file those of a file.
fn most_extra(job: &Job) -> u32
    ensures { result ≡ extra_most (ask_view job.now.ask) (beside_view job.now.input.beside) }
{
    match &job.ask {
        Ask::Create(options) => most_bytes(options.order) as u32,
        Ask::Volume(VolumeAsk::Look(Look::Compare(_))) => most_beside(&job.input.beside),
        _ => most_beside(&Beside::Nothing),
    }
}

// The bytes of the image; a job that has none has no bytes.
fn image_for<I: Read>(alloc: Global, job: &Job, image: &mut I) -> Result<Vec<u8>, Failure>
    ensures read { IfSome (I.remaining image.old) (λ bytes. IfOk result (λ read. read.items
        ≡ take (image_most (ask_view job.now.ask) (reading_view job.now.input.reading) + 1)
        (image_bytes (source_view job.now.input.image) bytes))) }
    ensures kept { (image.new ≡ image.old) ⊎ IsRead (source_view job.now.input.image) }
    ensures failed { IfErr result (λ failure. IsRead (source_view job.now.input.image) × IsReadFailure failure) }
{
    match &job.input.image {
        Source::Nothing => Ok(Vec::new(alloc)),
        Source::StandardInput | Source::File(_) => read_front(alloc, image, most_for(job)),
    }
}

// The bytes of what is read beside the image; where nothing is there are none.
fn extra_for<E: Read>(alloc: Global, job: &Job, extra: &mut E) -> Result<Vec<u8>, Failure>
    ensures read { IfSome (beside_bytes (beside_view job.now.input.beside) (E.remaining extra.old)) (λ bytes.
        IfOk result (λ read. read.items
        ≡ take (extra_most (ask_view job.now.ask) (beside_view job.now.input.beside) + 1) bytes)) }
    ensures kept { (extra.new ≡ extra.old) ⊎ IsReadBeside (beside_view job.now.input.beside) }
    ensures failed { IfErr result (λ failure. IsReadBeside (beside_view job.now.input.beside) × IsReadFailure failure) }
{
    match &job.input.beside {
        Beside::Nothing
        | Beside::Folder(_)
        | Beside::Image {
            source: Source::Nothing,
            ..
        } => Ok(Vec::new(alloc)),
        Beside::File(_) | Beside::Image { .. } => read_front(alloc, extra, most_extra(job)),
    }
}

/// What is told where bytes could not be read; a comparison says of which of its images.
pub fn unread_reply(job: &Job, side: Side, failure: Failure) -> Reply
    ensures { result ≡ unread (job_view job.now) side failure }
{
    match &job.ask {
        Ask::Volume(VolumeAsk::Look(Look::Compare(_))) => Reply::failed(failure).of_image(side),
        _ => Reply::failed(failure),
    }
}

/// Whether the container of a job's image says that it is not to be written, and the job writes it: it changes the
/// image or adds files to it, or where its output file takes the place of the image's, writes another over it.
pub fn is_protected(job: &Job, replaces: bool, container: Container) -> bool
    ensures { IsTrue result ↔ IsProtected (job_view job.now) replaces container }
{
    let writes = match &job.ask {
        Ask::Volume(VolumeAsk::Change(_) | VolumeAsk::Add(_)) => true,
        Ask::Convert { .. } => replaces,
        _ => false,
    };
    container.protected && writes
}

// The order of the image, where it is known.
fn order_known(reading: &ImageReading) -> Option<Order>
    ensures { result ≡ order_in (reading_view reading.now) }
{
    reading.order()?.known()
}

// What is told of a conversion.
fn converted_reply(reading: &ImageReading, image: Vec<u8>, to: Order, volume: u8) -> Reply
    ensures { WhereKnown (order_in (reading_view reading.now))
        (λ order. IsConvertReply order to volume image.items) result }
{
    match order_known(reading) {
        Some(order) => convert_reply(image, order, to, volume),
        None => Reply::refused(Refusal::Unknown),
    }
}

// What is told of an image that is put into a container.
fn wrapped_reply(
    alloc: Global,
    reading: &ImageReading,
    image: &[u8],
    options: &WrapOptions,
) -> Reply
    ensures { WhereKnown (order_in (reading_view reading.now))
        (λ order. IsWrapReply order (wrapping_view options.now) image.now) result }
{
    match order_known(reading) {
        Some(order) => wrap_reply(alloc, image, order, options),
        None => Reply::refused(Refusal::Unknown),
    }
}

// What is told of a look.
fn look_reply(alloc: Global, look: &Look, input: &Input, image: Vec<u8>, extra: Vec<u8>) -> Reply
    ensures { IsToldOfVolume (LookAt (look_view look.now)) (input_view input.now) image.items extra.items result }
{
    let Some(volume) = input.reading.volume() else {
        return Reply::refused(Refusal::Unknown);
    };
    let reserve = input.reading.reserve();
    let extra = extra_of(&input.beside, extra);
    image_look(alloc, look, extra, image, volume, reserve)
}

// What is told of a change.
fn change_reply(
    alloc: Global,
    change: &Change,
    input: &Input,
    image: Vec<u8>,
    extra: &[u8],
) -> Reply
    ensures { IsToldOfVolume (ChangeOf (change_view change.now)) (input_view input.now) image.items extra.now result }
{
    let Some(volume) = input.reading.volume() else {
        return Reply::refused(Refusal::Unknown);
    };
    match change_work(volume, change, extra) {
        Ok(work) => image_change(alloc, work, image, volume, input.reading.reserve()),
        Err(refusal) => Reply::refused(refusal),
    }
}

// What is told of what is asked of a volume.
fn volume_reply(
    alloc: Global,
    ask: &VolumeAsk,
    input: &Input,
    image: Vec<u8>,
    extra: Vec<u8>,
) -> Reply
    ensures { IsToldOfVolume (volume_ask_view ask.now) (input_view input.now) image.items extra.items result }
{
    match ask {
        VolumeAsk::Look(look) => look_reply(alloc, look, input, image, extra),
        VolumeAsk::Extract(_) | VolumeAsk::Add(_) => Reply::refused(Refusal::Folder),
        VolumeAsk::Change(change) => change_reply(alloc, change, input, image, extra.as_slice()),
    }
}

/// The reply to a job on the bytes of its image, and on those of what is read beside it. A job that puts files into a
/// folder, adds those of one or surveys one is refused with `Folder`: here there is none. Where the order or the file
/// system that is needed is left to the image and not settled, the job is refused with `Unknown`.
pub fn reply_to(alloc: Global, job: &Job, image: Vec<u8>, extra: Vec<u8>) -> Reply
    ensures { IsReplyToBytes (job_view job.now) image.items extra.items result }
{
    let reading = &job.input.reading;
    match &job.ask {
        Ask::Identify => identify_reply(alloc, image),
        Ask::Survey(_) => Reply::refused(Refusal::Folder),
        Ask::Convert { to, volume } => converted_reply(reading, image, *to, *volume),
        Ask::Wrap(options) => wrapped_reply(alloc, reading, image.as_slice(), options),
        Ask::Unwrap => unwrap_reply(image),
        Ask::Create(options) => create_reply(alloc, options, boot_of(&job.input.beside, extra)),
        Ask::Volume(ask) => volume_reply(alloc, ask, &job.input, image, extra),
    }
}

// Whether a job changes its volume.
fn changes_volume(job: &Job) -> bool
    ensures { IsTrue result ↔ ChangesVolume (ask_view job.now.ask) }
{
    matches!(&job.ask, Ask::Volume(VolumeAsk::Change(_)))
}

/// The reply to a job on the payload of a container, and on the bytes of what is read beside it: what is told of the
/// payload. The image that a change hands out stands in the shell of the container, or there is no memory for that.
pub fn reply_to_payload(
    alloc: Global,
    job: &Job,
    payload: Vec<u8>,
    extra: Vec<u8>,
    shell: &Shell,
) -> Reply
    ensures { IsReplyToPayload (job_view job.now)
        (parts_of shell.now.front.items payload.items shell.now.back.items) extra.items result }
{
    let reply = reply_to(alloc, job, payload, extra);
    if changes_volume(job) {
        reply.in_shell(alloc, shell)
    } else {
        reply
    }
}

/// Does a job on the image of a reader, tells it and hands the image that it makes to `out`: 0 done, 1 where something
/// is found wrong, 3 refused, 4 where a reader, a writer or memory fails. A job in place is refused with `InPlace`
/// before anything is read.
pub fn run_job<I: Read, E: Read, T: Write, O: Write>(
    alloc: Global,
    job: &Job,
    image: &mut I,
    extra: &mut E,
    text: &mut T,
    out: &mut O,
) -> u8
    ensures status { IsStatus result }
    ensures answer { IfSome (I.remaining image.old) (λ bytes.
        IsAnswer (job_view job.now) bytes (E.remaining extra.old) result
        (held (T.contents text.old) (O.contents out.old)) (held (T.contents text.new) (O.contents out.new))) }
    ensures in_place { IsInPlaceAnswer (job_view job.now) result
        (held (T.contents text.old) (O.contents out.old)) (held (T.contents text.new) (O.contents out.new)) }
    ensures dos_catalog { IfSome (I.remaining image.old) (λ bytes.
        IsDosCatalogAnswer (job_view job.now) bytes result (held (T.contents text.old) (O.contents out.old))
        (held (T.contents text.new) (O.contents out.new))) }
    ensures image { (image.new ≡ image.old) ⊎ ReadsImage (job_view job.now) }
    ensures extra { (extra.new ≡ extra.old) ⊎ ReadsExtra (job_view job.now) }
    ensures out { (out.new ≡ out.old) ⊎ (MakesImage (job_view job.now)
        × HandsOutFor (job_view job.now) result (T.contents text.old) (T.contents text.new)) }
{
    if job.output.is_in_place() {
        return Reply::refused(Refusal::InPlace).deliver(text, out);
    }
    let bytes = match image_for(alloc, job, image) {
        Ok(bytes) => bytes,
        Err(failure) => return unread_reply(job, Side::First, failure).deliver(text, out),
    };
    let more = match extra_for(alloc, job, extra) {
        Ok(more) => more,
        Err(failure) => return unread_reply(job, Side::Second, failure).deliver(text, out),
    };
    reply_to(alloc, job, bytes, more).deliver(text, out)
}

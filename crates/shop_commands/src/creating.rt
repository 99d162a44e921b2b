// The job that makes a volume without a file.
ghost use Rattle.std.specs.Prelude.{◌≡◌, ◌⊎◌, option_map};
ghost use Rattle.new_volumes.specs.Wanted.{IsNamed, Wanted, wanted};
ghost use Rattle.shop_jobs.specs.Job.{ProdosVolume, creation_view};
ghost use Rattle.shop_commands.specs.CreateReply.{
  IsCreateReply,
  IsVolumeMade,
  RefusesVolume,
  SaysProdos,
  name_said as said_name,
  reply_to_new_error,
};
ghost use Rattle.shop_replies.specs.declared.refusal.Refusal.{Refusal as ARefusal};
ghost use Rattle.shop_replies.specs.Reply.{refused};

use edit_formats::{is_pro_name, pro_name};
use new_volumes::{NewVolumeError, new_image};
use pro_dates::date;
use shop_jobs::CreateOptions;
use shop_replies::{Failure, Refusal, Reply};
use std::alloc::Global;

/// The name of a volume where none is said.
const UNTITLED: &[u8] = b"UNTITLED";

// The name that is said of a volume.
fn name_said(name: Option<&str>) -> &[u8]
    ensures { result.now ≡ said_name (option_map (λ s. s.now) name.entry) }
{
    match name {
        Some(name) => name.as_bytes(),
        None => UNTITLED,
    }
}

// What is told of an image that is not made.
fn new_error_reply(error: NewVolumeError) -> Reply
    ensures { result ≡ reply_to_new_error error }
{
    match error {
        NewVolumeError::Length | NewVolumeError::BootLength => Reply::refused(Refusal::Length),
        NewVolumeError::NoSector => Reply::refused(Refusal::NoSector),
        NewVolumeError::Memory => Reply::failed(Failure::Memory),
        NewVolumeError::Refused => Reply::refused(Refusal::Check),
    }
}

// What is told of a volume, with the bytes of an image whose system is copied, if there is one.
fn volume_reply(
    alloc: Global,
    options: &CreateOptions,
    volume: new_volumes::NewVolume<'_>,
    boot: Option<Vec<u8>>,
) -> Reply
    requires named { IsNamed (wanted volume) }
    ensures { IsVolumeMade (creation_view options.now) (option_map (λ v. v.items) boot) (wanted volume.entry) result }
{
    match new_image(alloc, volume, options.order, options.number, boot) {
        Ok(image) => Reply::made(image),
        Err(error) => new_error_reply(error),
    }
}

// What is told of a ProDOS volume.
fn prodos_reply(
    alloc: Global,
    options: &CreateOptions,
    blocks: u16,
    name: Option<&str>,
    said: Option<&str>,
    boot: Option<Vec<u8>>,
) -> Reply
    ensures { ((refusal : ARefusal) × (result ≡ refused refusal) × RefusesVolume
        (ProdosVolume blocks (option_map (λ s. s.now) name.entry) (option_map (λ s. s.now) said.entry)) refusal)
        ⊎ ((volume : Wanted)
        × SaysProdos blocks (option_map (λ s. s.now) name.entry) (option_map (λ s. s.now) said.entry) volume
        × IsVolumeMade (creation_view options.now) (option_map (λ v. v.items) boot) volume result) }
{
    let Some(date) = date(said) else {
        return Reply::refused(Refusal::Date);
    };
    let name = name_said(name);
    if !is_pro_name(name) {
        return Reply::refused(Refusal::Name);
    }
    let stored = pro_name(name);
    let volume = new_volumes::NewVolume::Prodos {
        blocks,
        name: &stored[..name.len()],
        date,
    };
    volume_reply(alloc, options, volume, boot)
}

/// What is told of a volume that is made, with the bytes of an image whose system is copied, if there is one: `Made`
/// with its image; `Refused` with `Date` or `Name` where the words say none, with `Length` where no image of the order
/// has so many blocks or the other image has another length than one in its order, with `NoSector` where a sector of it
/// that is copied can't be read; `Failed` for want of memory.
pub fn create_reply(alloc: Global, options: &CreateOptions, boot: Option<Vec<u8>>) -> Reply
    ensures { IsCreateReply (creation_view options.now) (option_map (λ v. v.items) boot) result }
{
    match &options.volume {
        shop_jobs::NewVolume::Dos { data_disk } => {
            let volume = new_volumes::NewVolume::Dos {
                volume: options.number,
                data_disk: *data_disk,
            };
            volume_reply(alloc, options, volume, boot)
        }
        shop_jobs::NewVolume::Prodos { blocks, name, date } => prodos_reply(
            alloc,
            options,
            *blocks,
            name.as_deref(),
            date.as_deref(),
            boot,
        ),
    }
}

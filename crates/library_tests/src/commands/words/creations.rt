// The words of new volumes, and of lost places that are marked free.
use super::{asks, image_at, refuses, volume};
use a2_device::Order;
use shop_help::WordsFault;
use shop_jobs::{
    Ask, Beside, Change, CreateOptions, FileSystem, ImageReading, Input, NewVolume, OrderSaid,
    Source, Target, VolumeAsk,
};
use std::alloc::Global;
use std::process::Abort;
use std::test::Fail;

const CREATE_USAGE: &str = "Usage: a2shop create ";

/// The words of a line make this volume, with what stands beside it, for new.
fn creates(
    rt: &impl Abort,
    alloc: Global,
    line: &str,
    options: CreateOptions,
    beside: Beside,
) -> Result<(), WordsFault> {
    let input = Input {
        image: Source::Nothing,
        reading: ImageReading::Bytes,
        beside,
    };
    let output = Target::NewFile("new".to_string(alloc)?);
    asks(rt, alloc, line, input, Ask::Create(options), output)
}

#[test]
fn a_disk_is_made_by_its_words(rt: HostRuntime) -> Result<(), Fail> {
    let plain = CreateOptions {
        volume: NewVolume::Dos { data_disk: false },
        order: Order::Dos,
        number: 254,
    };
    let line = "create --fs dos --out new";
    creates(&rt, rt.alloc(), line, plain, Beside::Nothing)?;
    let told = CreateOptions {
        volume: NewVolume::Dos { data_disk: true },
        order: Order::Nibble,
        number: 7,
    };
    let line = "create --volume 7 --data-disk --out new --fs dos --order nibble";
    creates(&rt, rt.alloc(), line, told, Beside::Nothing)?;
    let started = CreateOptions {
        volume: NewVolume::Dos { data_disk: false },
        order: Order::Prodos,
        number: 254,
    };
    let system = Beside::Image {
        source: Source::File("system.po".to_string(rt.alloc())?),
        order: OrderSaid::Is(Order::Prodos),
    };
    let line = "create --boot system.po --fs dos --order prodos --out new";
    creates(&rt, rt.alloc(), line, started, system)?;
    Ok(())
}

#[test]
fn a_prodos_volume_is_made_by_its_words(rt: HostRuntime) -> Result<(), Fail> {
    let plain = CreateOptions {
        volume: NewVolume::Prodos {
            blocks: 280,
            name: None,
            date: None,
        },
        order: Order::Prodos,
        number: 254,
    };
    let line = "create --fs prodos --out new";
    creates(&rt, rt.alloc(), line, plain, Beside::Nothing)?;
    let told = CreateOptions {
        volume: NewVolume::Prodos {
            blocks: 65_535,
            name: Some("A".to_string(rt.alloc())?),
            date: Some("1986-05-01T12:30".to_string(rt.alloc())?),
        },
        order: Order::Prodos,
        number: 254,
    };
    let line = "create --fs prodos --out new --blocks 65535 --name A --date 1986-05-01T12:30";
    creates(&rt, rt.alloc(), line, told, Beside::Nothing)?;
    Ok(())
}

#[test]
fn words_that_no_volume_has_are_refused(rt: HostRuntime) {
    for (line, wrong) in [
        (
            "create --fs prodos --out new --blocks 15",
            "for '--blocks <N>'\n  [a number from 16 to 65535]",
        ),
        (
            "create --fs dos --out new --name A",
            "'--name <NAME>' can only be used with '--fs prodos'",
        ),
        (
            "create --fs dos --out new --boot a --data-disk",
            "'--boot <IMAGE>' cannot be used with '--data-disk'",
        ),
        (
            "create --fs auto --out new",
            "[possible values: dos, prodos]",
        ),
    ] {
        refuses(&rt, rt.alloc(), line, wrong, CREATE_USAGE);
    }
}

/// The words of a line mark the lost places of the DOS volume in a.dsk free, for this target.
fn reclaims(rt: &impl Abort, alloc: Global, line: &str, target: Target) -> Result<(), WordsFault> {
    let reading = ImageReading::Volume(volume(FileSystem::Dos, Order::Dos));
    let input = image_at(alloc, "a.dsk", reading)?;
    let ask = Ask::Volume(VolumeAsk::Change(Change::Reclaim));
    asks(rt, alloc, line, input, ask, target)
}

#[test]
fn lost_places_are_marked_free_by_their_words(rt: HostRuntime) -> Result<(), Fail> {
    let line = "reclaim a.dsk --fs dos --order dos --out b.dsk";
    let file = Target::File("b.dsk".to_string(rt.alloc())?);
    reclaims(&rt, rt.alloc(), line, file)?;
    let line = "reclaim a.dsk --fs dos --order dos --in-place";
    reclaims(&rt, rt.alloc(), line, Target::InPlace)?;
    Ok(())
}

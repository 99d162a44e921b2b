// The words of commands: `parse_words`.
use crate::commands::answer::words_of;
use a2_device::Order;
use shop_help::{WordsFault, parse_words};
use shop_jobs::{
    Ask, Beside, FileSystem, ImageReading, Input, Job, ListForm, ListOptions, Look, OrderSaid,
    Source, Target, VolumeAsk, VolumeReading,
};
use std::alloc::{AllocError, Global};
use std::process::Abort;
use std::test::Fail;

mod additions;
mod comparisons;
mod containers;
mod conversions;
mod creations;
mod directories;
mod escapes;
mod extractions;
mod moves;
mod reads;
mod refusals;
mod savings;

fn parse(alloc: Global, line: &str) -> Result<Job, WordsFault> {
    parse_words(alloc, words_of(alloc, line)?.as_slice())
}

/// The words of a line are those of this job.
fn is_job(rt: &impl Abort, alloc: Global, line: &str, job: Job) -> Result<(), WordsFault> {
    assert!(rt; parse(alloc, line)? == job, "for {line}");
    Ok(())
}

/// The words of a line ask this of what is read, for this target, and no certificate is written.
fn asks(
    rt: &impl Abort,
    alloc: Global,
    line: &str,
    input: Input,
    ask: Ask,
    output: Target,
) -> Result<(), WordsFault> {
    let job = Job {
        input,
        ask,
        output,
        certificate: None,
    };
    is_job(rt, alloc, line, job)
}

/// The image in a file, and nothing beside it.
fn image_at(alloc: Global, path: &str, reading: ImageReading) -> Result<Input, AllocError> {
    Ok(Input {
        image: Source::File(path.to_string(alloc)?),
        reading,
        beside: Beside::Nothing,
    })
}

/// A volume of this file system in this order, of which nothing more is said.
fn volume(file_system: FileSystem, order: Order) -> VolumeReading {
    VolumeReading {
        file_system: Some(file_system),
        order: OrderSaid::Is(order),
        data_disk: false,
        reserve: None,
    }
}

/// The words of a line are refused, with a text that contains both.
fn refuses(rt: &impl Abort, alloc: Global, line: &str, wrong: &str, usage: &str) {
    match parse(alloc, line) {
        Err(WordsFault::Refused(text)) => {
            assert!(rt; text.as_str().contains(wrong), "{text}");
            assert!(rt; text.as_str().contains(usage), "{text}");
        }
        Ok(_) | Err(WordsFault::Help(_) | WordsFault::Memory) => {
            assert!(rt; false, "for {line}")
        }
    }
}

/// The words of a line are answered with help that contains both.
fn helps(rt: &impl Abort, alloc: Global, line: &str, wanted: &str, usage: &str) {
    match parse(alloc, line) {
        Err(WordsFault::Help(text)) => {
            assert!(rt; text.as_str().contains(wanted), "{text}");
            assert!(rt; text.as_str().contains(usage), "{text}");
        }
        Ok(_) | Err(WordsFault::Refused(_) | WordsFault::Memory) => {
            assert!(rt; false, "for {line}")
        }
    }
}

/// The words of a line are those of a listing of the DOS volume in the image.
fn lists(
    rt: &impl Abort,
    alloc: Global,
    line: &str,
    image: Source,
    order: Order,
    data_disk: bool,
) -> Result<(), WordsFault> {
    let mut dos = volume(FileSystem::Dos, order);
    dos.data_disk = data_disk;
    let input = Input {
        image,
        reading: ImageReading::Volume(dos),
        beside: Beside::Nothing,
    };
    let listing = Ask::Volume(VolumeAsk::Look(Look::Catalog));
    asks(rt, alloc, line, input, listing, Target::Nothing)
}

/// The same of the image in a.dsk.
fn lists_file(
    rt: &impl Abort,
    alloc: Global,
    line: &str,
    order: Order,
    data_disk: bool,
) -> Result<(), WordsFault> {
    let image = Source::File("a.dsk".to_string(alloc)?);
    lists(rt, alloc, line, image, order, data_disk)
}

#[test]
fn no_words_list_standard_input(rt: HostRuntime) -> Result<(), Fail> {
    let input = Source::StandardInput;
    lists(&rt, rt.alloc(), "", input, Order::Dos, false)?;
    Ok(())
}

#[test]
fn standard_input_may_be_named(rt: HostRuntime) -> Result<(), Fail> {
    for line in [
        "catalog - --fs dos --order dos",
        "catalog --fs dos --order dos -",
    ] {
        let input = Source::StandardInput;
        lists(&rt, rt.alloc(), line, input, Order::Dos, false)?;
    }
    Ok(())
}

#[test]
fn options_stand_in_any_order(rt: HostRuntime) -> Result<(), Fail> {
    for (line, data_disk) in [
        ("catalog a.dsk --order dos --fs dos", false),
        ("catalog a.dsk --fs dos --data-disk --order dos", true),
        ("catalog --fs=dos --order=dos a.dsk", false),
    ] {
        lists_file(&rt, rt.alloc(), line, Order::Dos, data_disk)?;
    }
    Ok(())
}

#[test]
fn an_image_may_be_in_each_order(rt: HostRuntime) -> Result<(), Fail> {
    for (line, order) in [
        ("catalog a.dsk --fs dos --order dos", Order::Dos),
        ("catalog a.dsk --fs dos --order prodos", Order::Prodos),
        ("catalog a.dsk --fs dos --order nibble", Order::Nibble),
    ] {
        lists_file(&rt, rt.alloc(), line, order, false)?;
    }
    Ok(())
}

#[test]
fn a_list_names_an_image(rt: HostRuntime) -> Result<(), Fail> {
    let names = Look::Entries(ListOptions {
        form: ListForm::Names,
        digests: false,
        places: false,
        most: 1 << 30,
    });
    let reading = ImageReading::Volume(volume(FileSystem::Prodos, Order::Dos));
    let input = image_at(rt.alloc(), "a.dsk", reading)?;
    let ask = Ask::Volume(VolumeAsk::Look(names));
    let line = "list a.dsk --order dos --fs prodos";
    asks(&rt, rt.alloc(), line, input, ask, Target::Nothing)?;
    refuses(
        &rt,
        rt.alloc(),
        "list a.dsk --order dos",
        "the words are to say",
        "how each image is read",
    );
    Ok(())
}

/// The words of a line are those of a check of the DOS volume in a.dsk, in ProDOS order, with this text of the places
/// to reserve.
fn checks(
    rt: &impl Abort,
    alloc: Global,
    line: &str,
    reserve: Option<String>,
    bodies: bool,
) -> Result<(), WordsFault> {
    let mut dos = volume(FileSystem::Dos, Order::Prodos);
    dos.reserve = reserve;
    let input = image_at(alloc, "a.dsk", ImageReading::Volume(dos))?;
    let check = Ask::Volume(VolumeAsk::Look(Look::Check { bodies }));
    asks(rt, alloc, line, input, check, Target::Nothing)
}

#[test]
fn a_check_may_reserve_places_and_read_bodies(rt: HostRuntime) -> Result<(), Fail> {
    let alloc = rt.alloc();
    let line = "check a.dsk --fs dos --order prodos";
    checks(&rt, alloc, line, None, false)?;
    let line = "check a.dsk --bodies --fs dos --order prodos";
    checks(&rt, alloc, line, None, true)?;
    let line = "check a.dsk --reserve 3/14,4/0 --order prodos --fs dos";
    checks(&rt, alloc, line, Some("3/14,4/0".to_string(alloc)?), false)?;
    Ok(())
}

#[test]
fn a_fault_prints_its_text(rt: HostRuntime) -> Result<(), Fail> {
    let alloc = rt.alloc();
    let help = WordsFault::Help("Usage: a2shop\n".to_string(alloc)?);
    assert_eq!(rt; help.to_string(alloc)?.as_str(), "Usage: a2shop\n");
    let refused = WordsFault::Refused("error: no\n".to_string(alloc)?);
    assert_eq!(rt; refused.to_string(alloc)?.as_str(), "error: no\n");
    assert_eq!(rt;
        WordsFault::Memory.to_string(alloc)?.as_str(),
        "out of memory"
    );
    Ok(())
}

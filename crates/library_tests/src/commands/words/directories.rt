// The words of directories that are made.
use super::{asks, helps, image_at, refuses, volume};
use a2_device::Order;
use shop_help::WordsFault;
use shop_jobs::{Ask, Change, FileSystem, ImageReading, Target, VolumeAsk};
use std::alloc::Global;
use std::process::Abort;
use std::test::Fail;

const MKDIR_USAGE: &str = "Usage: a2shop mkdir ";

/// The words of a line make a directory, LETTERS/JUNE, on the ProDOS volume of a.po in this order.
fn makes(
    rt: &impl Abort,
    alloc: Global,
    line: &str,
    order: Order,
    date: Option<String>,
    reserve: Option<String>,
    target: Target,
) -> Result<(), WordsFault> {
    let mut prodos = volume(FileSystem::Prodos, order);
    prodos.reserve = reserve;
    let input = image_at(alloc, "a.po", ImageReading::Volume(prodos))?;
    let directory = Change::MakeDirectory {
        path: "LETTERS/JUNE".to_string(alloc)?,
        date,
    };
    let ask = Ask::Volume(VolumeAsk::Change(directory));
    asks(rt, alloc, line, input, ask, target)
}

#[test]
fn a_directory_is_made_for_a_file(rt: HostRuntime) -> Result<(), Fail> {
    for (line, order) in [
        (
            "mkdir a.po LETTERS/JUNE --order prodos --out new",
            Order::Prodos,
        ),
        (
            "mkdir --fs prodos --order dos --out new a.po LETTERS/JUNE",
            Order::Dos,
        ),
        (
            "mkdir a.po LETTERS/JUNE --out=new --fs=prodos --order=nibble",
            Order::Nibble,
        ),
    ] {
        let file = Target::File("new".to_string(rt.alloc())?);
        makes(&rt, rt.alloc(), line, order, None, None, file)?;
    }
    Ok(())
}

#[test]
fn a_directory_is_made_in_place_by_all_words(rt: HostRuntime) -> Result<(), Fail> {
    let alloc = rt.alloc();
    let line = "mkdir a.po LETTERS/JUNE --in-place --order prodos";
    let order = Order::Prodos;
    makes(&rt, alloc, line, order, None, None, Target::InPlace)?;
    let line = "mkdir --date 1986-05-01T12:30 a.po --reserve 7,280 LETTERS/JUNE --in-place \
        --order prodos --fs prodos";
    let date = Some("1986-05-01T12:30".to_string(alloc)?);
    let reserve = Some("7,280".to_string(alloc)?);
    makes(&rt, alloc, line, order, date, reserve, Target::InPlace)?;
    Ok(())
}

#[test]
fn words_that_make_no_directory_are_refused(rt: HostRuntime) {
    for (line, wrong) in [
        ("mkdir a.po SUB --in-place", "--order"),
        ("mkdir a.po --order prodos --out new", "<PATH>"),
        ("mkdir --order prodos --out new", "<IMAGE>"),
        (
            "mkdir a.po SUB --order prodos",
            "required arguments were not provided:\n  <--out <FILE>|--in-place>",
        ),
        (
            "mkdir a.po SUB --order prodos --out new --in-place",
            "the argument '--out <FILE>' cannot be used with '--in-place'",
        ),
        (
            "mkdir a.po SUB --fs dos --order dos --out new",
            "invalid value 'dos' for '--fs <FS>'\n  [possible values: auto, prodos]",
        ),
        (
            "mkdir a.po SUB --order woz --out new",
            "[possible values: auto, 2img, dos, prodos, nibble]",
        ),
        (
            "mkdir a.po SUB --order prodos --out new --data-disk",
            "'--data-disk'",
        ),
        (
            "mkdir a.po SUB --order prodos --out new --stored",
            "'--stored'",
        ),
        ("mkdir a.po SUB JUNE --order prodos --out new", "'JUNE'"),
        (
            "mkdir a.po SUB --order prodos --out new --date now --date then",
            "--date",
        ),
    ] {
        refuses(&rt, rt.alloc(), line, wrong, MKDIR_USAGE);
    }
}

#[test]
fn help_tells_why_no_directory_is_made(rt: HostRuntime) {
    for wanted in ["auto, prodos", "REFUSED DirFull"] {
        helps(&rt, rt.alloc(), "mkdir --help", wanted, MKDIR_USAGE);
    }
}

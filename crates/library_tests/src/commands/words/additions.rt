// The words of files that are added.
use super::{asks, image_at, refuses, volume};
use a2_device::Order;
use shop_help::WordsFault;
use shop_jobs::{
    AddOptions, Ask, Beside, FileSystem, ImageReading, Target, VolumeAsk, VolumeReading,
};
use std::alloc::{AllocError, Global};
use std::process::Abort;
use std::test::Fail;

const ADD_USAGE: &str = "Usage: a2shop add ";

/// A text that may be left out, as one of its own.
fn text(alloc: Global, word: Option<&str>) -> Result<Option<String>, AllocError> {
    match word {
        Some(word) => Ok(Some(word.to_string(alloc)?)),
        None => Ok(None),
    }
}

/// The words of a line add the files of a folder, files, to a volume of a.po, for new.
fn adds(
    rt: &impl Abort,
    alloc: Global,
    line: &str,
    volume: VolumeReading,
    into: Option<&str>,
    date: Option<&str>,
) -> Result<(), WordsFault> {
    let mut input = image_at(alloc, "a.po", ImageReading::Volume(volume))?;
    input.beside = Beside::Folder("files".to_string(alloc)?);
    let options = AddOptions {
        into: text(alloc, into)?,
        date: text(alloc, date)?,
    };
    let ask = Ask::Volume(VolumeAsk::Add(options));
    let output = Target::File("new".to_string(alloc)?);
    asks(rt, alloc, line, input, ask, output)
}

#[test]
fn files_are_added_by_their_words(rt: HostRuntime) -> Result<(), Fail> {
    let alloc = rt.alloc();
    let plain = volume(FileSystem::Prodos, Order::Prodos);
    let line = "add a.po --fs prodos --order prodos --from files --out new";
    adds(&rt, alloc, line, plain, None, None)?;
    let mut reserving = volume(FileSystem::Prodos, Order::Prodos);
    reserving.reserve = Some("7,280".to_string(alloc)?);
    let line =
        "add --into SUB/INNER --date 1986-05-01T12:30 a.po --reserve 7,280 --out new --from files \
        --order prodos --fs prodos";
    let (into, date) = (Some("SUB/INNER"), Some("1986-05-01T12:30"));
    adds(&rt, alloc, line, reserving, into, date)?;
    let mut disk = volume(FileSystem::Dos, Order::Nibble);
    disk.data_disk = true;
    let line = "add a.po --data-disk --fs dos --order nibble --from files --out new";
    adds(&rt, alloc, line, disk, None, None)?;
    Ok(())
}

#[test]
fn words_that_add_no_files_are_refused(rt: HostRuntime) {
    for (line, wrong) in [
        ("add a.po --fs dos --order dos --out new", "--from"),
        ("add a.po --fs dos --order dos --from files", "--out"),
        ("add --fs dos --order dos --from files --out new", "<IMAGE>"),
        (
            "add a.po --fs dos --order dos --from files --out new --in-place",
            "--in-place",
        ),
        (
            "add a.po --fs dos --order dos --from files --out new --into SUB",
            "the argument '--into <DIRECTORY>' can only be used with '--fs prodos'",
        ),
        (
            "add a.po --fs dos --order dos --from files --from more --out new",
            "--from",
        ),
    ] {
        refuses(&rt, rt.alloc(), line, wrong, ADD_USAGE);
    }
}

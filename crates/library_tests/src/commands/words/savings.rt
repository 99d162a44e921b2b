// The words of savings.
use super::{asks, image_at, refuses, volume};
use a2_device::Order;
use apple_text::HighBit;
use shop_help::WordsFault;
use shop_jobs::{
    Ask, Beside, Change, FileSystem, ImageReading, SaveAttributes, SaveForm, Target, VolumeAsk,
};
use std::alloc::Global;
use std::process::Abort;
use std::test::Fail;

/// The words behind `save a.dsk NOTE --order dos --from b --out c.dsk` are those of a saving with this aux type, in
/// this form; or of one that replaces a file.
fn saves_over(
    rt: &impl Abort,
    alloc: Global,
    words: &str,
    file_system: FileSystem,
    aux: Option<u16>,
    form: Option<SaveForm>,
    replace: bool,
) -> Result<(), WordsFault> {
    let line = format!(in alloc; "save a.dsk NOTE --order dos --from b --out c.dsk {words}")?;
    let change = Change::Save {
        name: "NOTE".to_string(alloc)?,
        attributes: SaveAttributes {
            kind: None,
            aux,
            date: None,
        },
        form,
        replace,
    };
    let reading = ImageReading::Volume(volume(file_system, Order::Dos));
    let mut input = image_at(alloc, "a.dsk", reading)?;
    input.beside = Beside::File("b".to_string(alloc)?);
    let save = Ask::Volume(VolumeAsk::Change(change));
    let output = Target::File("c.dsk".to_string(alloc)?);
    asks(rt, alloc, line.as_str(), input, save, output)
}

/// The same of a new file.
fn saves(
    rt: &impl Abort,
    alloc: Global,
    words: &str,
    file_system: FileSystem,
    aux: Option<u16>,
    form: Option<SaveForm>,
) -> Result<(), WordsFault> {
    saves_over(rt, alloc, words, file_system, aux, form, false)
}

#[test]
fn a_saving_replaces_a_file_by_a_word(rt: HostRuntime) -> Result<(), Fail> {
    for words in ["--fs dos --replace", "--replace --fs dos"] {
        saves_over(&rt, rt.alloc(), words, FileSystem::Dos, None, None, true)?;
    }
    refuses(
        &rt,
        rt.alloc(),
        "delete a.dsk NOTE --fs dos --order dos --out c.dsk --replace",
        "--replace",
        "delete",
    );
    Ok(())
}

/// A text with this highest bit.
fn text(high: Option<HighBit>) -> Option<SaveForm> {
    Some(SaveForm::Text { high })
}

#[test]
fn a_saving_names_a_form(rt: HostRuntime) -> Result<(), Fail> {
    let dos = FileSystem::Dos;
    let high = text(Some(HighBit::On));
    let low = text(Some(HighBit::Off));
    for (words, file_system, form) in [
        ("--fs dos", dos, None),
        ("--fs dos --as text", dos, text(None)),
        ("--fs dos --as text --high on", dos, high),
        ("--high off --fs dos --as text", dos, low),
        ("--fs prodos --as text", FileSystem::Prodos, text(None)),
        ("--fs prodos --as text --high on", FileSystem::Prodos, high),
        ("--fs dos --as applesoft", dos, Some(SaveForm::Applesoft)),
        ("--fs dos --as single", dos, Some(SaveForm::Single)),
    ] {
        saves(&rt, rt.alloc(), words, file_system, None, form)?;
    }
    Ok(())
}

#[test]
fn an_aux_type_is_a_number_of_either_kind(rt: HostRuntime) -> Result<(), Fail> {
    for (word, aux) in [
        ("0", 0),
        ("65535", 65_535),
        ("0x0", 0),
        ("0xf", 15),
        ("0x2fF", 0x2ff),
        ("0x2000", 0x2000),
        ("$2000", 0x2000),
        ("$fFfF", 0xffff),
    ] {
        let words = format!(in rt.alloc(); "--fs dos --aux {word}")?;
        let aux = Some(aux);
        saves(&rt, rt.alloc(), words.as_str(), FileSystem::Dos, aux, None)?;
    }
    let program = Some(SaveForm::Applesoft);
    let words = "--fs dos --aux 0x801 --as applesoft";
    saves(&rt, rt.alloc(), words, FileSystem::Dos, Some(2049), program)?;
    Ok(())
}

#[test]
fn words_that_save_nothing_are_refused(rt: HostRuntime) {
    let usage = "Usage: a2shop save";
    let front = "save a.dsk NOTE --fs dos --order dos --from b --out c.dsk";
    for (words, wrong) in [
        ("--as integer", "text, applesoft, single"),
        (
            "--high on",
            "'--high <BIT>' can only be used with '--as text'",
        ),
        (
            "--high on --as single",
            "'--high <BIT>' can only be used with '--as text'",
        ),
        ("--as text --high yes", "on, off"),
        (
            "--as applesoft --aux 768",
            "'--as applesoft' can only be used with '--aux 0x0801'",
        ),
        ("--aux 65536", "from 0 to 65535"),
        ("--aux 0x", "from 0x0 to 0xFFFF"),
        ("--aux 0x10000", "from 0x0 to 0xFFFF"),
        ("--aux 0xg", "from 0x0 to 0xFFFF"),
        ("--aux $", "from 0x0 to 0xFFFF"),
    ] {
        match format!(in rt.alloc(); "{front} {words}") {
            Ok(line) => refuses(&rt, rt.alloc(), line.as_str(), wrong, usage),
            Err(_) => assert!(rt; false, "no memory"),
        }
    }
}

// The words of reads.
use super::{asks, image_at, refuses, volume};
use a2_device::Order;
use file_forms::FileForm;
use shop_help::WordsFault;
use shop_jobs::{Ask, FileName, FileSystem, ImageReading, Look, ReadForm, Target, VolumeAsk};
use std::alloc::{AllocError, Global};
use std::process::Abort;
use std::test::Fail;

/// The words of a line ask to look at the DOS volume of a.dsk, in nibble order, and what is read goes there.
fn looks(
    rt: &impl Abort,
    alloc: Global,
    line: &str,
    data_disk: bool,
    look: Look,
    output: Target,
) -> Result<(), WordsFault> {
    let mut dos = volume(FileSystem::Dos, Order::Nibble);
    dos.data_disk = data_disk;
    let input = image_at(alloc, "a.dsk", ImageReading::Volume(dos))?;
    let read = Ask::Volume(VolumeAsk::Look(look));
    asks(rt, alloc, line, input, read, output)
}

/// The words of a line are those of a read of a file; its two flags are both given or none is.
fn reads(
    rt: &impl Abort,
    alloc: Global,
    line: &str,
    name: FileName,
    flags: bool,
) -> Result<(), WordsFault> {
    let form = if flags {
        ReadForm::Whole
    } else {
        ReadForm::Body
    };
    let look = Look::Read {
        name,
        form,
        to_file: false,
    };
    looks(rt, alloc, line, flags, look, Target::Nothing)
}

/// The path HELLO.
fn hello(alloc: Global) -> Result<FileName, AllocError> {
    Ok(FileName::Path("HELLO".to_string(alloc)?))
}

#[test]
fn a_read_names_an_image_and_a_file(rt: HostRuntime) -> Result<(), Fail> {
    let plain = "read a.dsk HELLO --fs dos --order nibble";
    reads(&rt, rt.alloc(), plain, hello(rt.alloc())?, false)?;
    let with_flags = "read a.dsk HELLO --whole --order nibble --data-disk --fs dos";
    reads(&rt, rt.alloc(), with_flags, hello(rt.alloc())?, true)?;
    Ok(())
}

#[test]
fn a_read_may_name_a_file_by_its_stored_bytes(rt: HostRuntime) -> Result<(), Fail> {
    for (line, bytes) in [
        (
            "read a.dsk C8c5CCcCcF --stored --fs dos --order nibble",
            b"\xc8\xc5\xcc\xcc\xcf".as_slice(),
        ),
        (
            "read --stored a.dsk 007f --fs dos --order nibble",
            b"\x00\x7f".as_slice(),
        ),
    ] {
        let name = FileName::Stored(Vec::from_slice(rt.alloc(), bytes)?);
        reads(&rt, rt.alloc(), line, name, false)?;
    }
    Ok(())
}

#[test]
fn a_read_may_name_a_form(rt: HostRuntime) -> Result<(), Fail> {
    for (word, form) in [
        ("text", ReadForm::As(FileForm::Text)),
        ("applesoft", ReadForm::As(FileForm::Applesoft)),
        ("integer", ReadForm::As(FileForm::Integer)),
        ("single", ReadForm::As(FileForm::Single)),
        ("shown", ReadForm::Shown),
    ] {
        let line = format!(in rt.alloc(); "read a.dsk HELLO --fs dos --as {word} --order nibble")?;
        let look = Look::Read {
            name: hello(rt.alloc())?,
            form,
            to_file: false,
        };
        let told = Target::Nothing;
        looks(&rt, rt.alloc(), line.as_str(), false, look, told)?;
    }
    Ok(())
}

#[test]
fn a_read_may_name_a_new_file(rt: HostRuntime) -> Result<(), Fail> {
    let look = Look::Read {
        name: hello(rt.alloc())?,
        form: ReadForm::Body,
        to_file: true,
    };
    let file = Target::NewFile("b.bin".to_string(rt.alloc())?);
    let line = "read a.dsk HELLO --out b.bin --fs dos --order nibble";
    looks(&rt, rt.alloc(), line, false, look, file)?;
    Ok(())
}

#[test]
fn words_that_read_nothing_are_refused(rt: HostRuntime) {
    for (line, wrong) in [
        (
            "read a.dsk HELLO --fs dos --order dos --as basic",
            "text, applesoft, integer, single, shown",
        ),
        (
            "read a.dsk HELLO --fs dos --order dos --as text --whole",
            "'--as <FORM>' cannot be used with '--whole'",
        ),
        (
            "read a.dsk HELLO --fs dos --order dos --in-place",
            "--in-place",
        ),
    ] {
        refuses(&rt, rt.alloc(), line, wrong, "Usage: a2shop read");
    }
}

// The words of an extraction.
use super::{asks, image_at, refuses, volume};
use a2_device::Order;
use host_folders::Naming;
use shop_jobs::{Ask, ExtractOptions, FileSystem, ImageReading, Target, VolumeAsk};
use std::test::Fail;

#[test]
fn an_extraction_names_a_folder(rt: HostRuntime) -> Result<(), Fail> {
    for (line, naming, texts, most, data_disk) in [
        (
            "extract a.dsk --fs dos --order dos --into out",
            Naming::Naps,
            false,
            1 << 30,
            false,
        ),
        (
            "extract --into out --names naps --fs dos a.dsk --order dos --data-disk",
            Naming::Naps,
            false,
            1 << 30,
            true,
        ),
        (
            "extract a.dsk --fs dos --texts --order dos --into out",
            Naming::Naps,
            true,
            1 << 30,
            false,
        ),
        (
            "extract a.dsk --most 0 --names plain --order dos --fs dos --into out",
            Naming::Plain,
            false,
            0,
            false,
        ),
        (
            "extract --texts --data-disk a.dsk --most 7 --names plain --order dos --fs dos --into out",
            Naming::Plain,
            true,
            7,
            true,
        ),
    ] {
        let mut dos = volume(FileSystem::Dos, Order::Dos);
        dos.data_disk = data_disk;
        let input = image_at(rt.alloc(), "a.dsk", ImageReading::Volume(dos))?;
        let options = ExtractOptions {
            naming,
            texts,
            most,
        };
        let ask = Ask::Volume(VolumeAsk::Extract(options));
        let folder = Target::Folder("out".to_string(rt.alloc())?);
        asks(&rt, rt.alloc(), line, input, ask, folder)?;
    }
    Ok(())
}

#[test]
fn words_that_extract_nothing_are_refused(rt: HostRuntime) {
    for (line, wrong) in [
        ("extract a.dsk --fs dos --order dos", "--into"),
        (
            "extract a.dsk --into out --fs dos --order dos --names both",
            "both",
        ),
        (
            "extract a.dsk --into out --fs dos --order dos --out b.dsk",
            "--out",
        ),
        (
            "extract a.dsk --into out --fs dos --order dos --most 18446744073709551616",
            "18446744073709551616",
        ),
        (
            "extract a.dsk --texts --into out --fs dos --order dos --texts",
            "'--texts' cannot be used multiple times",
        ),
    ] {
        refuses(&rt, rt.alloc(), line, wrong, "a2shop extract");
    }
}

#[test]
fn readable_forms_are_those_of_an_extraction(rt: HostRuntime) {
    for (line, usage) in [
        (
            "list a.dsk --fs dos --order dos --texts",
            "Usage: a2shop list ",
        ),
        (
            "read a.dsk HELLO --fs dos --order dos --texts",
            "Usage: a2shop read ",
        ),
        (
            "save a.dsk HELLO --fs dos --order dos --from hello --in-place --texts",
            "Usage: a2shop save ",
        ),
    ] {
        refuses(&rt, rt.alloc(), line, "'--texts'", usage);
    }
}

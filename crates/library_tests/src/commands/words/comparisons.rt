// The words of a comparison, and of a list that tells places.
use super::{asks, image_at, refuses, volume};
use a2_device::Order;
use shop_help::WordsFault;
use shop_jobs::{
    Ask, Beside, CompareOptions, FileSystem, ImageReading, Input, ListForm, ListOptions, Look,
    OrderSaid, Source, Target, VolumeAsk,
};
use std::alloc::{AllocError, Global};
use std::process::Abort;
use std::test::Fail;

/// The DOS volume of a.dsk, in DOS order.
fn dos_volume(alloc: Global) -> Result<Input, AllocError> {
    let reading = ImageReading::Volume(volume(FileSystem::Dos, Order::Dos));
    image_at(alloc, "a.dsk", reading)
}

/// The words of a line compare a.dsk with b.dsk, in this order, so.
fn compares(
    rt: &impl Abort,
    alloc: Global,
    line: &str,
    other_order: Order,
    options: CompareOptions,
) -> Result<(), WordsFault> {
    let mut input = dos_volume(alloc)?;
    input.beside = Beside::Image {
        source: Source::File("b.dsk".to_string(alloc)?),
        order: OrderSaid::Is(other_order),
    };
    let ask = Ask::Volume(VolumeAsk::Look(Look::Compare(options)));
    asks(rt, alloc, line, input, ask, Target::Nothing)
}

#[test]
fn a_comparison_names_two_images(rt: HostRuntime) -> Result<(), Fail> {
    for (line, other_order, all, most) in [
        (
            "compare a.dsk b.dsk --fs dos --order dos",
            Order::Dos,
            false,
            1 << 30,
        ),
        (
            "compare a.dsk b.dsk --fs dos --order dos --other-order nibble --all",
            Order::Nibble,
            true,
            1 << 30,
        ),
        (
            "compare --most 7 a.dsk --order dos b.dsk --other-order prodos --fs dos",
            Order::Prodos,
            false,
            7,
        ),
    ] {
        let options = CompareOptions { all, most };
        compares(&rt, rt.alloc(), line, other_order, options)?;
    }
    Ok(())
}

#[test]
fn words_that_compare_nothing_are_refused(rt: HostRuntime) {
    for (line, wrong) in [
        ("compare a.dsk --fs dos --order dos", "<OTHER>"),
        ("compare - - --fs dos --order dos", "-"),
        (
            "compare a.dsk b.dsk --fs dos --order dos --other-order cpm",
            "cpm",
        ),
    ] {
        refuses(&rt, rt.alloc(), line, wrong, "a2shop compare");
    }
}

#[test]
fn places_are_told_in_json_alone(rt: HostRuntime) -> Result<(), Fail> {
    let places = Look::Entries(ListOptions {
        form: ListForm::Json,
        digests: true,
        places: true,
        most: 1 << 30,
    });
    let line = "list a.dsk --places --fs dos --order dos --digests --format json";
    let ask = Ask::Volume(VolumeAsk::Look(places));
    let input = dos_volume(rt.alloc())?;
    asks(&rt, rt.alloc(), line, input, ask, Target::Nothing)?;
    for format in ["", " --format names", " --format csv"] {
        let line = format!(in rt.alloc(); "list a.dsk --fs dos --order dos --places{format}")?;
        refuses(&rt, rt.alloc(), line.as_str(), "--places", "a2shop list");
    }
    Ok(())
}

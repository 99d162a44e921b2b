// The words of conversions.
use super::{asks, image_at, refuses};
use a2_device::Order;
use shop_help::WordsFault;
use shop_jobs::{Ask, ImageReading, OrderSaid, Target};
use std::alloc::{AllocError, Global};
use std::process::Abort;
use std::test::Fail;

const CONVERT_USAGE: &str = "Usage: a2shop convert ";

/// The line of a conversion of a.dsk to b.nib, and these words.
fn conversion(alloc: Global, more: &str) -> Result<String, AllocError> {
    format!(in alloc; "convert a.dsk --order dos --to nibble --out b.nib {more}")
}

/// The words of a conversion and these are those of one with this volume number.
fn converts(rt: &impl Abort, alloc: Global, more: &str, volume: u8) -> Result<(), WordsFault> {
    let reading = ImageReading::Sectors(OrderSaid::Is(Order::Dos));
    let input = image_at(alloc, "a.dsk", reading)?;
    let convert = Ask::Convert {
        to: Order::Nibble,
        volume,
    };
    let output = Target::File("b.nib".to_string(alloc)?);
    let line = conversion(alloc, more)?;
    asks(rt, alloc, line.as_str(), input, convert, output)
}

/// The words of a conversion and these are refused, with a text that contains this and the usage.
fn refuses_conversion(
    rt: &impl Abort,
    alloc: Global,
    more: &str,
    wrong: &str,
) -> Result<(), AllocError> {
    let line = conversion(alloc, more)?;
    refuses(rt, alloc, line.as_str(), wrong, CONVERT_USAGE);
    Ok(())
}

#[test]
fn a_conversion_has_a_volume_number(rt: HostRuntime) -> Result<(), Fail> {
    for (more, volume) in [
        ("", 254),
        ("--data-disk", 254),
        ("--volume 0", 0),
        ("--volume 1", 1),
        ("--volume 254", 254),
        ("--volume 255", 255),
        ("--volume 00000000000000000000007", 7),
    ] {
        converts(&rt, rt.alloc(), more, volume)?;
    }
    Ok(())
}

/// A word that is no volume number is refused, with the numbers that are.
fn refuses_volume(rt: &impl Abort, alloc: Global, word: &str) -> Result<(), AllocError> {
    let more = format!(in alloc; "--volume {word}")?;
    let wrong = format!(in alloc;
        "invalid value '{word}' for '--volume <N>'\n  [a number from 0 to 255]"
    )?;
    refuses_conversion(rt, alloc, more.as_str(), wrong.as_str())
}

#[test]
fn other_volume_numbers_are_refused(rt: HostRuntime) -> Result<(), Fail> {
    for word in ["256", "18446744073709551617", "+5", "1e2", "0x10", "five"] {
        refuses_volume(&rt, rt.alloc(), word)?;
    }
    refuses_conversion(&rt, rt.alloc(), "--volume -1", "-1")?;
    Ok(())
}

#[test]
fn a_conversion_takes_no_other_words(rt: HostRuntime) -> Result<(), Fail> {
    for (more, wrong) in [
        ("--fs dos", "'--fs'"),
        ("--to dos", "'--to <ORDER>' cannot be used multiple times"),
        ("c.dsk", "'c.dsk'"),
    ] {
        refuses_conversion(&rt, rt.alloc(), more, wrong)?;
    }
    Ok(())
}

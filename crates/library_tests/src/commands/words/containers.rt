// The words of containers.
use super::{asks, image_at, refuses};
use a2_device::Order;
use shop_help::WordsFault;
use shop_jobs::{Ask, ImageReading, OrderSaid, Target, WrapOptions};
use std::alloc::Global;
use std::process::Abort;
use std::test::Fail;

const WRAP_USAGE: &str = "Usage: a2shop wrap ";

/// The words of a line make this container of a.dsk, in this order, for b.2mg.
fn wraps(
    rt: &impl Abort,
    alloc: Global,
    line: &str,
    order: Order,
    options: WrapOptions,
) -> Result<(), WordsFault> {
    let reading = ImageReading::Sectors(OrderSaid::Is(order));
    let input = image_at(alloc, "a.dsk", reading)?;
    let output = Target::NewFile("b.2mg".to_string(alloc)?);
    asks(rt, alloc, line, input, Ask::Wrap(options), output)
}

#[test]
fn a_container_is_made_by_its_words(rt: HostRuntime) -> Result<(), Fail> {
    let plain = WrapOptions {
        volume: None,
        comment: String::new(rt.alloc()),
        protect: false,
    };
    let line = "wrap a.dsk --order prodos --out b.2mg";
    wraps(&rt, rt.alloc(), line, Order::Prodos, plain)?;
    let told = WrapOptions {
        volume: Some(254),
        comment: "Side".to_string(rt.alloc())?,
        protect: true,
    };
    let line = "wrap a.dsk --out b.2mg --protect --volume 254 --comment Side --order dos";
    wraps(&rt, rt.alloc(), line, Order::Dos, told)?;
    Ok(())
}

#[test]
fn a_container_is_unwrapped_by_its_words(rt: HostRuntime) -> Result<(), Fail> {
    let input = image_at(rt.alloc(), "a.2mg", ImageReading::Bytes)?;
    let output = Target::NewFile("b.po".to_string(rt.alloc())?);
    let line = "unwrap a.2mg --out b.po";
    asks(&rt, rt.alloc(), line, input, Ask::Unwrap, output)?;
    Ok(())
}

#[test]
fn a_comment_may_have_so_many_bytes(rt: HostRuntime) -> Result<(), Fail> {
    let line = "wrap a.dsk --order dos --out b.2mg --comment";
    let comment = "x".repeat(rt.alloc(), 65_472)?;
    let longest = format!(in rt.alloc(); "{line} {comment}")?;
    let options = WrapOptions {
        volume: None,
        comment,
        protect: false,
    };
    wraps(&rt, rt.alloc(), longest.as_str(), Order::Dos, options)?;
    let longer = format!(in rt.alloc(); "{longest}x")?;
    let wrong = "for '--comment <TEXT>'\n  [a text of up to 65472 bytes]";
    refuses(&rt, rt.alloc(), longer.as_str(), wrong, WRAP_USAGE);
    Ok(())
}

#[test]
fn a_container_is_not_put_into_one(rt: HostRuntime) {
    let line = "wrap a.dsk --order 2img --out b.2mg";
    let wrong =
        "invalid value '2img' for '--order <ORDER>'\n  [possible values: auto, dos, prodos, nibble]";
    refuses(&rt, rt.alloc(), line, wrong, WRAP_USAGE);
}

//! Events on a ProDOS volume with a tree: a failed write that stands, a stop, and what a read gives before and after.
use crate::events::volumes::{Told, are_told};
use a2_device::Device;
use event_replay::{Event, replay};
use pro_format::Prodos;
use std::alloc::{AllocError, Global};
use std::test::Fail;
use test_volumes::{block_device, tree};
use vol_layout::Reserved;

/// The body of `BIG`: zeros, and three letters behind them.
pub fn big(alloc: Global) -> Result<Vec<u8>, AllocError> {
    let mut body = vec![in alloc; 0; 131_072]?;
    body.extend_from_slice(b"abc")?;
    Ok(body)
}

/// Whether the answers to events on the tree are those that were told, and how many writes the device counts.
pub fn on_tree(alloc: Global, events: &[Event], told: &[Told]) -> Result<(bool, u64), Fail> {
    let format = Prodos::new(alloc, Reserved::none(alloc));
    let Some(device) = block_device(tree(alloc)?) else {
        return Err("no device".into());
    };
    let (answers, device) = replay(alloc, device, &format, events);
    Ok((are_told(answers.as_slice(), told), device.writes()))
}

#[test]
fn a_failed_write_on_blocks_costs_no_move(rt: HostRuntime) -> Result<(), Fail> {
    let body = big(rt.alloc())?;
    let given = body.as_slice();
    let events = [
        Event::Step,
        Event::Step,
        Event::Step,
        Event::Step,
        Event::Step,
        Event::FailWrite(true),
        Event::Step,
        Event::Read(b"big"),
        Event::Stop,
        Event::Step,
        Event::Step,
        Event::Step,
        Event::Step,
        Event::Step,
        Event::Read(b"BIG"),
    ];
    let told = [
        Told::Stepped,
        Told::Stepped,
        Told::Stepped,
        Told::Stepped,
        Told::Stepped,
        Told::Stepped,
        Told::Refused,
        Told::Bytes(given),
        Told::Stepped,
        Told::Stepped,
        Told::Stepped,
        Told::Stepped,
        Told::Stepped,
        Told::Stepped,
        Told::Bytes(given),
    ];
    let (is_right, writes) = on_tree(rt.alloc(), &events, &told)?;
    assert!(rt; is_right && writes == 10);
    Ok(())
}

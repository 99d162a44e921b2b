//! Refused memory: whichever block is refused, the answers end where there is no memory for a session, and a read tells
//! the want of it.
use crate::events::volumes::{Told, answered, are_told, dos33};
use event_replay::Event;
use std::alloc::Global;
use std::test::Fail;
use test_volumes::{Refusing, hello};

// What was answered to a read and a stop.
#[derive(Clone, Copy, Debug, PartialEq, Eq)]
enum Answered {
    Nothing,
    TheRead,
    NoMemoryForTheRead,
    Both,
    NoMemoryThenTheStop,
    Otherwise,
}

// What is answered to a read and a stop over an allocator, and how many blocks are asked.
fn read_and_stop(alloc: Global, heap: Refusing<Global>) -> Result<(Answered, u64), Fail> {
    let format = dos33(alloc)?;
    let events = [Event::Read(b"HELLO"), Event::Stop];
    let body = Told::Bytes(&[0xa9, 0x00, 0x60]);
    let image = hello(alloc)?;
    let given = {
        let (answers, _device) = answered(&heap, image, &format, &events);
        let answers = answers.as_slice();
        if are_told(answers, &[]) {
            Answered::Nothing
        } else if are_told(answers, &[body]) {
            Answered::TheRead
        } else if are_told(answers, &[Told::NoMemory]) {
            Answered::NoMemoryForTheRead
        } else if are_told(answers, &[body, Told::Stepped]) {
            Answered::Both
        } else if are_told(answers, &[Told::NoMemory, Told::Stepped]) {
            Answered::NoMemoryThenTheStop
        } else {
            Answered::Otherwise
        }
    };
    Ok((given, heap.asked()))
}

#[test]
fn each_refused_block_is_told(rt: HostRuntime) -> Result<(), Fail> {
    let (given, asked) = read_and_stop(rt.alloc(), Refusing::none(rt.alloc()))?;
    assert!(rt; given == Answered::Both && asked > 0);
    for before in 0..asked {
        let (given, _) = read_and_stop(rt.alloc(), Refusing::one(rt.alloc(), before))?;
        let is_right = matches!(
            given,
            Answered::Nothing | Answered::TheRead | Answered::NoMemoryThenTheStop
        );
        assert!(rt; is_right, "{before}");
    }
    Ok(())
}

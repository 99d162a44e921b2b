use std::alloc::Global;
use std::test::Fail;
use test_volumes::Refusing;

/// Asks for three blocks, and tells which came and how many were asked.
fn three_blocks(heap: &Refusing<Global>) -> ([bool; 3], u64) {
    let came = [
        Box::new(heap, 1u8).is_ok(),
        Box::new(heap, 2u16).is_ok(),
        Box::new(heap, 3u32).is_ok(),
    ];
    (came, heap.asked())
}

#[test]
fn refuses_none(rt: HostRuntime) {
    let heap = Refusing::none(rt.alloc());
    assert!(rt; three_blocks(&heap) == ([true, true, true], 3));
}

#[test]
fn refuses_one(rt: HostRuntime) {
    let heap = Refusing::one(rt.alloc(), 1);
    assert!(rt; three_blocks(&heap) == ([true, false, true], 3));
}

#[test]
fn refuses_all_after(rt: HostRuntime) {
    let heap = Refusing::all_after(rt.alloc(), 1);
    assert!(rt; three_blocks(&heap) == ([true, false, false], 3));
}

/// A block that grows is asked anew.
#[test]
fn growing_asks(rt: HostRuntime) -> Result<(), Fail> {
    let heap = Refusing::one(rt.alloc(), 1);
    let mut numbers = Vec::with_capacity(&heap, 1)?;
    assert!(rt; numbers.push(1u8).is_ok());
    assert!(rt; numbers.push(2u8).is_err());
    assert!(rt; numbers.as_slice() == [1u8].as_slice());
    assert!(rt; heap.asked() == 2);
    Ok(())
}

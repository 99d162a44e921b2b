//! 2IMG files around an image.
use a2_device::Order;
use disk_container::{
    Container, ContainerFault, MOST_BYTES, WrapError, begins_like_container, container_of,
    keep_payload, take_shell, wrap,
};
use std::alloc::{AllocError, Global};
use std::test::Fail;
use test_volumes::Refusing;

/// The header of a disk in DOS order, of volume 254, that is not to be written, with a comment of six bytes.
static HEADER: [u8; 64] = [
    0x32, 0x49, 0x4d, 0x47, 0x41, 0x32, 0x53, 0x48, 0x40, 0x00, 0x01, 0x00, 0x00, 0x00, 0x00, 0x00,
    0xfe, 0x01, 0x00, 0x80, 0x00, 0x00, 0x00, 0x00, 0x40, 0x00, 0x00, 0x00, 0x00, 0x30, 0x02, 0x00,
    0x40, 0x30, 0x02, 0x00, 0x06, 0x00, 0x00, 0x00, 0x00, 0x00, 0x00, 0x00, 0x00, 0x00, 0x00, 0x00,
    0x00, 0x00, 0x00, 0x00, 0x00, 0x00, 0x00, 0x00, 0x00, 0x00, 0x00, 0x00, 0x00, 0x00, 0x00, 0x00,
];

#[test]
fn a_disk_is_wrapped_and_unwrapped(rt: HostRuntime) -> Result<(), Fail> {
    let image = vec![in rt.alloc(); 0x5a; 143_360]?;
    let file = wrap(rt.alloc(), Order::Dos, Some(254), b"Side A", true, &image)?;
    assert!(rt; file.len() == 143_430);
    assert!(rt; &file.as_slice()[..64] == HEADER.as_slice());
    assert!(rt; &file.as_slice()[143_424..] == b"Side A".as_slice());
    let container = Container {
        order: Order::Dos,
        protected: true,
        volume: Some(254),
        start: 64,
        size: 143_360,
    };
    assert!(rt; container_of(&file) == Ok(container));
    assert!(rt; begins_like_container(&file) && !begins_like_container(&image));
    Ok(())
}

/// Whether a file with another byte at this place has this fault.
fn has_fault(file: &mut [u8], at: usize, byte: u8, fault: ContainerFault) -> bool {
    let Some(place) = file.get_mut(at) else {
        return false;
    };
    let before = *place;
    *place = byte;
    let is_fault = container_of(file) == Err(fault);
    if let Some(place) = file.get_mut(at) {
        *place = before;
    }
    is_fault
}

#[test]
fn each_fault_is_told(rt: HostRuntime) -> Result<(), Fail> {
    let image = vec![in rt.alloc(); 0; 143_360]?;
    let mut file = wrap(rt.alloc(), Order::Dos, None, b"", false, &image)?;
    assert!(rt; has_fault(&mut file, 3, 0x48, ContainerFault::Magic));
    assert!(rt; has_fault(&mut file, 8, 63, ContainerFault::Header));
    assert!(rt; has_fault(&mut file, 12, 3, ContainerFault::Format));
    assert!(rt; has_fault(&mut file, 24, 63, ContainerFault::Data));
    assert!(rt; has_fault(&mut file, 29, 0x2f, ContainerFault::Length));
    assert!(rt; container_of(&HEADER[..63]) == Err(ContainerFault::Header));
    Ok(())
}

#[test]
fn what_can_t_be_wrapped_is_told(rt: HostRuntime) -> Result<(), Fail> {
    let image = vec![in rt.alloc(); 0; 143_359]?;
    let order = Order::Dos;
    let error = wrap(rt.alloc(), order, None, b"", false, &image).err();
    assert!(rt; error == Some(WrapError::Length));
    let image = vec![in rt.alloc(); 0; 143_360]?;
    let heap = Refusing::none(rt.alloc());
    assert!(rt; wrap(&heap, order, None, b"", false, &image).is_ok() && heap.asked() > 0);
    for before in 0..heap.asked() {
        let refusing = Refusing::one(rt.alloc(), before);
        let error = wrap(&refusing, order, None, b"", false, &image).err();
        assert!(rt; error == Some(WrapError::Memory), "{before}");
    }
    Ok(())
}

/// A container with a gap of two bytes behind its header, a payload of one byte over and over, and three bytes behind
/// it.
fn gapped(alloc: Global, payload: u8) -> Result<Vec<u8>, AllocError> {
    let mut file = Vec::from_slice(alloc, HEADER.as_slice())?;
    file[0x18] = 66;
    file.extend_from_slice(b"ab")?;
    file.resize(66 + 143_360, payload)?;
    file.extend_from_slice(b"xyz")?;
    Ok(file)
}

#[test]
fn a_payload_is_taken_out_of_its_shell_and_put_back(rt: HostRuntime) -> Result<(), Fail> {
    let mut file = gapped(rt.alloc(), 1)?;
    let container = container_of(&file)?;
    assert!(rt; container.start == 66 && container.size == 143_360);
    let shell = take_shell(rt.alloc(), &mut file, container)?;
    assert!(rt; file.len() == 143_360 && file.iter().all(|byte| *byte == 1));
    assert!(rt; shell.front.len() == 66 && shell.back.as_slice() == b"xyz".as_slice());
    let other = vec![in rt.alloc(); 2; 143_360]?;
    let wanted = gapped(rt.alloc(), 2)?;
    assert!(rt; shell.around(rt.alloc(), &other)?.as_slice() == wanted.as_slice());
    Ok(())
}

#[test]
fn a_payload_is_kept_alone(rt: HostRuntime) -> Result<(), Fail> {
    let mut file = gapped(rt.alloc(), 3)?;
    let container = container_of(&file)?;
    keep_payload(&mut file, container);
    assert!(rt; file.len() == 143_360 && file.iter().all(|byte| *byte == 3));
    assert_eq!(rt; MOST_BYTES, 33_619_456);
    Ok(())
}

#[test]
fn a_container_stays_whole_without_memory(rt: HostRuntime) -> Result<(), Fail> {
    let mut file = gapped(rt.alloc(), 1)?;
    let container = container_of(&file)?;
    for before in 1..3 {
        let heap = Refusing::one(rt.alloc(), before);
        let mut copy = Vec::from_slice(&heap, file.as_slice())?;
        assert!(rt; take_shell(&heap, &mut copy, container).is_err());
        assert!(rt; copy.as_slice() == file.as_slice());
    }
    let shell = take_shell(rt.alloc(), &mut file, container)?;
    let refusing = Refusing::one(rt.alloc(), 0);
    assert!(rt; shell.around(&refusing, file.as_slice()).is_err());
    Ok(())
}

use a2_device::{
    BLOCK_BYTES, DISK_BLOCKS, Device, DeviceError, FaultDevice, IMAGE_BYTES, NIBBLE_BYTES, Order,
};
use a2_image::{Image, SECTOR_BYTES};
use a2_media::{ImageDevice, LentDevice};
use std::test::Fail;

const ORDERS: [Order; 3] = [Order::Dos, Order::Prodos, Order::Nibble];

/// The DOS logical sectors of the eight blocks of a track.
const HALVES: [(u32, u32); 8] = [
    (0, 14),
    (13, 12),
    (11, 10),
    (9, 8),
    (7, 6),
    (5, 4),
    (3, 2),
    (1, 15),
];

const FAULT: Option<Result<(), DeviceError>> = Some(Err(DeviceError::Fault));

const DONE: Option<Result<(), DeviceError>> = Some(Ok(()));

/// A call for the sector at a place, each byte of which is the one given, and whether the device fails at it.
#[derive(Clone, Copy)]
pub enum Call {
    Reads(u32, u8),
    Writes(u32, u8),
    FailsToRead(u32),
    FailsToWrite(u32, u8),
}

/// The byte with which the sector at a DOS place is filled.
pub fn byte_of(place: u32) -> u8 {
    (place % 251) as u8
}

/// A disk of which each sector is filled with its byte, in this order.
fn numbered(rt: &HostRuntime, order: Order) -> Result<Image, Fail> {
    let mut bytes = vec![in rt.alloc(); 0; IMAGE_BYTES]?;
    for at in 0..IMAGE_BYTES {
        bytes[at] = byte_of((at / SECTOR_BYTES) as u32);
    }
    let image = opened(bytes, Order::Dos)?;
    Ok(image.convert(order, 254)?)
}

/// The tracks of that disk. On track 17 the data field of physical sector 2 is bad: DOS place 286, and the second half
/// of block 136.
pub fn damaged(rt: &HostRuntime) -> Result<Vec<u8>, Fail> {
    let mut bytes = numbered(rt, Order::Nibble)?.into_bytes();
    if bytes.len() == NIBBLE_BYTES {
        bytes[17 * 6656 + 71 + 2 * 396] = 0xAA;
    }
    Ok(bytes)
}

/// Whether an image is still those tracks.
fn is_damaged(rt: &HostRuntime, image: Image) -> Result<bool, Fail> {
    Ok(image.into_bytes().as_slice() == damaged(rt)?.as_slice())
}

/// A block of two sectors that are filled with one byte each.
fn block_of(front: u8, rear: u8) -> [u8; BLOCK_BYTES] {
    let mut block = [front; BLOCK_BYTES];
    block[SECTOR_BYTES..].copy_from_slice(&[rear; SECTOR_BYTES]);
    block
}

pub fn opened(bytes: Vec<u8>, order: Order) -> Result<Image, Fail> {
    match Image::open(bytes, order) {
        Ok(image) => Ok(image),
        Err((error, _)) => Err(error.into()),
    }
}

pub fn dos_device(image: Image) -> Result<ImageDevice, Fail> {
    if image.blocks() == DISK_BLOCKS {
        return Ok(ImageDevice::dos(image));
    }
    Err("another size".into())
}

/// The sectors of a disk that is lent.
fn lent_disk(image: &Image) -> Result<LentDevice<'_>, Fail> {
    if image.blocks() == DISK_BLOCKS {
        return Ok(LentDevice::dos(image));
    }
    Err("another size".into())
}

/// The sectors of the disk in this order.
pub fn disk(rt: &HostRuntime, order: Order) -> Result<ImageDevice, Fail> {
    dos_device(numbered(rt, order)?)
}

fn size<D: Device>(device: &D) -> (u32, usize) {
    (device.places(), device.unit())
}

pub fn counts<D: Device>(device: &D) -> (u64, u64) {
    (device.writes(), device.faults())
}

/// A device that fails at its next write; `took` says whether the new sector stands.
pub fn failing_at_a_write<D: Device>(device: D, took: bool) -> FaultDevice<D> {
    let mut device = FaultDevice::new(device);
    device.fail_write(took);
    device
}

/// Reads where the device has the place and the unit its size.
fn read<D: Device>(device: &mut D, place: u32, unit: &mut [u8]) -> Option<Result<(), DeviceError>> {
    if place < device.places() && unit.len() == device.unit() {
        return Some(device.read(place, unit));
    }
    None
}

/// Writes where the device has the place and the unit its size.
fn write<D: Device>(device: &mut D, place: u32, unit: &[u8]) -> Option<Result<(), DeviceError>> {
    if place < device.places() && unit.len() == device.unit() {
        return Some(device.write(place, unit));
    }
    None
}

/// Whether a device answers a call so.
pub fn answers<D: Device>(device: &mut D, call: Call) -> bool {
    match call {
        Call::Reads(place, byte) => {
            let mut unit = [!byte; SECTOR_BYTES];
            read(device, place, &mut unit) == DONE && unit == [byte; SECTOR_BYTES]
        }
        Call::Writes(place, byte) => write(device, place, &[byte; SECTOR_BYTES]) == DONE,
        Call::FailsToRead(place) => read(device, place, &mut [0; SECTOR_BYTES]) == FAULT,
        Call::FailsToWrite(place, byte) => write(device, place, &[byte; SECTOR_BYTES]) == FAULT,
    }
}

/// The number of the first call that a device answers otherwise.
pub fn wrong_call<D: Device>(device: &mut D, calls: &[Call]) -> Option<usize> {
    for (number, call) in calls.iter().enumerate() {
        if !answers(device, *call) {
            return Some(number);
        }
    }
    None
}

/// The first place of a disk whose sector is filled neither with its byte nor with the one that was written there.
fn wrong_sector<D: Device>(device: &mut D, written: &[(u32, u8)]) -> Option<u32> {
    for place in 0..560 {
        let mut byte = byte_of(place);
        for (at, other) in written {
            if *at == place {
                byte = *other;
            }
        }
        if !answers(device, Call::Reads(place, byte)) {
            return Some(place);
        }
    }
    None
}

/// The first block of a disk that has not the bytes of its two sectors.
fn wrong_block<D: Device>(device: &mut D) -> Option<u32> {
    let mut unit = [0; BLOCK_BYTES];
    for block in 0..280u32 {
        let (front, rear) = HALVES[block as usize % 8];
        let first = block / 8 * 16;
        let want = block_of(byte_of(first + front), byte_of(first + rear));
        if read(device, block, &mut unit) != DONE || unit != want {
            return Some(block);
        }
    }
    None
}

/// The first of so many places that is not as it should be: one can't be read, and the others can.
fn wrong_read<D: Device>(
    device: &mut D,
    places: u32,
    unit: &mut [u8],
    missing: u32,
) -> Option<u32> {
    for place in 0..places {
        let want = if place == missing { FAULT } else { DONE };
        if read(device, place, unit) != want {
            return Some(place);
        }
    }
    None
}

/// Whether an image has a sector that is filled with a byte.
fn has_sector(image: &Image, track: u8, sector: u8, byte: u8) -> bool {
    let mut content = [0; SECTOR_BYTES];
    image.sector(track, sector, &mut content).is_ok() && content == [byte; SECTOR_BYTES]
}

#[test]
fn reads_each_sector_in_each_order(rt: HostRuntime) -> Result<(), Fail> {
    for order in ORDERS {
        let mut device = disk(&rt, order)?;
        assert!(rt; size(&device) == (560, 256));
        assert!(rt; wrong_sector(&mut device, &[]).is_none());
        assert!(rt; counts(&device) == (0, 0));
    }
    Ok(())
}

#[test]
fn reads_each_block_in_each_order(rt: HostRuntime) -> Result<(), Fail> {
    for order in ORDERS {
        let mut device = ImageDevice::prodos(numbered(&rt, order)?);
        assert!(rt; size(&device) == (280, 512));
        assert!(rt; wrong_block(&mut device).is_none());
    }
    Ok(())
}

#[test]
fn writes_a_sector_in_each_order(rt: HostRuntime) -> Result<(), Fail> {
    for order in ORDERS {
        let mut device = disk(&rt, order)?;
        assert!(rt; answers(&mut device, Call::Writes(17, 0xFF)));
        assert!(rt; counts(&device) == (1, 0));
        assert!(rt; wrong_sector(&mut device, &[(17, 0xFF)]).is_none());
        let image = device.into_image();
        assert!(rt; image.order() == order);
        assert!(rt; has_sector(&image, 1, 13, 0xFF));
    }
    Ok(())
}

#[test]
fn reads_a_lent_image_in_each_order(rt: HostRuntime) -> Result<(), Fail> {
    for order in ORDERS {
        let image = numbered(&rt, order)?;
        let mut sectors = lent_disk(&image)?;
        assert!(rt; size(&sectors) == (560, 256));
        assert!(rt; wrong_sector(&mut sectors, &[]).is_none());
        let mut blocks = LentDevice::prodos(&image);
        assert!(rt; size(&blocks) == (280, 512));
        assert!(rt; wrong_block(&mut blocks).is_none());
    }
    Ok(())
}

#[test]
fn a_lent_image_takes_no_write(rt: HostRuntime) -> Result<(), Fail> {
    let image = opened(damaged(&rt)?, Order::Nibble)?;
    let mut device = lent_disk(&image)?;
    let calls = [
        Call::FailsToWrite(5, 0xFF),
        Call::Reads(5, 5),
        Call::FailsToRead(286),
    ];
    assert!(rt; wrong_call(&mut device, &calls).is_none());
    assert!(rt; counts(&device) == (1, 2));
    assert!(rt; is_damaged(&rt, image)?);
    Ok(())
}

/// A disk in this order after a write to its block 9; `None` where the block is not read back.
fn written_block(rt: &HostRuntime, order: Order) -> Result<Option<Image>, Fail> {
    let block = block_of(0xFE, 0xFF);
    let mut device = ImageDevice::prodos(numbered(rt, order)?);
    let mut unit = [0; BLOCK_BYTES];
    if write(&mut device, 9, &block) != DONE || read(&mut device, 9, &mut unit) != DONE {
        return Ok(None);
    }
    Ok((unit == block).then_some(device.into_image()))
}

#[test]
fn writes_a_block_in_each_order(rt: HostRuntime) -> Result<(), Fail> {
    for order in ORDERS {
        let image = written_block(&rt, order)?.ok_or("not read back")?;
        let mut device = dos_device(image)?;
        assert!(rt; wrong_sector(&mut device, &[(29, 0xFE), (28, 0xFF)]).is_none());
    }
    Ok(())
}

/// The first of 16 blocks that is not filled with zeros, or the last one with sevens.
fn wrong_small_block<D: Device>(device: &mut D) -> Option<u32> {
    let mut unit = [9; BLOCK_BYTES];
    for block in 0..16 {
        let byte = if block == 15 { 7 } else { 0 };
        if read(device, block, &mut unit) != DONE || unit != [byte; BLOCK_BYTES] {
            return Some(block);
        }
    }
    None
}

#[test]
fn has_blocks_of_another_size(rt: HostRuntime) -> Result<(), Fail> {
    let bytes = vec![in rt.alloc(); 0; 8192]?;
    let mut device = ImageDevice::prodos(opened(bytes, Order::Prodos)?);
    assert!(rt; size(&device) == (16, 512));
    assert!(rt; write(&mut device, 15, &[7; BLOCK_BYTES]) == DONE);
    assert!(rt; wrong_small_block(&mut device).is_none());
    let bytes = device.into_image().into_bytes();
    assert!(rt; bytes.len() == 8192);
    assert!(rt; (bytes[7679], bytes[7680], bytes[8191]) == (0, 7, 7));
    Ok(())
}

#[test]
fn a_missing_sector_is_a_fault(rt: HostRuntime) -> Result<(), Fail> {
    let mut device = dos_device(opened(damaged(&rt)?, Order::Nibble)?)?;
    assert!(rt; wrong_read(&mut device, 560, &mut [0; SECTOR_BYTES], 286).is_none());
    assert!(rt; counts(&device) == (0, 1));
    assert!(rt; answers(&mut device, Call::FailsToWrite(286, 1)));
    assert!(rt; counts(&device) == (1, 2));
    assert!(rt; is_damaged(&rt, device.into_image())?);
    Ok(())
}

#[test]
fn a_block_with_one_sector_missing_is_a_fault(rt: HostRuntime) -> Result<(), Fail> {
    let mut device = ImageDevice::prodos(opened(damaged(&rt)?, Order::Nibble)?);
    assert!(rt; wrong_read(&mut device, 280, &mut [0; BLOCK_BYTES], 136).is_none());
    assert!(rt; write(&mut device, 136, &[1; BLOCK_BYTES]) == FAULT);
    assert!(rt; counts(&device) == (1, 2));
    let image = device.into_image();
    assert!(rt; has_sector(&image, 17, 0, byte_of(272)));
    assert!(rt; is_damaged(&rt, image)?);
    Ok(())
}

#[test]
fn errors_print(rt: HostRuntime) -> Result<(), Fail> {
    let text = format!(in rt.alloc(); "{}; {}", DeviceError::Spent, DeviceError::Fault)?;
    assert!(rt; text.as_str() == "the write count is at its last value; the device failed");
    Ok(())
}

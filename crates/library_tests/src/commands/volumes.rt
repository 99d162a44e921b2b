// Volumes without a file: `new_image`. The program's tests compare each byte of them.
use a2_device::Order;
use new_volumes::{NewVolume, NewVolumeError, new_image};
use pro_dir::ProDate;
use std::alloc::Global;

/// The image of an empty DOS 3.3 disk.
fn new_disk(alloc: Global, order: Order) -> Result<Vec<u8>, NewVolumeError> {
    let disk = NewVolume::Dos {
        volume: 254,
        data_disk: false,
    };
    new_image(alloc, disk, order, 254, None)
}

/// The image of an empty ProDOS volume of this many blocks, with the first blocks of another image.
fn new_blocks(
    alloc: Global,
    blocks: u16,
    boot: Option<Vec<u8>>,
) -> Result<Vec<u8>, NewVolumeError> {
    let volume = NewVolume::Prodos {
        blocks,
        name: b"A",
        date: ProDate([0; 4]),
    };
    new_image(alloc, volume, Order::Prodos, 254, boot)
}

/// Whether an empty disk has so many bytes.
fn has_length(alloc: Global, order: Order, length: usize) -> bool {
    match new_disk(alloc, order) {
        Ok(image) => image.len() == length,
        Err(_) => false,
    }
}

#[test]
fn an_empty_disk_has_the_length_of_its_order(rt: HostRuntime) {
    for (order, length) in [
        (Order::Dos, 143_360),
        (Order::Prodos, 143_360),
        (Order::Nibble, 232_960),
    ] {
        assert!(rt; has_length(rt.alloc(), order, length));
    }
}

/// The bytes of a volume from an offset on; none where there is no volume.
fn bytes_at(image: &Result<Vec<u8>, NewVolumeError>, from: usize, to: usize) -> &[u8] {
    match image {
        Ok(image) => image.as_slice().get(from..to).unwrap_or(b""),
        Err(_) => b"",
    }
}

#[test]
fn an_empty_volume_has_its_name_and_its_map(rt: HostRuntime) {
    let image = new_blocks(rt.alloc(), 16, None);
    assert!(rt; bytes_at(&image, 1028, 1030) == b"\xf1A".as_slice());
    assert!(rt; bytes_at(&image, 1065, 1067) == b"\x10\x00".as_slice());
    assert!(rt; bytes_at(&image, 3072, 3075) == b"\x01\xff\x00".as_slice());
}

/// Why there is no volume of so many blocks, with the first blocks of an image of so many bytes.
fn error_of(alloc: Global, blocks: u16, boot: usize) -> Option<NewVolumeError> {
    let boot = vec![in alloc; 0; boot];
    new_blocks(alloc, blocks, boot.ok()).err()
}

#[test]
fn a_volume_that_can_not_be_is_refused(rt: HostRuntime) {
    for (blocks, boot, wanted) in [
        (15, 0, Some(NewVolumeError::Length)),
        (16, 8_191, Some(NewVolumeError::BootLength)),
        (16, 8_192, None),
    ] {
        assert!(rt;
            error_of(rt.alloc(), blocks, boot) == wanted,
            "for {blocks}"
        );
    }
}

use a2_device::{BLOCK_BYTES, IMAGE_BYTES, NIBBLE_BYTES, Order, block_to_phys, dos_to_phys};
use a2_image::{Image, ImageError, SECTOR_BYTES, sectors_of_block};
use std::alloc::Allocator;
use std::test::Fail;
use test_volumes::Refusing;

const TRACK: usize = 6656;

/// A disk on which physical sector i of each track is filled with byte i.
fn numbered(rt: &HostRuntime) -> Result<Image, Fail> {
    let mut bytes = vec![in rt.alloc(); 0; IMAGE_BYTES]?;
    for at in 0..IMAGE_BYTES {
        bytes[at] = dos_to_phys((at / SECTOR_BYTES % 16) as u8);
    }
    Ok(opened(bytes, Order::Dos)?)
}

fn opened<A: Allocator + Copy>(bytes: Vec<u8, A>, order: Order) -> Result<Image<A>, ImageError> {
    match Image::open(bytes, order) {
        Ok(image) => Ok(image),
        Err((error, _)) => Err(error),
    }
}

/// A disk of zeros in DOS order, in another order.
fn converted<A: Allocator + Copy>(alloc: A, order: Order) -> Result<(), ImageError> {
    let bytes = vec![in alloc; 0; IMAGE_BYTES]?;
    opened(bytes, Order::Dos)?.convert(order, 254)?;
    Ok(())
}

/// Tracks of zeros.
fn opened_tracks<A: Allocator + Copy>(alloc: A) -> Result<(), ImageError> {
    let bytes = vec![in alloc; 0; NIBBLE_BYTES]?;
    opened(bytes, Order::Nibble)?;
    Ok(())
}

/// The bytes of a disk of which each sector is another.
fn varied(rt: &HostRuntime) -> Result<Vec<u8>, Fail> {
    let mut bytes = Vec::with_capacity(rt.alloc(), IMAGE_BYTES)?;
    for at in 0..IMAGE_BYTES {
        bytes.push((at / 251 % 256) as u8)?;
    }
    Ok(bytes)
}

/// The tracks of that disk, of volume 254. On track 17 the data field of sector 0 and that of sector 5 are bad, and
/// sector 15 has the address field of sector 0.
fn damaged(rt: &HostRuntime) -> Result<Vec<u8>, Fail> {
    let mut bytes = numbered(rt)?.convert(Order::Nibble, 254)?.into_bytes();
    if bytes.len() == NIBBLE_BYTES {
        let track = &mut bytes[17 * TRACK..18 * TRACK];
        track[71] = 0xAA;
        track[2051] = 0xAA;
        track[5988..5999].copy_from_slice(&[
            0xD5, 0xAA, 0x96, 0xFF, 0xFE, 0xAA, 0xBB, 0xAA, 0xAA, 0xFF, 0xEF,
        ]);
    }
    Ok(bytes)
}

#[test]
fn numbers_sectors_and_blocks(rt: HostRuntime) {
    let physical = [0, 13, 11, 9, 7, 5, 3, 1, 14, 12, 10, 8, 6, 4, 2, 15];
    for sector in 0..16u8 {
        assert!(rt; dos_to_phys(sector) == physical[usize::from(sector)]);
    }
    let halves = [
        (0, 2),
        (4, 6),
        (8, 10),
        (12, 14),
        (1, 3),
        (5, 7),
        (9, 11),
        (13, 15),
    ];
    for block in 0..8u8 {
        assert!(rt; block_to_phys(block) == halves[usize::from(block)]);
    }
    assert!(rt; sectors_of_block(0) == (0, 0, 2));
    assert!(rt; sectors_of_block(279) == (34, 13, 15));
}

/// The order and the blocks of an image of these bytes, or why there is none, and how many bytes come back.
fn opening(bytes: Vec<u8>, order: Order) -> (Order, Result<u32, ImageError>, usize) {
    match Image::open(bytes, order) {
        Ok(image) => {
            let (order, blocks) = (image.order(), image.blocks());
            (order, Ok(blocks), image.into_bytes().len())
        }
        Err((error, bytes)) => (order, Err(error), bytes.len()),
    }
}

#[test]
fn takes_each_length(rt: HostRuntime) -> Result<(), Fail> {
    let refused = Err(ImageError::Length);
    for (order, length, blocks) in [
        (Order::Dos, 143_360, Ok(280)),
        (Order::Dos, 143_359, refused),
        (Order::Dos, 8_192, refused),
        (Order::Prodos, 143_360, Ok(280)),
        (Order::Prodos, 8_192, Ok(16)),
        (Order::Prodos, 33_553_920, Ok(65_535)),
        (Order::Prodos, 33_554_432, refused),
        (Order::Prodos, 7_680, refused),
        (Order::Prodos, 143_361, refused),
        (Order::Nibble, 232_960, Ok(280)),
        (Order::Nibble, 143_360, refused),
    ] {
        let bytes = vec![in rt.alloc(); 7; length]?;
        assert!(rt; opening(bytes, order) == (order, blocks, length));
    }
    Ok(())
}

#[test]
fn converts_there_and_back(rt: HostRuntime) -> Result<(), Fail> {
    let bytes = varied(&rt)?;
    let image = opened(varied(&rt)?, Order::Dos)?;
    for order in [Order::Dos, Order::Prodos, Order::Nibble] {
        let other = image.convert(order, 254)?;
        assert!(rt; other.order() == order);
        let back = other.convert(Order::Dos, 1)?.into_bytes();
        assert!(rt; back.as_slice() == bytes.as_slice());
    }
    Ok(())
}

#[test]
fn converts_a_block(rt: HostRuntime) -> Result<(), Fail> {
    let mut image = opened(vec![in rt.alloc(); 0; IMAGE_BYTES]?, Order::Prodos)?;
    let mut block = [1; BLOCK_BYTES];
    for at in SECTOR_BYTES..BLOCK_BYTES {
        block[at] = 2;
    }
    assert!(rt; image.set_block(8, &block) == Ok(()));
    assert!(rt; image.set_block(280, &block) == Err(ImageError::Number));
    let mut read = [0; BLOCK_BYTES];
    assert!(rt; image.block(8, &mut read) == Ok(()));
    assert!(rt; read == block);
    let bytes = image.convert(Order::Dos, 254)?.into_bytes();
    assert!(rt; bytes.len() == IMAGE_BYTES);
    for at in 0..IMAGE_BYTES {
        let want = if 4096 <= at && at <= 4351 {
            1
        } else if 7680 <= at && at <= 7935 {
            2
        } else {
            0
        };
        assert!(rt; bytes[at] == want, "at {at}");
    }
    Ok(())
}

/// The byte that fills a sector; `None` where it has several.
fn filling(image: &Image, track: u8, sector: u8) -> Result<Option<u8>, ImageError> {
    let mut content = [9; SECTOR_BYTES];
    image.sector(track, sector, &mut content)?;
    let byte = content[0];
    Ok((content == [byte; SECTOR_BYTES]).then_some(byte))
}

fn fill(image: &mut Image, track: u8, sector: u8, byte: u8) -> Result<(), ImageError> {
    image.set_sector(track, sector, &[byte; SECTOR_BYTES])
}

/// The first byte that differs outside the field of sector 0 of track 17 that counts on the damaged track.
fn changed_outside(new: &[u8], old: &[u8]) -> Option<usize> {
    for (at, byte) in new.iter().enumerate() {
        let is_outside = at < 17 * TRACK + 6011 || at > 17 * TRACK + 6353;
        if is_outside && old.get(at) != Some(byte) {
            return Some(at);
        }
    }
    None
}

/// What a read and then a write of a sector answer.
fn answers(
    image: &mut Image,
    track: u8,
    sector: u8,
) -> (Result<Option<u8>, ImageError>, Result<(), ImageError>) {
    (filling(image, track, sector), fill(image, track, sector, 0))
}

/// Whether an image is still the damaged tracks but for the field of sector 0 of track 17.
fn keeps_other_fields(rt: &HostRuntime, image: Image) -> Result<bool, Fail> {
    let (new, old) = (image.into_bytes(), damaged(rt)?);
    Ok(
        new.len() == NIBBLE_BYTES
            && old.len() == NIBBLE_BYTES
            && changed_outside(new.as_slice(), old.as_slice()).is_none(),
    )
}

#[test]
fn reads_and_writes_a_damaged_track(rt: HostRuntime) -> Result<(), Fail> {
    let mut image = opened(damaged(&rt)?, Order::Nibble)?;
    assert!(rt; filling(&image, 17, 0) == Ok(Some(0x0F)));
    assert!(rt; fill(&mut image, 17, 0, 0x5A) == Ok(()));
    assert!(rt; filling(&image, 17, 0) == Ok(Some(0x5A)));
    assert!(rt; image.sector_ref(17, 0).is_none());
    assert!(rt; image.block_ref(137).is_none());
    assert!(rt; keeps_other_fields(&rt, image)?);
    Ok(())
}

#[test]
fn refuses_sectors_of_a_damaged_track(rt: HostRuntime) -> Result<(), Fail> {
    let mut image = opened(damaged(&rt)?, Order::Nibble)?;
    for (track, sector, error) in [
        (17, 5, ImageError::NoSector),
        (17, 15, ImageError::NoSector),
        (35, 0, ImageError::Number),
        (0, 16, ImageError::Number),
    ] {
        assert!(rt; answers(&mut image, track, sector) == (Err(error), Err(error)));
    }
    assert!(rt; image.into_bytes().as_slice() == damaged(&rt)?.as_slice());
    Ok(())
}

#[test]
fn lacks_blocks_of_a_damaged_track(rt: HostRuntime) -> Result<(), Fail> {
    let mut image = opened(damaged(&rt)?, Order::Nibble)?;
    let mut block = [0; BLOCK_BYTES];
    let error = Err(ImageError::NoSector);
    assert!(rt; image.block(141, &mut block) == error);
    assert!(rt; image.set_block(141, &block) == error);
    assert!(rt; image.block(142, &mut block) == Ok(()));
    for order in [Order::Dos, Order::Prodos, Order::Nibble] {
        assert!(rt; image.convert(order, 254).err() == Some(ImageError::NoSector));
    }
    assert!(rt; image.into_bytes().as_slice() == damaged(&rt)?.as_slice());
    Ok(())
}

#[test]
fn reads_the_first_of_two_fields(rt: HostRuntime) -> Result<(), Fail> {
    let mut bytes = damaged(&rt)?;
    assert!(rt; bytes.len() == NIBBLE_BYTES);
    bytes[17 * TRACK + 71] = 0x96;
    let mut image = opened(bytes, Order::Nibble)?;
    assert!(rt; filling(&image, 17, 0) == Ok(Some(0)));
    assert!(rt; fill(&mut image, 17, 0, 1) == Ok(()));
    assert!(rt; filling(&image, 17, 0) == Ok(Some(1)));
    Ok(())
}

#[test]
fn has_no_sectors_of_another_size(rt: HostRuntime) -> Result<(), Fail> {
    let mut image = opened(vec![in rt.alloc(); 0; 8192]?, Order::Prodos)?;
    let error = ImageError::Number;
    assert!(rt; answers(&mut image, 0, 0) == (Err(error), Err(error)));
    assert!(rt; image.sector_ref(0, 0).is_none());
    assert!(rt; image.convert(Order::Dos, 1).err() == Some(ImageError::Length));
    assert!(rt; image.set_block(15, &[7; BLOCK_BYTES]) == Ok(()));
    let mut block = [0; BLOCK_BYTES];
    assert!(rt; image.block(15, &mut block) == Ok(()));
    assert!(rt; block == [7; BLOCK_BYTES]);
    assert!(rt; image.block_ref(15) == Some([7; BLOCK_BYTES].as_slice()));
    assert!(rt; image.block_ref(16).is_none());
    assert!(rt; image.block(16, &mut block) == Err(ImageError::Number));
    Ok(())
}

#[test]
fn lends_sectors_and_blocks(rt: HostRuntime) -> Result<(), Fail> {
    let image = numbered(&rt)?;
    for order in [Order::Dos, Order::Prodos] {
        let image = image.convert(order, 254)?;
        for sector in 0..16u8 {
            assert!(rt; image.sector_ref(34, sector) == Some([sector; SECTOR_BYTES].as_slice()));
        }
        assert!(rt; image.sector_ref(35, 0).is_none());
        assert!(rt; image.sector_ref(0, 16).is_none());
    }
    assert!(rt; image.block_ref(279).is_none());
    let image = image.convert(Order::Prodos, 254)?;
    let mut block = [13; BLOCK_BYTES];
    block[SECTOR_BYTES..].fill(15);
    assert!(rt; image.block_ref(279) == Some(block.as_slice()));
    assert!(rt; image.block_ref(280).is_none());
    Ok(())
}

#[test]
fn writes_into_a_lent_sector(rt: HostRuntime) -> Result<(), Fail> {
    let image = numbered(&rt)?;
    for order in [Order::Dos, Order::Prodos] {
        let mut image = image.convert(order, 254)?;
        image.sector_mut(34, 5).fill(0xa5);
        for sector in 0..16u8 {
            let byte = if sector == 5 { 0xa5 } else { sector };
            assert!(rt; image.sector_ref(34, sector) == Some([byte; SECTOR_BYTES].as_slice()));
        }
        assert!(rt; image.sector_mut(35, 0).is_empty());
        assert!(rt; image.sector_mut(0, 16).is_empty());
    }
    let mut image = image.convert(Order::Nibble, 254)?;
    assert!(rt; image.sector_mut(17, 0).is_empty());
    Ok(())
}

#[test]
fn each_refused_block_is_memory(rt: HostRuntime) -> Result<(), Fail> {
    // The first block is the bytes that are opened.
    for (order, blocks) in [(Order::Dos, 2), (Order::Prodos, 2), (Order::Nibble, 3)] {
        for before in 0..=blocks {
            let heap = Refusing::one(rt.alloc(), before);
            let want = (before < blocks).then_some(ImageError::Memory);
            assert!(rt; converted(&heap, order).err() == want, "before {before}");
        }
    }
    for before in 0..=2u64 {
        let heap = Refusing::one(rt.alloc(), before);
        let want = (before < 2).then_some(ImageError::Memory);
        assert!(rt; opened_tracks(&heap).err() == want, "before {before}");
    }
    Ok(())
}

#[test]
fn errors_print(rt: HostRuntime) -> Result<(), Fail> {
    let text = format!(in rt.alloc();
        "{}; {}; {}; {}",
        ImageError::Length,
        ImageError::Memory,
        ImageError::Number,
        ImageError::NoSector
    )?;
    assert!(rt;
        text.as_str()
            == "the image has the wrong length for its order; memory ran out; \
         the disk has no such track or sector; the track has no such sector"
    );
    Ok(())
}

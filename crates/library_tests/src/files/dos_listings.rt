//! Listings of DOS 3.3 volumes: `catalog`, `dos_listing_text`.
ghost use Rattle.std.specs.Prelude.{◌≡◌, length, vec_len};
ghost use Rattle.a2_device.specs.Device.{DeviceState};

use a2_device::{Device, FaultDevice};
use dos_format::Dos33;
use file_cmds::{CmdError, catalog};
use file_listings::{EntryStyle, KnownFiles, dos_entries_text, dos_listing_text};
use std::alloc::{AllocError, Allocator, Global};
use std::test::Fail;
use test_volumes::{FIRST_CATALOG, Refusing, dos_device, dos_volume, hello, put_entry};
use vol_layout::Reserved;

/// DOS 3.3, with nothing reserved.
pub fn dos_33<A: Allocator + Copy>(alloc: A) -> Result<Dos33<A>, AllocError> {
    Dos33::new(alloc, false, Reserved::none(alloc))
}

/// The text of the listing of a volume.
fn listing_on<A: Allocator + Copy, D: Device>(
    alloc: A,
    device: &mut D,
) -> Result<Vec<u8, A>, CmdError>
    requires unit { (D.state device.old).unit_size ≡ 256 }
    requires places { (D.state device.old).places ≡ 560 }
{
    let format = dos_33(alloc)?;
    let listing = catalog(alloc, device, &format)?;
    Ok(dos_listing_text(alloc, &listing)?.into_bytes())
}

/// The text of the listing of a volume in DOS order.
fn listing_of<A: Allocator + Copy>(alloc: A, image: Vec<u8>) -> Result<Vec<u8, A>, CmdError>
    requires { vec_len image ≡ 143360 }
{
    listing_on(alloc, &mut dos_device(image))
}

/// The names of the files of a volume, a line each.
fn names_on<D: Device>(alloc: Global, device: &mut D) -> Result<Vec<u8>, CmdError>
    requires unit { (D.state device.old).unit_size ≡ 256 }
    requires places { (D.state device.old).places ≡ 560 }
{
    let format = dos_33(alloc)?;
    let listing = catalog(alloc, device, &format)?;
    let text = dos_entries_text(alloc, EntryStyle::Names, &listing, &KnownFiles::none(alloc))?;
    Ok(text.into_bytes())
}

/// The same of a volume in DOS order.
fn names_of(alloc: Global, image: Vec<u8>) -> Result<Vec<u8>, CmdError>
    requires { vec_len image ≡ 143360 }
{
    names_on(alloc, &mut dos_device(image))
}

#[test]
fn names_one_file(rt: HostRuntime) -> Result<(), Fail> {
    let text = names_of(rt.alloc(), hello(rt.alloc())?)?;
    assert!(rt; text.as_slice() == b"HELLO\n".as_slice());
    Ok(())
}

#[test]
fn lists_one_file(rt: HostRuntime) -> Result<(), Fail> {
    let text = listing_of(rt.alloc(), hello(rt.alloc())?)?;
    let lines = b"DISK VOLUME 254\n*B 002 HELLO\nFREE 494\n";
    assert!(rt; text.as_slice() == lines.as_slice());
    Ok(())
}

/// Entries of catalog sectors: the place of the sector, the slot, the track of the list, the kind, the name, and the
/// length in sectors. Two of the first sector are free, and one slot of the second.
static ENTRIES: [(usize, usize, u8, u8, &str, u8); 13] = [
    (FIRST_CATALOG, 0, 3, 0x00, "TEXT", 1),
    (FIRST_CATALOG, 1, 3, 0x81, "INTEGER", 2),
    (FIRST_CATALOG, 2, 0xff, 0x00, "DELETED", 3),
    (FIRST_CATALOG, 3, 0, 0x00, "NEVER USED", 3),
    (FIRST_CATALOG, 4, 3, 0x02, "APPLESOFT", 99),
    (FIRST_CATALOG, 5, 3, 0x04, "BINARY", 100),
    (FIRST_CATALOG, 6, 3, 0x08, "S", 0),
    (286, 0, 3, 0x10, "RELOCATABLE", 7),
    (286, 1, 3, 0x20, "SECOND A", 7),
    (286, 2, 3, 0x40, "SECOND B", 7),
    (286, 3, 3, 0x84, " LED BY A SPACE", 7),
    (286, 5, 3, 0xc0, "BELL\x07 AND DELETE\x7f", 7),
    (286, 6, 3, 0x03, "", 7),
];

/// Writes these entries.
fn put_entries(image: &mut [u8])
    requires { length image.old ≡ 143360 }
    ensures { length image.new ≡ 143360 }
{
    for (place, slot, track, kind, name, sectors) in &ENTRIES {
        let name = name.as_bytes();
        if *place < 560 && *slot < 7 && name.len() <= 30 {
            put_entry(image, *place, *slot, [*track, 15], *kind, name, *sectors);
        }
    }
}

#[test]
fn lists_each_kind_and_passes_over_free_entries(rt: HostRuntime) -> Result<(), Fail> {
    let mut image = dos_volume(rt.alloc(), [0xff, 0xff])?;
    put_entries(&mut image);
    let text = listing_of(rt.alloc(), image)?;
    let lines = b"DISK VOLUME 254\n T 001 TEXT\n*I 002 INTEGER\n A 099 APPLESOFT\n B 100 BINARY\n\
                 \x20S 000 S\n R 007 RELOCATABLE\n a 007 SECOND A\n b 007 SECOND B\n\
                 *B 007  LED BY A SPACE\n*b 007 BELL? AND DELETE?\n ? 007 \nFREE 496\n";
    assert!(rt; text.as_slice() == lines.as_slice());
    Ok(())
}

/// Why a listing fails where the read after so many others does, and how many faults the device has told.
fn failed_at_read(
    alloc: Global,
    image: Vec<u8>,
    reads: u32,
) -> Result<(Option<CmdError>, u64), Fail>
    requires { vec_len image ≡ 143360 }
{
    let mut device = FaultDevice::new(dos_device(image));
    let mut unit = [0; 256];
    for _ in 0..reads {
        device.read(272, &mut unit)?;
    }
    device.fail_read();
    let error = listing_on(alloc, &mut device).err();
    Ok((error, device.faults()))
}

#[test]
fn a_failing_read_is_told(rt: HostRuntime) -> Result<(), Fail> {
    for reads in [0, 3] {
        let answer = failed_at_read(rt.alloc(), hello(rt.alloc())?, reads)?;
        assert!(rt; answer == (Some(CmdError::Device), 1));
    }
    Ok(())
}

/// Why a listing over a heap fails, how long its text is, and how many blocks it asks for.
fn listed_over(
    alloc: Global,
    heap: Refusing<Global>,
) -> Result<(Option<CmdError>, usize, u64), AllocError> {
    let (error, bytes) = match listing_of(&heap, hello(alloc)?) {
        Ok(text) => (None, text.len()),
        Err(error) => (Some(error), 0),
    };
    Ok((error, bytes, heap.asked()))
}

#[test]
fn each_refused_block_is_memory(rt: HostRuntime) -> Result<(), Fail> {
    let (error, bytes, asked) = listed_over(rt.alloc(), Refusing::none(rt.alloc()))?;
    assert!(rt; error.is_none() && bytes == 38 && asked > 4);
    for before in 0..asked {
        let answer = listed_over(rt.alloc(), Refusing::one(rt.alloc(), before))?;
        assert!(rt; answer == (Some(CmdError::Memory), 0, before + 1));
    }
    Ok(())
}

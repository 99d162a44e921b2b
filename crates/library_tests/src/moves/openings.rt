//! What is known of a volume before its parts are moved, and why it is not opened.
ghost use Rattle.std.specs.Prelude.{◌≡◌, vec_len};

use crate::moves::volumes::{KEEP, RECLAIM, dos33, failing_device};
use a2_device::{Device, Fault};
use dos_format::DosVolume;
use std::alloc::{AllocError, Global};
use std::test::Fail;
use test_volumes::{dos_device, hello, put};
use vol_mover::{OpenError, Opening, Options};

// What is known of the volume on a device.
fn opened<D: Device>(
    alloc: Global,
    device: &mut D,
    data_disk: bool,
    options: Options,
) -> Result<Opening<DosVolume>, OpenError>
    requires unit { (D.state device.old).unit_size ≡ 256 }
    requires places { (D.state device.old).places ≡ 560 }
{
    match dos33(alloc, data_disk) {
        Ok(format) => Opening::read(alloc, device, &format, options),
        Err(_) => Err(OpenError::Memory),
    }
}

// The same of the volume of an image, and how many writes were made.
fn opened_image(
    alloc: Global,
    image: Vec<u8>,
    data_disk: bool,
    options: Options,
) -> (Result<Opening<DosVolume>, OpenError>, u64)
    requires { vec_len image ≡ 143360 }
{
    let mut device = dos_device(image);
    let opening = opened(alloc, &mut device, data_disk, options);
    (opening, device.writes())
}

// What is told of an opening in numbers: the available places, the lost ones, the moves of the plan and its rings.
fn numbers(opening: &Opening<DosVolume>) -> (u32, usize, usize, usize) {
    (
        opening.layout.places(),
        opening.lost.len(),
        opening.plan.moves.len(),
        opening.plan.rings.len(),
    )
}

// Whether the volume with `HELLO` is opened with no write, where its parts stand, and these numbers.
fn opens(
    alloc: Global,
    data_disk: bool,
    options: Options,
    at: &[u32],
    told: (u32, usize, usize, usize),
) -> Result<bool, AllocError> {
    Ok(
        match &opened_image(alloc, hello(alloc)?, data_disk, options) {
            (Ok(opening), 0) => opening.layout.at() == at && numbers(opening) == told,
            _ => false,
        },
    )
}

#[test]
fn tells_the_plan_of_a_volume(rt: HostRuntime) -> Result<(), Fail> {
    assert!(rt; opens(rt.alloc(), false, KEEP, &[1, 0], (496, 0, 3, 1))?);
    Ok(())
}

#[test]
fn lost_places_are_reclaimed(rt: HostRuntime) -> Result<(), Fail> {
    assert!(rt; opens(rt.alloc(), true, RECLAIM, &[33, 32], (528, 32, 2, 0))?);
    Ok(())
}

// What is printed of why the volume on a device is not opened.
fn refusal_text<D: Device>(
    alloc: Global,
    device: &mut D,
    data_disk: bool,
) -> Result<String, AllocError>
    requires unit { (D.state device.old).unit_size ≡ 256 }
    requires places { (D.state device.old).places ≡ 560 }
{
    match &opened(alloc, device, data_disk, KEEP) {
        Ok(_) => "opened".to_string(alloc),
        Err(error) => format!(in alloc; "{error}"),
    }
}

#[test]
fn lost_places_are_told(rt: HostRuntime) -> Result<(), Fail> {
    let mut device = dos_device(hello(rt.alloc())?);
    let text = refusal_text(rt.alloc(), &mut device, true)?;
    assert!(rt; text.as_str() == "32 places are marked used and belong to no file");
    assert!(rt; device.writes() == 0);
    Ok(())
}

#[test]
fn a_failed_read_is_told(rt: HostRuntime) -> Result<(), Fail> {
    let mut device = failing_device(rt.alloc())?;
    let text = refusal_text(rt.alloc(), &mut device, false)?;
    assert!(rt; text.as_str() == "the device failed");
    assert!(rt; device.faults() == 1);
    Ok(())
}

// Whether the volume of an image, as a data disk, is not opened for one fault, with no write.
fn refuses(alloc: Global, image: Vec<u8>, fault: Fault) -> bool
    requires { vec_len image ≡ 143360 }
{
    match &opened_image(alloc, image, true, KEEP) {
        (Err(OpenError::Check(faults)), 0) => faults.as_slice() == [fault].as_slice(),
        _ => false,
    }
}

#[test]
fn a_fault_comes_before_what_is_lost(rt: HostRuntime) -> Result<(), Fail> {
    let mut image = hello(rt.alloc())?;
    put(&mut image, 62, 0x0c, &[0x11, 0x01]);
    assert!(rt; refuses(rt.alloc(), image, Fault::InSystem(273)));
    Ok(())
}

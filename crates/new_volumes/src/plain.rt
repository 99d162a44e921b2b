// The bytes of an empty volume, unit behind unit.
ghost use Rattle.std.specs.Prelude.{◌≡◌, ◌≤◌, ◌<◌, ◌*◌, ◌⊎◌, Err, IfErr, IfOk, OnErr, OnOk, length, option_map};
ghost use Rattle.a2_device.specs.Order.{IsImageLength};
ghost use Rattle.a2_device.specs.declared.order.Order.TheVariants.{Nibble};
ghost use Rattle.a2_image.specs.Image.{block_count};
ghost use Rattle.a2_media.specs.declared.units.UnitKind.TheVariants.{Block, Sector};
ghost use Rattle.new_volumes.specs.Fields.{zeros};
ghost use Rattle.new_volumes.specs.Filling.{Filled};
ghost use Rattle.new_volumes.specs.NewImage.{IsBootUnit, IsImageOf, LacksBootUnit};
ghost use Rattle.new_volumes.specs.Plain.{IsPlain};
ghost use Rattle.new_volumes.specs.Wanted.{TakesBoot, NewDos, NewPro};

use crate::NewVolumeError;
use crate::boot::{copy_blocks, copy_sectors};
use crate::dos::write_track_17;
use crate::pro::write_system;
use a2_device::{BLOCK_BYTES, IMAGE_BYTES, Order};
use a2_image::Image;
use pro_dir::ProDate;
use std::alloc::{AllocError, Global};

// Takes the bytes of an image that has a length of its order.
pub(crate) fn opened(bytes: Vec<u8>, order: Order) -> Result<Image, NewVolumeError>
    requires { IsImageLength order (length bytes.items) }
    ensures image { IfOk result (IsImageOf order bytes.items) }
    ensures some { IfOk result (λ image. 2 ≤ block_count image) }
    ensures refused { IfErr result (λ e. (e ≡ NewVolumeError.Memory) × (order ≡ Nibble)) }
{
    match Image::open(bytes, order) {
        Ok(image) => {
            // Called for what its contract says: an image has 16 blocks at least.
            let _blocks = image.blocks();
            Ok(image)
        }
        Err(_) => Err(NewVolumeError::Memory),
    }
}

// Copies tracks 0 to 2 of an image, if one is given, into a disk of 00s.
fn copy_tracks(boot: Option<Vec<u8>>, order: Order, disk: &mut [u8]) -> Result<(), NewVolumeError>
    requires good { TakesBoot Sector order (option_map (λ b. b.items) boot) }
    requires zeroed { disk.old ≡ zeros 143360 }
    ensures copied { OnOk result
        (Filled 256 (IsBootUnit Sector order (option_map (λ b. b.items) boot)) 0 48 disk.old disk.new) }
    ensures refused { IfErr result (λ e. (e ≡ NewVolumeError.Memory)
        ⊎ ((e ≡ NewVolumeError.NoSector) × LacksBootUnit Sector 48 order (option_map (λ b. b.items) boot))) }
{
    match boot {
        None => Ok(()),
        Some(bytes) => copy_sectors(&opened(bytes, order)?, disk),
    }
}

// Copies blocks 0 and 1 of an image, if one is given, into an image of 00s.
fn copy_front(boot: Option<Vec<u8>>, order: Order, volume: &mut [u8]) -> Result<(), NewVolumeError>
    requires good { TakesBoot Block order (option_map (λ b. b.items) boot) }
    requires room { 1024 ≤ length volume.old }
    requires zeroed { volume.old ≡ zeros (length volume.old) }
    ensures copied { OnOk result
        (Filled 512 (IsBootUnit Block order (option_map (λ b. b.items) boot)) 0 2 volume.old volume.new) }
    ensures refused { IfErr result (λ e. (e ≡ NewVolumeError.Memory)
        ⊎ ((e ≡ NewVolumeError.NoSector) × LacksBootUnit Block 2 order (option_map (λ b. b.items) boot))) }
{
    match boot {
        None => Ok(()),
        Some(bytes) => copy_blocks(&opened(bytes, order)?, volume),
    }
}

// Writes an empty DOS 3.3 volume into a disk of 00s in DOS order.
fn fill_disk(
    number: u8,
    data_disk: bool,
    order: Order,
    boot: Option<Vec<u8>>,
    disk: &mut [u8],
) -> Result<(), NewVolumeError>
    requires good { TakesBoot Sector order (option_map (λ b. b.items) boot) }
    requires zeroed { disk.old ≡ zeros 143360 }
    ensures made { OnOk result
        (IsPlain (NewDos number data_disk) order (option_map (λ b. b.items) boot) disk.new) }
    ensures refused { IfErr result (λ e. (e ≡ NewVolumeError.Memory)
        ⊎ ((e ≡ NewVolumeError.NoSector) × LacksBootUnit Sector 48 order (option_map (λ b. b.items) boot))) }
{
    copy_tracks(boot, order, disk)?;
    write_track_17(number, data_disk, disk);
    Ok(())
}

// Writes an empty ProDOS volume into as many blocks of 00s in ProDOS order.
fn fill_blocks(
    blocks: u16,
    name: &[u8],
    date: ProDate,
    order: Order,
    boot: Option<Vec<u8>>,
    volume: &mut [u8],
) -> Result<(), NewVolumeError>
    requires blocks { 16 ≤ blocks }
    requires name { length name.now ≤ 15 }
    requires good { TakesBoot Block order (option_map (λ b. b.items) boot) }
    requires zeroed { volume.old ≡ zeros (512 * blocks) }
    ensures made { OnOk result
        (IsPlain (NewPro blocks name.now date.0) order (option_map (λ b. b.items) boot) volume.new) }
    ensures refused { IfErr result (λ e. (e ≡ NewVolumeError.Memory)
        ⊎ ((e ≡ NewVolumeError.NoSector) × LacksBootUnit Block 2 order (option_map (λ b. b.items) boot))) }
{
    copy_front(boot, order, volume)?;
    write_system(blocks, name, date, volume);
    Ok(())
}

#[tactic(auto, unfolding(crate::specs::Fields::zeros))]
// So many 00s.
fn blank(alloc: Global, bytes: usize) -> Result<Vec<u8>, AllocError>
    ensures { IfOk result (λ blank. blank.items ≡ zeros bytes) }
{
    vec![in alloc; 0; bytes]
}

// The bytes of an empty DOS 3.3 disk in DOS order.
pub(crate) fn disk_bytes(
    alloc: Global,
    number: u8,
    data_disk: bool,
    order: Order,
    boot: Option<Vec<u8>>,
) -> Result<Vec<u8>, NewVolumeError>
    requires good { TakesBoot Sector order (option_map (λ b. b.items) boot) }
    ensures made { IfOk result (λ bytes.
        IsPlain (NewDos number data_disk) order (option_map (λ b. b.items) boot) bytes.items) }
    ensures refused { IfErr result (λ e. (e ≡ NewVolumeError.Memory)
        ⊎ ((e ≡ NewVolumeError.NoSector) × LacksBootUnit Sector 48 order (option_map (λ b. b.items) boot))) }
{
    let mut bytes = blank(alloc, IMAGE_BYTES)?;
    fill_disk(number, data_disk, order, boot, bytes.as_mut_slice())?;
    Ok(bytes)
}

// The bytes of an empty ProDOS volume in ProDOS order.
pub(crate) fn block_bytes(
    alloc: Global,
    blocks: u16,
    name: &[u8],
    date: ProDate,
    order: Order,
    boot: Option<Vec<u8>>,
) -> Result<Vec<u8>, NewVolumeError>
    requires blocks { 16 ≤ blocks }
    requires name { length name.now ≤ 15 }
    requires good { TakesBoot Block order (option_map (λ b. b.items) boot) }
    ensures made { IfOk result (λ bytes.
        IsPlain (NewPro blocks name.now date.0) order (option_map (λ b. b.items) boot) bytes.items) }
    ensures refused { IfErr result (λ e. (e ≡ NewVolumeError.Memory)
        ⊎ ((e ≡ NewVolumeError.NoSector) × LacksBootUnit Block 2 order (option_map (λ b. b.items) boot))) }
{
    let mut bytes = blank(alloc, BLOCK_BYTES * usize::from(blocks))?;
    fill_blocks(blocks, name, date, order, boot, bytes.as_mut_slice())?;
    Ok(bytes)
}

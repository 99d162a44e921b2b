// The writes of a block of a ProDOS directory, with the count of files in its header.
ghost use Rattle.std.specs.Prelude.{◌≡◌, ◌<◌, length, map, All, IfOk, IfErr, IsTrue};
ghost use Rattle.a2_device.specs.Device.{OnlyReads};
ghost use Rattle.edit_formats.specs.declared.writes.Prepared.{Prepared};
ghost use Rattle.edit_formats.specs.Counting.{counted_writes, counting};
ghost use Rattle.edit_formats.specs.Prepared.{AreOfSize, GoBelow, write_of};
ghost use Rattle.edit_formats.specs.Refusal.{told_device, IsPrepareRefusal};

use crate::{EditError, Prepared, alone, behind, copy_unit};
use a2_device::Device;
use pro_dir::{count, set_count};
use std::alloc::Allocator;

/// Whether a directory counts one file more, or one less.
#[derive(Clone, Copy)]
pub enum FileCount {
    More,
    Less,
}

// The key block of a directory with its files counted anew.
fn counting<A: Allocator>(mut block: Vec<u8, A>, by: FileCount) -> Vec<u8, A>
    requires { length block.items ≡ 512 }
    ensures value { result.items ≡ counting by block.items }
    ensures size { length result.items ≡ 512 }
{
    let files = count(&block);
    let files = match by {
        FileCount::More => files.saturating_add(1),
        FileCount::Less => files.saturating_sub(1),
    };
    set_count(&mut block, files);
    block
}

/// The writes of a block of a directory, and of the key block of that directory with its files counted anew: one where
/// both are one block.
///
/// # Errors
/// `Device` where the key block can't be read; `Memory`.
pub fn counted_writes<D: Device, A: Allocator + Copy>(
    alloc: A,
    device: &mut D,
    by: FileCount,
    block: Prepared<A>,
    key: u32,
) -> Result<Vec<Prepared<A>, A>, EditError>
    requires size { (D.state device.old).unit_size ≡ 512 }
    requires place { block.place < (D.state device.old).places }
    requires block { length block.unit.items ≡ 512 }
    requires key { key < (D.state device.old).places }
    ensures device { OnlyReads (told_device result) (D.state device.old) (D.state device.new) }
    ensures refused { IfErr result IsPrepareRefusal }
    ensures inside { IfOk result (λ writes. GoBelow (D.state device.old).places writes.items) }
    ensures sizes { IfOk result (λ writes. AreOfSize (D.state device.old).unit_size writes.items) }
    ensures counted { IsTrue (D.state device.old).honest
        → IfOk result (λ writes.
        map write_of writes.items ≡ counted_writes by block.place block.unit.items key (D.state device.old).store) }
{
    let Prepared { place, unit } = block;
    if place == key {
        let unit = counting(unit, by);
        return Ok(alone(alloc, Prepared { place, unit })?);
    }
    let first = alone(alloc, Prepared { place, unit })?;
    let header = copy_unit(alloc, device, key)?;
    let unit = counting(header, by);
    Ok(behind(first, Prepared { place: key, unit })?)
}

// The checker.
ghost use Rattle.std.specs.Prelude.{◌≡◌, ◌↔◌, ◌<◌, ℕ, All, IsTrue, OnOk, IfOk, IfErr, Contains};
ghost use Rattle.a2_device.specs.Device.{OnlyReads};
ghost use Rattle.vol_format.specs.Fits.{Fits};
ghost use Rattle.vol_format.specs.Directory.{entries};
ghost use Rattle.vol_format.specs.Reach.{IsPartsOf};
ghost use Rattle.vol_format.specs.Accepted.{IsAccepted};
ghost use Rattle.vol_format.specs.Standing.{IsLost};
ghost use Rattle.vol_check.specs.Answer.{is_device_error, IsRefusal, IsRefusalOfFiles};
ghost use Rattle.vol_check.specs.Told.{told_of, volume_of, IsToldOf};
ghost use Rattle.vol_check.specs.Judgement.{AreFileFaults, IfAccepted, IfRefused, judged};
ghost use Rattle.vol_check.specs.Walk.{lists, IsSound};

use crate::standing::{count_files, layout_of, lost_of};
use crate::walk::{Walk, Walked, walk_files};
use crate::{CheckError, Checked, Faults, Judgement};
use a2_device::{Device, WalkError};
use std::alloc::{AllocError, Allocator};
use vol_format::Format;

// The header, the directory and the map of a volume, or what is wrong with them.
fn read_volume<D: Device, F: Format, A: Allocator + Copy>(
    alloc: A,
    device: &mut D,
    format: &F,
) -> Result<F::Volume, CheckError<A>>
    requires fits { Fits (F.meaning format.now) (D.state device.old) }

    ensures device { OnlyReads (is_device_error result) (D.state device.old) (D.state device.new) }
    ensures places { IfOk result (λ volume. (F.directory format.now volume).places ≡ (D.state device.old).places) }
    ensures described { IsTrue (D.state device.old).honest
        → IfOk result (λ volume. (F.meaning format.now).Describes (D.state device.old).store
        (F.directory format.now volume)) }
    ensures refused { IsTrue (D.state device.old).honest
        → IfErr result (IsRefusal (F.meaning format.now) (D.state device.old).store) }
    ensures files { IsTrue (D.state device.old).honest
        → IfErr result (IsRefusalOfFiles (F.meaning format.now) (D.state device.old).store) }
{
    match format.volume(device) {
        Ok(volume) => Ok(volume),
        Err(WalkError::Fault(fault)) => {
            let faults = vec![in alloc; fault]?;
            Err(CheckError::Faults(Faults::of_files(faults, Vec::new(alloc))))
        }
        Err(WalkError::Device) => Err(CheckError::Device),
        Err(WalkError::Memory) => Err(CheckError::Memory),
    }
}

// What is told of an accepted volume, from a walk over all its parts.
fn checked<F: Format, A: Allocator + Copy>(
    alloc: A,
    format: &F,
    volume: F::Volume,
    walk: Walk<A>,
) -> Result<Checked<F::Volume, A>, AllocError>
    requires { IsSound (F.meaning format.now) (F.directory format.now volume) (lists walk) }
    ensures volume { IfOk result (λ checked. volume_of checked ≡ volume) }
    ensures parts { IfOk result (λ checked. (told_of checked).parts ≡ walk.parts.items) }
    ensures told { IfOk result (λ checked. IsToldOf (F.directory format.now volume) (told_of checked)) }
{
    let layout = layout_of(alloc, format, &volume, walk.parts.as_slice())?;
    let lost = lost_of(alloc, format, &volume, walk.visited.as_slice())?;
    let files = count_files(format, &volume);
    let Walk { parts, .. } = walk;
    Ok(Checked {
        volume,
        files,
        parts,
        layout,
        lost,
    })
}

/// Reads a volume and says whether it is accepted. It makes no write, and reads the header, the directory and, once
/// each, the unit of each part that has pointers.
///
/// # Errors
/// `Faults` with the fault of the header, the directory or the map's pointer; `Device` where a read fails; `Memory`.
pub fn judge<D: Device, F: Format, A: Allocator + Copy>(
    alloc: A,
    device: &mut D,
    format: &F,
) -> Result<Judgement<F::Volume, A>, CheckError<A>>
    requires fits { Fits (F.meaning format.now) (D.state device.old) }

    // every device
    ensures device { OnlyReads (is_device_error result) (D.state device.old) (D.state device.new) }
    ensures places { IfOk result (λ judgement. (F.directory format.now (judged judgement)).places
        ≡ (D.state device.old).places) }
    ensures told { IfOk result (IfAccepted (λ checked.
        IsToldOf (F.directory format.now (volume_of checked)) (told_of checked))) }
    ensures entries { IfOk result (λ judgement. IfRefused (λ list.
        All (λ file. file < entries (F.directory format.now (judged judgement))) list.files) judgement) }

    // an honest device
    ensures accepted { IsTrue (D.state device.old).honest
        → IfOk result (IfAccepted (λ checked.
        IsAccepted (F.meaning format.now) (F.directory format.now (volume_of checked)) (D.state device.old).store)) }
    ensures parts { IsTrue (D.state device.old).honest
        → IfOk result (IfAccepted (λ checked. IsPartsOf (F.meaning format.now)
        (F.directory format.now (volume_of checked)) (D.state device.old).store (told_of checked).parts)) }
    ensures lost { IsTrue (D.state device.old).honest
        → IfOk result (IfAccepted (λ checked. (place : ℕ) → Contains (told_of checked).lost place
        ↔ IsLost (F.meaning format.now) (F.directory format.now (volume_of checked)) (D.state device.old).store
        place)) }
    ensures refused { IsTrue (D.state device.old).honest
        → IfOk result (λ judgement. IfRefused (AreFileFaults (F.meaning format.now)
        (F.directory format.now (judged judgement)) (D.state device.old).store) judgement) }
    ensures unread { IsTrue (D.state device.old).honest
        → IfErr result (IsRefusal (F.meaning format.now) (D.state device.old).store) }
    ensures files { IsTrue (D.state device.old).honest
        → IfErr result (IsRefusalOfFiles (F.meaning format.now) (D.state device.old).store) }
{
    let volume = read_volume(alloc, device, format)?;
    let Walked { walk, files } = walk_files(alloc, device, format, &volume)?;
    if !walk.faults.is_empty() {
        let Walk { faults, .. } = walk;
        let faults = Faults::of_files(faults, files);
        return Ok(Judgement::Refused(volume, faults));
    }
    Ok(Judgement::Accepted(checked(alloc, format, volume, walk)?))
}

/// Accepts a volume, or tells what is wrong with it. It makes no write, and reads the header, the directory and, once
/// each, the unit of each part that has pointers.
///
/// # Errors
/// `Faults` with every fault that was met, in the order of the parts, and with the file of each; `Device` where a read
/// fails; `Memory`.
pub fn check<D: Device, F: Format, A: Allocator + Copy>(
    alloc: A,
    device: &mut D,
    format: &F,
) -> Result<Checked<F::Volume, A>, CheckError<A>>
    requires fits { Fits (F.meaning format.now) (D.state device.old) }

    // every device
    ensures device { OnlyReads (is_device_error result) (D.state device.old) (D.state device.new) }
    ensures places { IfOk result (λ checked. (F.directory format.now (volume_of checked)).places
        ≡ (D.state device.old).places) }
    ensures told { IfOk result (λ checked. IsToldOf (F.directory format.now (volume_of checked)) (told_of checked)) }

    // an honest device
    ensures accepted { IsTrue (D.state device.old).honest
        → IfOk result (λ checked.
        IsAccepted (F.meaning format.now) (F.directory format.now (volume_of checked)) (D.state device.old).store) }
    ensures parts { IsTrue (D.state device.old).honest
        → IfOk result (λ checked. IsPartsOf (F.meaning format.now) (F.directory format.now (volume_of checked))
        (D.state device.old).store (told_of checked).parts) }
    ensures lost { IsTrue (D.state device.old).honest
        → IfOk result (λ checked. (place : ℕ) → Contains (told_of checked).lost place
        ↔ IsLost (F.meaning format.now) (F.directory format.now (volume_of checked)) (D.state device.old).store place) }
    ensures refused { IsTrue (D.state device.old).honest
        → IfErr result (IsRefusal (F.meaning format.now) (D.state device.old).store) }
    ensures files { IsTrue (D.state device.old).honest
        → IfErr result (IsRefusalOfFiles (F.meaning format.now) (D.state device.old).store) }
{
    match judge(alloc, device, format) {
        Ok(Judgement::Accepted(checked)) => Ok(checked),
        Ok(Judgement::Refused(_, faults)) => Err(CheckError::Faults(faults)),
        Err(error) => Err(error),
    }
}

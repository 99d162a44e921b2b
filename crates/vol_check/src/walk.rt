// The walk over the parts of all files.
ghost use Rattle.std.specs.Prelude.{
  ◌≡◌,
  ◌==◌,
  ◌&&◌,
  ◌<◌,
  ◌≤◌,
  ◌+◌,
  [],
  not,
  length,
  All,
  OnOk,
  IfOk,
  IsTrue,
};
ghost use Rattle.std.specs.List.{AllZip};
ghost use Rattle.a2_device.specs.Device.{FailsRead, OnlyReads, unit_at};
ghost use Rattle.vol_format.specs.Fits.{Fits};
ghost use Rattle.vol_format.specs.Directory.{entries};
ghost use Rattle.a2_device.specs.Stop.{is_device_stop};
ghost use Rattle.a2_device.specs.declared.part.Part.{Part};
ghost use Rattle.vol_check.specs.declared.walk.Pending.TheVariants.{Visit};
ghost use Rattle.vol_check.specs.Failures.{FailsInFile, FailsNext};
ghost use Rattle.vol_check.specs.FaultFiles.{FileFaultAt, TellsOf};
ghost use Rattle.vol_check.specs.Known.{is_known as is_in};
ghost use Rattle.vol_check.specs.Marks.{KeepsMarks};
ghost use Rattle.vol_check.specs.Walking.{IsWalking, None};
ghost use Rattle.vol_check.specs.Walk.{
  lists,
  IsSound,
  hindrance_of,
  is_admitted,
  admitted,
  taken_up,
  told,
  noted,
  followed,
  after_visit,
  after_next,
  next_unit,
  unseen,
};

use crate::known::{Known, is_known, note_known};
use a2_device::{Device, Fault, Part, Stop};
use std::alloc::{AllocError, Allocator};
use vol_format::{Format, Link};

/// What a pointer that was read leaves to do: to look at a part, or to tell a fault when its turn comes.
#[derive(Clone, Copy)]
pub enum Pending {
    Visit(Part),
    Tell(Fault),
}

/// The parts so far, what is to do next with the first of it last, the faults so far, which places were met, and which
/// faults of them are known.
#[derive(Drop)]
pub struct Walk<A: Allocator> {
    pub parts: Vec<Part, A>,
    pub pending: Vec<Pending, A>,
    pub faults: Vec<Fault, A>,
    pub visited: Vec<bool, A>,
    pub known: Vec<Known, A>,
}

/// A walk that has seen nothing.
pub fn start<A: Allocator + Copy>(alloc: A, places: u32) -> Result<Walk<A>, AllocError>
    ensures { IfOk result (λ walk. lists walk ≡ unseen places) }
{
    Ok(Walk {
        parts: Vec::new(alloc),
        pending: Vec::new(alloc),
        faults: Vec::new(alloc),
        visited: vec![in alloc; false; places as usize]?,
        known: vec![in alloc; Known::nothing(); places as usize]?,
    })
}

// Whether a fault was told before.
fn is_told<A: Allocator>(walk: &Walk<A>, fault: Fault) -> bool
    ensures { result ≡ (not (length walk.now.faults.items == 0) && is_in walk.now.known.items fault) }
{
    !walk.faults.is_empty() && is_known(walk.known.as_slice(), fault)
}

// Tells a fault, unless it was told before.
fn tell<A: Allocator>(walk: &mut Walk<A>, fault: Fault) -> Result<(), AllocError>
    ensures walk { OnOk result (lists walk.new ≡ told fault (lists walk.old)) }
    ensures marks { KeepsMarks (lists walk.old) (lists walk.new) }
{
    if is_told(walk, fault) {
        return Ok(());
    }
    walk.faults.push(fault)?;
    note_known(walk.known.as_mut_slice(), fault);
    Ok(())
}

// Takes a part up, unless its place is the system's or was met before.
fn admit<F: Format, A: Allocator>(
    format: &F,
    volume: &F::Volume,
    part: Part,
    walk: &mut Walk<A>,
) -> Result<bool, AllocError>
    requires place { part.place < (F.directory format.now volume.now).places }
    requires visited { length walk.old.visited.items ≡ (F.directory format.now volume.now).places }

    ensures taken { IfOk result (λ taken.
        taken ≡ is_admitted (F.directory format.now volume.now) part (lists walk.old)) }
    ensures walk { OnOk result (lists walk.new ≡ admitted (F.directory format.now volume.now) part (lists walk.old)) }
    ensures marks { KeepsMarks (lists walk.old) (lists walk.new) }
{
    if let Some(fault) = hindrance(format, volume, part, walk) {
        tell(walk, fault)?;
        return Ok(false);
    }
    take_up(format, volume, part, walk)?;
    Ok(true)
}

// The fault of a part that cannot be taken up: its place is the system's or was met before.
fn hindrance<F: Format, A: Allocator>(
    format: &F,
    volume: &F::Volume,
    part: Part,
    walk: &Walk<A>,
) -> Option<Fault>
    requires place { part.place < (F.directory format.now volume.now).places }
    requires visited { length walk.now.visited.items ≡ (F.directory format.now volume.now).places }

    ensures { result ≡ hindrance_of (F.directory format.now volume.now) part (lists walk.now) }
{
    if format.index(volume, part.place).is_none() {
        return Some(Fault::InSystem(part.place));
    }
    if walk.visited[part.place as usize] {
        return Some(Fault::Shared(part.place));
    }
    None
}

// Takes a part up, and tells that the map has its place as free, if it does.
fn take_up<F: Format, A: Allocator>(
    format: &F,
    volume: &F::Volume,
    part: Part,
    walk: &mut Walk<A>,
) -> Result<(), AllocError>
    requires place { part.place < (F.directory format.now volume.now).places }
    requires visited { length walk.old.visited.items ≡ (F.directory format.now volume.now).places }

    ensures walk { OnOk result (lists walk.new ≡ taken_up (F.directory format.now volume.now) part (lists walk.old)) }
    ensures marks { KeepsMarks (lists walk.old) (lists walk.new) }
{
    if format.is_free(volume, part.place) {
        walk.faults.push(Fault::MarkedFree(part.place))?;
    }
    walk.parts.push(part)?;
    walk.visited[part.place as usize] = true;
    Ok(())
}

// Notes what one pointer names.
fn note<A: Allocator>(walk: &mut Walk<A>, holder: u32, link: Link) -> Result<(), AllocError>
    ensures walk { OnOk result (lists walk.new ≡ noted holder link (lists walk.old)) }
    ensures marks { KeepsMarks (lists walk.old) (lists walk.new) }
{
    match link {
        Link::Null | Link::Directory => {}
        Link::Wild => walk.pending.push(Pending::Tell(Fault::OutOfRange(holder)))?,
        Link::OtherType => walk
            .pending
            .push(Pending::Tell(Fault::StorageType(holder)))?,
        Link::To(part) => walk.pending.push(Pending::Visit(part))?,
    }
    Ok(())
}

// Notes what the unit of a part points to, the last pointer first.
fn follow<F: Format, A: Allocator>(
    format: &F,
    volume: &F::Volume,
    part: Part,
    unit: &[u8],
    walk: &mut Walk<A>,
) -> Result<(), AllocError>
    requires unit { length unit.now ≡ (F.meaning format.now).unit_size }
    requires depth { (F.meaning format.now).depth part < 65536 }

    ensures walk { OnOk result (lists walk.new
        ≡ followed ((F.meaning format.now).child (F.directory format.now volume.now).places part unit.now) part.place
        ((F.meaning format.now).pointers part) (lists walk.old)) }
    ensures marks { KeepsMarks (lists walk.old) (lists walk.new) }
{
    for pointer in (0..format.pointers(&part)).rev() {
        note(walk, part.place, format.child(volume, &part, unit, pointer))?;
    }
    Ok(())
}

// Looks at a part: takes it up, and where its unit has pointers reads it and notes what they name.
fn visit<D: Device, F: Format, A: Allocator>(
    device: &mut D,
    format: &F,
    volume: &F::Volume,
    part: Part,
    unit: &mut [u8],
    walk: &mut Walk<A>,
) -> Result<(), Stop>
    requires size { (D.state device.old).unit_size ≡ (F.meaning format.now).unit_size }
    requires places { (F.directory format.now volume.now).places ≡ (D.state device.old).places }
    requires unit { length unit.old ≡ (F.meaning format.now).unit_size }
    requires visited { length walk.old.visited.items ≡ (F.directory format.now volume.now).places }
    requires place { part.place < (D.state device.old).places }
    requires depth { (F.meaning format.now).depth part < 65536 }

    ensures device { OnlyReads (is_device_stop result) (D.state device.old) (D.state device.new) }
    ensures walk { OnOk result (lists walk.new
        ≡ after_visit (F.meaning format.now) (F.directory format.now volume.now) part unit.new (lists walk.old)) }
    ensures honest { IsTrue (D.state device.old).honest → OnOk result (lists walk.new
        ≡ after_visit (F.meaning format.now) (F.directory format.now volume.now) part
        (unit_at (D.state device.old).store part.place) (lists walk.old)) }
    ensures marks { KeepsMarks (lists walk.old) (lists walk.new) }
    ensures failed { IsTrue (D.state device.old).honest → IsTrue (is_device_stop result)
        → FailsRead part.place (D.state device.old) (D.state device.new) }
{
    if admit(format, volume, part, walk)? && format.pointers(&part) != 0 {
        device.read(part.place, unit).map_err(|_| Stop::Device)?;
        follow(format, volume, part, unit, walk)?;
    }
    Ok(())
}

// Does what is next.
fn go_on<D: Device, F: Format, A: Allocator>(
    device: &mut D,
    format: &F,
    volume: &F::Volume,
    next: Pending,
    unit: &mut [u8],
    walk: &mut Walk<A>,
) -> Result<(), Stop>
    requires size { (D.state device.old).unit_size ≡ (F.meaning format.now).unit_size }
    requires places { (F.directory format.now volume.now).places ≡ (D.state device.old).places }
    requires unit { length unit.old ≡ (F.meaning format.now).unit_size }
    requires visited { length walk.old.visited.items ≡ (F.directory format.now volume.now).places }
    requires place { (part : Part) → next ≡ Visit part → part.place < (D.state device.old).places }
    requires depth { (part : Part) → next ≡ Visit part → (F.meaning format.now).depth part < 65536 }

    ensures device { OnlyReads (is_device_stop result) (D.state device.old) (D.state device.new) }
    ensures walk { OnOk result (lists walk.new
        ≡ after_next (F.meaning format.now) (F.directory format.now volume.now) next unit.new (lists walk.old)) }
    ensures honest { IsTrue (D.state device.old).honest → OnOk result (lists walk.new
        ≡ after_next (F.meaning format.now) (F.directory format.now volume.now) next
        (next_unit (D.state device.old).store next) (lists walk.old)) }
    ensures marks { KeepsMarks (lists walk.old) (lists walk.new) }
    ensures failed { IsTrue (D.state device.old).honest → IsTrue (is_device_stop result)
        → FailsNext next (D.state device.old) (D.state device.new) }
{
    match next {
        Pending::Visit(part) => visit(device, format, volume, part, unit, walk),
        Pending::Tell(fault) => Ok(tell(walk, fault)?),
    }
}

/// Walks over the parts of one file.
pub fn walk_file<D: Device, F: Format, A: Allocator>(
    device: &mut D,
    format: &F,
    volume: &F::Volume,
    file: u32,
    unit: &mut [u8],
    walk: &mut Walk<A>,
) -> Result<(), Stop>
    requires fits { Fits (F.meaning format.now) (D.state device.old) }
    requires places { (F.directory format.now volume.now).places ≡ (D.state device.old).places }
    requires unit { length unit.old ≡ (F.meaning format.now).unit_size }
    requires file { file < entries (F.directory format.now volume.now) }
    requires pending { walk.old.pending.items ≡ [] }
    requires sound { IsSound (F.meaning format.now) (F.directory format.now volume.now) (lists walk.old) }
    requires walking { IsTrue (D.state device.old).honest
        → IsWalking (F.meaning format.now) (F.directory format.now volume.now) (D.state device.old).store file None
        (lists walk.old) }

    ensures device { OnlyReads (is_device_stop result) (D.state device.old) (D.state device.new) }
    ensures pending { OnOk result (walk.new.pending.items ≡ []) }
    ensures sound { OnOk result (IsSound (F.meaning format.now) (F.directory format.now volume.now) (lists walk.new)) }
    ensures walking { IsTrue (D.state device.old).honest
        → OnOk result (IsWalking (F.meaning format.now) (F.directory format.now volume.now) (D.state device.old).store
        (file + 1) None (lists walk.new)) }
    ensures told { IsTrue (D.state device.old).honest
        → OnOk result (TellsOf (F.meaning format.now) (F.directory format.now volume.now) (D.state device.old).store
        file (lists walk.old).faults (lists walk.new).faults) }
    ensures marks { KeepsMarks (lists walk.old) (lists walk.new) }
    ensures failed { IsTrue (D.state device.old).honest → IsTrue (is_device_stop result)
        → FailsInFile (F.meaning format.now) (F.directory format.now volume.now)
        (D.state device.old) (D.state device.new) file }
{
    let entry = format.entry_at(volume, file);
    note(walk, entry.place, format.root(volume, file))?;
    while let Some(next) = walk.pending.pop() {
        go_on(device, format, volume, next, unit, walk)?;
    }
    Ok(())
}

/// A walk over the parts of all files, and of each fault that was told the number of the entry whose file it is of.
#[derive(Drop)]
pub struct Walked<A: Allocator> {
    pub walk: Walk<A>,
    pub files: Vec<u32, A>,
}

/// Walks over the parts of all files.
pub fn walk_files<D: Device, F: Format, A: Allocator + Copy>(
    alloc: A,
    device: &mut D,
    format: &F,
    volume: &F::Volume,
) -> Result<Walked<A>, Stop>
    requires fits { Fits (F.meaning format.now) (D.state device.old) }
    requires places { (F.directory format.now volume.now).places ≡ (D.state device.old).places }

    ensures device { OnlyReads (is_device_stop result) (D.state device.old) (D.state device.new) }
    ensures pending { IfOk result (λ walked. walked.walk.pending.items ≡ []) }
    ensures sound { IfOk result (λ walked.
        IsSound (F.meaning format.now) (F.directory format.now volume.now) (lists walked.walk)) }
    ensures walking { IsTrue (D.state device.old).honest
        → IfOk result (λ walked.
        IsWalking (F.meaning format.now) (F.directory format.now volume.now) (D.state device.old).store
        (entries (F.directory format.now volume.now)) None (lists walked.walk)) }
    ensures entries { IfOk result (λ walked.
        All (λ file. file < entries (F.directory format.now volume.now)) walked.files.items) }
    ensures files { IsTrue (D.state device.old).honest
        → IfOk result (λ walked.
        AllZip (FileFaultAt (F.meaning format.now) (F.directory format.now volume.now) (D.state device.old).store)
        walked.files.items walked.walk.faults.items) }
{
    let mut walk = start(alloc, device.places())?;
    let mut files = Vec::new(alloc);
    let mut unit = vec![in alloc; 0; device.unit()]?;
    for file in 0..format.entries(volume) {
        walk_file(device, format, volume, file, &mut unit, &mut walk)?;
        files.resize(walk.faults.len(), file)?;
    }
    Ok(Walked { walk, files })
}

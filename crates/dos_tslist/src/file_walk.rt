// The parts of one file.
ghost use Rattle.std.specs.Prelude.{
  ◌≡◌,
  ◌≢◌,
  ◌⊎◌,
  ◌<◌,
  ◌≤◌,
  ◌+◌,
  ◌*◌,
  ◌++◌,
  [],
  ◌∷◌,
  ℕ,
  suc,
  List,
  Option,
  Some,
  true,
  false,
  not,
  length,
  count_by,
  OnOk,
  IfOk,
  IfErr,
  IfSome,
  IsTrue,
  All,
  AllPairs,
  Contains,
  slice_index_or,
  slice_index,
  slice_set,
  vec_items,
};
ghost use Rattle.a2_device.specs.Device.{OnlyReads, unit_at};
ghost use Rattle.a2_device.specs.Reading.{met_device};
ghost use Rattle.a2_device.specs.declared.part.Part.{Part};
ghost use Rattle.a2_device.specs.declared.part.PartKind.TheVariants.{List as AList, Body};
ghost use Rattle.a2_device.specs.declared.fault.Fault.{Fault};
ghost use Rattle.a2_device.specs.declared.fault.Fault.TheVariants.{OutOfRange, Shared};
ghost use Rattle.a2_device.specs.declared.fault.WalkError.TheVariants.{Fault as AFault, Device as ADevice};
ghost use Rattle.dos_vtoc.specs.Vtoc.{link_of};
ghost use Rattle.dos_tslist.specs.Pointers.{pair_of};
ghost use Rattle.dos_tslist.specs.Reach.{
  IsPartsOf,
  HasNoWild,
  FileFaultAt,
  ListAt,
  entry_pointer,
  is_wild,
  place_named,
};
ghost use Rattle.dos_tslist.specs.Walk.{pointed, part_of, IsWalked, IsRefusedAt, IsPairing};
ghost use Rattle.a2_device.specs.Table.{IsTable};

use crate::pointers::pointer_at;
use crate::{PAIRS, next, pair};
use a2_device::{Device, Fault, Part, PartKind, WalkError};
use dos_catalog::Entry;
use std::alloc::{AllocError, Allocator, Global};

const PLACES: usize = 560;

// The parts of a file so far, and the places where they stand.
#[derive(Drop)]
struct FileWalk<A: Allocator = Global> {
    file: u32,
    met: [bool; PLACES],
    parts: Vec<Part, A>,
}

// Whether a pointer is to a track past 34 or a sector past 15.
fn is_outside(pointer: Option<(u8, u8)>) -> bool
    ensures { result ≡ is_wild pointer }
{
    match pointer {
        None => false,
        Some((track, sector)) => track > 34 || sector > 15,
    }
}

// The place that a pointer names.
fn named_place(pointer: Option<(u8, u8)>) -> Option<u32>
    ensures value { result ≡ place_named pointer }
    ensures within { IfSome result (λ place. place < 560) }
{
    match pointer {
        None => None,
        Some((track, sector)) => {
            if track > 34 || sector > 15 {
                None
            } else {
                Some(16 * track as u32 + sector as u32)
            }
        }
    }
}

impl<A: Allocator> FileWalk<A> {
    // Takes a part at a place that was not met.
    fn take(&mut self, kind: PartKind, number: u32, place: u32) -> Result<(), AllocError>
        requires { place < 560 }
        ensures file { self.new.file ≡ self.old.file }
        ensures size { length self.new.met ≡ 560 }
        ensures met { OnOk result (self.new.met ≡ slice_set self.old.met place true) }
        ensures parts { OnOk result
            (self.new.parts.items ≡ self.old.parts.items ++ part_of self.old.file kind number place ∷ []) }
    {
        self.met[place as usize] = true;
        self.parts.push(Part {
            file: self.file,
            kind,
            number,
            place,
        })?;
        Ok(())
    }

    // Takes the part that a pointer of the unit at `holder` leads to, and answers its place.
    fn follow(
        &mut self,
        holder: u32,
        pointer: Option<(u8, u8)>,
        kind: PartKind,
        number: u32,
    ) -> Result<Option<u32>, WalkError>
        ensures file { self.new.file ≡ self.old.file }
        ensures size { length self.new.met ≡ 560 }
        ensures no_device { IfErr result (λ e. e ≢ ADevice) }
        ensures tame { IfOk result (λ _. is_wild pointer ≡ false) }
        ensures named { IfOk result (λ place. place ≡ place_named pointer) }
        ensures within { IfOk result (λ place. IfSome place (λ p. p < 560)) }
        ensures parts { IfOk result (λ _.
            self.new.parts.items ≡ self.old.parts.items ++ pointed self.old.file kind number (place_named pointer)) }
        ensures table { IfOk result (λ _. IsTable self.old.met self.old.parts.items
            → IsTable self.new.met self.new.parts.items) }
        ensures unmet { IfOk result (λ _. count_by not self.new.met + length
            (pointed self.old.file kind number (place_named pointer)) ≡ count_by not self.old.met) }
        ensures refused { IfErr result (λ e. (fault : Fault) → e ≡ AFault fault
            → IsRefusedAt self.old.met holder pointer fault) }
    {
        if is_outside(pointer) {
            return Err(WalkError::Fault(Fault::OutOfRange(holder)));
        }
        let Some(place) = named_place(pointer) else {
            return Ok(None);
        };
        if self.met[place as usize] {
            return Err(WalkError::Fault(Fault::Shared(place)));
        }
        self.take(kind, number, place)?;
        Ok(Some(place))
    }

    // Takes the parts that the pairs of a list lead to, which stands at `holder`.
    fn take_pairs(&mut self, holder: u32, number: u32, unit: &[u8; 256]) -> Result<(), WalkError>
        requires { number < 560 }
        ensures file { self.new.file ≡ self.old.file }
        ensures size { length self.new.met ≡ 560 }
        ensures no_device { IfErr result (λ e. e ≢ ADevice) }
        ensures pairing { OnOk result
            (IsPairing self.old.file number holder unit.now self.old.met self.new.met
            self.old.parts.items self.new.parts.items 122) }
        ensures refused { (store : List (List ℕ)) (first : Option (ℕ × ℕ)) (entry : ℕ) → unit_at store holder ≡ unit.now
            → ListAt store first number holder
            → IsTable self.old.met self.old.parts.items
            → IsWalked store self.old.file first (123 * number + 1) self.old.parts.items
            → IfErr result (λ e. (fault : Fault) → e ≡ AFault fault
            → FileFaultAt store self.old.file first entry fault) }
    {
        for index in 0..PAIRS {
            self.follow(
                holder,
                pair(unit, index),
                PartKind::Body,
                PAIRS * number + index,
            )?;
        }
        Ok(())
    }
}

// Reads one list.
fn read_list<D: Device>(device: &mut D, place: u32, unit: &mut [u8; 256]) -> Result<(), WalkError>
    requires unit { (D.state device.old).unit_size ≡ 256 }
    requires place { place < (D.state device.old).places }

    ensures device { OnlyReads (met_device result) (D.state device.old) (D.state device.new) }
    ensures no_fault { IfErr result (λ e. (fault : Fault) → e ≢ AFault fault) }
    ensures unit { IsTrue (D.state device.old).honest
        → OnOk result (unit.new ≡ unit_at (D.state device.old).store place) }
{
    if device.read(place, unit).is_err() {
        return Err(WalkError::Device);
    }
    Ok(())
}

/// The parts of one file in order: its first track/sector list, the units that the list's pairs name by their number,
/// the second list, its units, and so on. `file` is the number that the parts get.
///
/// # Errors
/// `Fault` with `OutOfRange`, which names the list with a pointer that names no place of the disk (for the entry's own
/// pointer, the entry's sector), or `Shared`, which names a place that the file reaches twice; `Device` where a read
/// fails; `Memory`.
pub fn walk<A: Allocator, D: Device>(
    alloc: A,
    device: &mut D,
    file: u32,
    entry: &Entry,
) -> Result<Vec<Part, A>, WalkError>
    requires unit { (D.state device.old).unit_size ≡ 256 }
    requires places { (D.state device.old).places ≡ 560 }

    ensures device { OnlyReads (met_device result) (D.state device.old) (D.state device.new) }
    ensures parts { IsTrue (D.state device.old).honest
        → IfOk result (λ parts. IsPartsOf (D.state device.old).store file (entry_pointer entry.now) (vec_items parts)) }
    ensures tame { IsTrue (D.state device.old).honest
        → IfOk result (λ _. HasNoWild (D.state device.old).store (entry_pointer entry.now)) }
    ensures once { IfOk result (λ parts. AllPairs (λ part later. part.place ≢ later.place) (vec_items parts)) }
    ensures within { IfOk result (λ parts. All (λ (part : Part). part.place < 560) (vec_items parts)) }
    ensures refused { IsTrue (D.state device.old).honest → IfErr result (λ e. (fault : Fault) → e ≡ AFault fault
        → FileFaultAt (D.state device.old).store file (entry_pointer entry.now) entry.now.place fault) }
{
    let mut found = FileWalk {
        file,
        met: [false; PLACES],
        parts: Vec::new(alloc),
    };
    let mut unit = [0; 256];
    let mut number = 0;
    let first = pointer_at(&entry.bytes, 0);
    let mut list = found.follow(entry.place, first, PartKind::List, 0)?;
    while let Some(place) = list {
        read_list(device, place, &mut unit)?;
        found.take_pairs(place, number, &unit)?;
        number += 1;
        list = found.follow(place, next(&unit), PartKind::List, number)?;
    }
    let FileWalk { parts, .. } = found;
    Ok(parts)
}

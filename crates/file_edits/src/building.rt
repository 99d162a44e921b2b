// The units of the parts of a new file, at their places.
ghost use Rattle.std.specs.Prelude.{
  ◌≡◌,
  ◌≢◌,
  ◌<◌,
  ◌≤◌,
  ◌*◌,
  ℕ,
  Bool,
  List,
  false,
  length,
  map,
  replicate,
  slice_index,
  All,
  IfOk,
  IsTrue,
};
ghost use Rattle.a2_device.specs.declared.part.PartKind.TheVariants.{Body};
ghost use Rattle.edit_formats.specs.Order.{part_at};
ghost use Rattle.edit_formats.specs.declared.writes.Prepared.{Prepared};
ghost use Rattle.edit_formats.specs.Prepared.{write_of};
ghost use Rattle.file_edits.specs.Given.{given_unit};
ghost use Rattle.file_edits.specs.Parts.{AreBuildable, HasPartWrites, IsPartWrite};

use a2_device::PartKind;
use edit_formats::{NewPart, Prepared, SavableFormat, behind};
use std::alloc::{AllocError, Allocator};

// The parts of a new file, each with its place.
#[derive(Clone, Copy)]
struct PlacedParts<'a> {
    parts: &'a [NewPart],
    places: &'a [u32],
}

// The units of a new file, each of a size, one after the other; those that are not stored are holes.
#[derive(Clone, Copy)]
struct GivenUnits<'a> {
    size: usize,
    stored: &'a [bool],
    units: &'a [u8],
}

// Unit `number` of a file; a hole is zeros.
fn given_unit<A: Allocator>(
    alloc: A,
    given: &GivenUnits<'_>,
    number: u32,
) -> Result<Vec<u8, A>, AllocError>
    requires { given.now.size * length given.now.stored.now ≡ length given.now.units.now }
    ensures value { IfOk result (λ unit.
        unit.items ≡ given_unit given.now.size given.now.stored.now given.now.units.now number) }
    ensures size { IfOk result (λ unit. length unit.items ≡ given.now.size) }
{
    let number = number as usize;
    if number < given.stored.len() && given.stored[number] {
        let from = given.size * number;
        return Vec::from_slice(alloc, &given.units[from..from + given.size]);
    }
    vec![in alloc; 0; given.size]
}

// The unit of a table.
fn table_unit<F: SavableFormat, A: Allocator>(
    alloc: A,
    size: usize,
    format: &F,
    placed: &PlacedParts<'_>,
    at: usize,
) -> Result<Vec<u8, A>, AllocError>
    requires size { size ≡ (F.meaning format.now).unit_size }
    requires placed { AreBuildable (F.meaning format.now) (F.saves format.now) placed.now }
    requires at { at < length placed.now.parts.now }
    requires table { (part_at placed.now.parts.now at).kind ≢ Body }
    ensures value { IfOk result (λ unit.
        (F.saves format.now).IsTable placed.now.parts.now placed.now.places.now at unit.items) }
    ensures size { IfOk result (λ unit. length unit.items ≡ size) }
{
    let mut unit = vec![in alloc; 0; size]?;
    format.build(placed.parts, placed.places, at, &mut unit);
    Ok(unit)
}

// The write of one part.
fn part_write<F: SavableFormat, A: Allocator>(
    alloc: A,
    format: &F,
    placed: &PlacedParts<'_>,
    given: &GivenUnits<'_>,
    at: usize,
) -> Result<Prepared<A>, AllocError>
    requires size { given.now.size ≡ (F.meaning format.now).unit_size }
    requires placed { AreBuildable (F.meaning format.now) (F.saves format.now) placed.now }
    requires units { given.now.size * length given.now.stored.now ≡ length given.now.units.now }
    requires at { at < length placed.now.parts.now }
    ensures { IfOk result (λ write. IsPartWrite (F.saves format.now) given.now.size placed.now.parts.now
        placed.now.places.now given.now.stored.now given.now.units.now at (write_of write)) }
{
    let unit = match placed.parts[at].kind {
        PartKind::Body => given_unit(alloc, given, placed.parts[at].number)?,
        _ => table_unit(alloc, given.size, format, placed, at)?,
    };
    let place = placed.places[at];
    Ok(Prepared { place, unit })
}

/// The writes of the parts of a new file, in their order, each to its place.
///
/// # Errors
/// Want of memory alone.
pub fn part_writes<F: SavableFormat, A: Allocator + Copy>(
    alloc: A,
    size: usize,
    format: &F,
    parts: &[NewPart],
    places: &[u32],
    stored: &[bool],
    units: &[u8],
) -> Result<Vec<Prepared<A>, A>, AllocError>
    requires size { size ≡ (F.meaning format.now).unit_size }
    requires parts { (stored : List Bool) × ((F.saves format.now).too_long 0 (length stored) ≡ false)
        × (parts.now ≡ (F.saves format.now).parts stored) }
    requires count { length places.now ≡ length parts.now }
    requires places { (count : ℕ) × All ((F.meaning format.now).CanName count) places.now }
    requires units { size * length stored.now ≡ length units.now }
    ensures { IfOk result (λ writes. HasPartWrites (F.saves format.now) size parts.now places.now stored.now units.now
        (length parts.now) (map write_of writes.items)) }
{
    let placed = PlacedParts { parts, places };
    let given = GivenUnits {
        size,
        stored,
        units,
    };
    let mut writes = Vec::new(alloc);
    for at in 0..parts.len() {
        let write = part_write(alloc, format, &placed, &given, at)?;
        writes = behind(writes, write)?;
    }
    Ok(writes)
}

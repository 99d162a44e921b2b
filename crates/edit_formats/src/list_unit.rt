// The unit of a track/sector list.
ghost use Rattle.std.specs.Prelude.{
  ◌≡◌,
  ◌<◌,
  ◌≤◌,
  ◌+◌,
  ◌*◌,
  ◌/◌,
  ◌%◌,
  ◌↔◌,
  length,
  slice_index,
  slice_set,
  All,
  IfSome,
  IsTrue,
};
ghost use Rattle.a2_device.specs.declared.part.PartKind.TheVariants.{List as AList, Body};
ghost use Rattle.dos_format.specs.Dos.{CanNameDos};
ghost use Rattle.dos_tslist.specs.Pointers.{place_or_none};
ghost use Rattle.edit_formats.specs.Order.{AreDosParts, part_at};
ghost use Rattle.edit_formats.specs.Filling.{HasPairs, IsEnd};
ghost use Rattle.edit_formats.specs.ListUnit.{IsListUnit};

use crate::NewPart;
use a2_device::PartKind;
use dos_tslist::{PAIRS, set_next, set_pair};

/// Where a list has the number of its first unit of the body.
const FIRST: usize = 0x05;

/// Whether a part is a unit of the body.
pub(crate) fn is_body(part: &NewPart) -> bool
    ensures { IsTrue result ↔ (part.now.kind ≡ Body) }
{
    matches!(part.kind, PartKind::Body)
}

// Writes the pairs of the units behind a list, in a unit of zeros, and answers where the next list stands.
fn put_pairs(parts: &[NewPart], places: &[u32], at: usize, unit: &mut [u8]) -> usize
    requires file { AreDosParts parts.now }
    requires at { at < length parts.now }
    requires list { (part_at parts.now at).kind ≡ AList }
    requires count { length places.now ≡ length parts.now }
    requires places { All CanNameDos places.now }
    requires unit { HasPairs parts.now places.now (part_at parts.now at).number at (at + 1) unit.old }
    ensures end { IsEnd parts.now at result }
    ensures unit { HasPairs parts.now places.now (part_at parts.now at).number at result unit.new }
{
    for k in at + 1..parts.len() {
        if !is_body(&parts[k]) {
            return k;
        }
        set_pair(unit, parts[k].number % PAIRS, Some(places[k]));
    }
    parts.len()
}

// The place of a part, if there is one.
fn place_at(places: &[u32], k: usize) -> Option<u32>
    requires { All CanNameDos places.now }
    ensures value { place_or_none result ≡ slice_index places.now k }
    ensures within { IfSome result (λ place. place < 560) }
{
    match places.get(k) {
        Some(place) => Some(*place),
        None => None,
    }
}

// Writes the number of a list's first unit of the body, the low byte first.
fn put_first(unit: &mut [u8], number: u32)
    requires number { number < 5 }
    requires unit { length unit.old ≡ 256 }
    ensures { unit.new ≡ slice_set (slice_set unit.old 0x05 (122 * number % 256)) 0x06 (122 * number / 256) }
{
    let first = PAIRS * number;
    unit[FIRST] = (first % 256) as u8;
    unit[FIRST + 1] = (first / 256) as u8;
}

/// Builds the unit of the list that is part `at` of a new DOS 3.3 file, in a unit of 256 bytes: the pairs of the units
/// behind it, the link to the next list, and the number of its first unit of the body.
pub fn build_list(parts: &[NewPart], places: &[u32], at: usize, unit: &mut [u8])
    requires file { AreDosParts parts.now }
    requires at { at < length parts.now }
    requires list { (part_at parts.now at).kind ≡ AList }
    requires count { length places.now ≡ length parts.now }
    requires places { All CanNameDos places.now }
    requires unit { length unit.old ≡ 256 }
    ensures { IsListUnit parts.now places.now (part_at parts.now at).number unit.new }
{
    unit.fill(0);
    let end = put_pairs(parts, places, at, unit);
    set_next(unit, place_at(places, end));
    put_first(unit, parts[at].number);
}

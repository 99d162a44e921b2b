// The blocks of an index and of a master index.
ghost use Rattle.std.specs.Prelude.{◌≡◌, ◌<◌, ◌+◌, ◌*◌, ◌↔◌, ℕ, length, All, IsTrue};
ghost use Rattle.a2_device.specs.declared.part.PartKind.TheVariants.{Master, Index, Body};
ghost use Rattle.edit_formats.specs.Order.{AreProParts, part_at};
ghost use Rattle.edit_formats.specs.Filling.{HasPointers, IsEnd};
ghost use Rattle.edit_formats.specs.TableUnit.{IsTableUnit};

use crate::NewPart;
use crate::list_unit::is_body;
use a2_device::PartKind;
use pro_tree::set_pointer;

const POINTERS: u32 = 256;

// Whether a part is an index.
fn is_index(part: &NewPart) -> bool
    ensures { IsTrue result ↔ (part.now.kind ≡ Index) }
{
    matches!(part.kind, PartKind::Index)
}

// Writes the pointers to the units behind an index, in a block of zeros, and answers where the next index stands.
fn put_bodies(parts: &[NewPart], places: &[u32], at: usize, unit: &mut [u8]) -> usize
    requires file { (storage : ℕ) × AreProParts storage parts.now }
    requires at { at < length parts.now }
    requires index { (part_at parts.now at).kind ≡ Index }
    requires count { length places.now ≡ length parts.now }
    requires places { All (λ place. place < 65536) places.now }
    requires unit { HasPointers parts.now places.now Body (256 * (part_at parts.now at).number) at (at + 1) unit.old }
    ensures end { IsEnd parts.now at result }
    ensures unit { HasPointers parts.now places.now Body (256 * (part_at parts.now at).number) at result unit.new }
{
    for k in at + 1..parts.len() {
        if !is_body(&parts[k]) {
            return k;
        }
        set_pointer(unit, parts[k].number % POINTERS, places[k]);
    }
    parts.len()
}

/// Builds the block of the index that is part `at` of a new ProDOS file, in a unit of 512 bytes: the pointers to the
/// units behind it.
pub fn build_index(parts: &[NewPart], places: &[u32], at: usize, unit: &mut [u8])
    requires file { (storage : ℕ) × AreProParts storage parts.now }
    requires at { at < length parts.now }
    requires index { (part_at parts.now at).kind ≡ Index }
    requires count { length places.now ≡ length parts.now }
    requires places { All (λ place. place < 65536) places.now }
    requires unit { length unit.old ≡ 512 }
    ensures { IsTableUnit parts.now places.now Body (256 * (part_at parts.now at).number) unit.new }
{
    unit.fill(0);
    put_bodies(parts, places, at, unit);
}

/// Builds the block of the master index of a new ProDOS file, its first part, in a unit of 512 bytes: the pointers to
/// its indexes.
pub fn build_master(parts: &[NewPart], places: &[u32], unit: &mut [u8])
    requires file { (storage : ℕ) × AreProParts storage parts.now }
    requires master { (part_at parts.now 0).kind ≡ Master }
    requires count { length places.now ≡ length parts.now }
    requires places { All (λ place. place < 65536) places.now }
    requires unit { length unit.old ≡ 512 }
    ensures { IsTableUnit parts.now places.now Index 0 unit.new }
{
    unit.fill(0);
    for k in 1..parts.len() {
        if is_index(&parts[k]) {
            set_pointer(unit, parts[k].number, places[k]);
        }
    }
}

// Where the parts of a volume stand among its available places, and which of these are lost.
ghost use Rattle.std.specs.Prelude.{
  ◌≡◌,
  ◌<◌,
  ◌≢◌,
  ◌≤◌,
  false,
  not,
  length,
  filter,
  All,
  AllPairs,
  IfOk,
  ◌&&◌,
  slice_index,
  slice_index_or,
};
ghost use Rattle.vol_format.specs.Directory.{files, is_system, is_free};
ghost use Rattle.vol_format.specs.Standing.{index_in, layout_of};
ghost use Rattle.vol_layout.specs.Layouts.{AreDistinct, IsInRange};

use a2_device::Part;
use std::alloc::{AllocError, Allocator};
use vol_format::{Format, Link};
use vol_layout::{Layout, LayoutError};

// How many places are available.
pub fn count_available<F: Format>(format: &F, volume: &F::Volume) -> u32
    ensures { result ≡ length (F.directory format.now volume.now).available }
{
    let mut count = 0;
    while format.available(volume, count).is_some() {
        count += 1;
    }
    count
}

// How many entries are files'.
pub fn count_files<F: Format>(format: &F, volume: &F::Volume) -> u32
    ensures { result ≡ length (files (F.directory format.now volume.now)) }
{
    let mut count = 0;
    for file in 0..format.entries(volume) {
        if !matches!(format.root(volume, file), Link::Directory) {
            count += 1;
        }
    }
    count
}

// The number of an available place.
fn number_of<F: Format>(format: &F, volume: &F::Volume, place: u32) -> u32
    requires place { place < (F.directory format.now volume.now).places }
    requires outside { is_system (F.directory format.now volume.now) place ≡ false }
    ensures { result ≡ index_in (F.directory format.now volume.now).available place }
{
    match format.index(volume, place) {
        Some(number) => number,
        None => unreachable!(),
    }
}

// The available place of a number that there is.
fn place_at<F: Format>(format: &F, volume: &F::Volume, number: u32) -> u32
    requires { number < length (F.directory format.now volume.now).available }
    ensures value { result ≡ slice_index (F.directory format.now volume.now).available number }
    ensures inside { result < (F.directory format.now volume.now).places }
{
    match format.available(volume, number) {
        Some(place) => place,
        None => unreachable!(),
    }
}

// Whether a place is lost, where a table has the places at which a part stands.
fn is_lost<F: Format>(format: &F, volume: &F::Volume, taken: &[bool], place: u32) -> bool
    requires place { place < (F.directory format.now volume.now).places }
    requires taken { length taken.now ≡ (F.directory format.now volume.now).places }
    ensures { result ≡ (not (is_free (F.directory format.now volume.now) place)
        && not (slice_index_or taken.now place false)) }
{
    !format.is_free(volume, place) && !taken[place as usize]
}

// The places that are lost, where a table has the places at which a part stands.
pub fn lost_of<F: Format, A: Allocator>(
    alloc: A,
    format: &F,
    volume: &F::Volume,
    taken: &[bool],
) -> Result<Vec<u32, A>, AllocError>
    requires { length taken.now ≡ (F.directory format.now volume.now).places }
    ensures { IfOk result (λ lost. lost.items
        ≡ filter (λ place.
        not (is_free (F.directory format.now volume.now) place) && not (slice_index_or taken.now place false))
        (F.directory format.now volume.now).available) }
{
    let mut lost = Vec::new(alloc);
    for number in 0..count_available(format, volume) {
        let place = place_at(format, volume, number);
        if is_lost(format, volume, taken, place) {
            lost.push(place)?;
        }
    }
    Ok(lost)
}

// The layout of these numbers, which are distinct and in range.
fn layout_at<A: Allocator + Copy>(
    alloc: A,
    at: Vec<u32, A>,
    places: u32,
) -> Result<Layout<A>, AllocError>
    requires distinct { AreDistinct at.items }
    requires in_range { IsInRange at.items places }
    ensures { IfOk result (λ layout. layout ≡ record { at = at.items; places = places }) }
{
    match Layout::new(alloc, at, places) {
        Ok(layout) => Ok(layout),
        Err(LayoutError::Memory) => Err(AllocError),
        Err(LayoutError::Repeat) => unreachable!(),
        Err(LayoutError::Range) => unreachable!(),
    }
}

// The numbers of the places at which parts stand.
fn numbers_of<F: Format, A: Allocator>(
    alloc: A,
    format: &F,
    volume: &F::Volume,
    parts: &[Part],
) -> Result<Vec<u32, A>, AllocError>
    requires places { All (λ (part : Part). part.place < (F.directory format.now volume.now).places) parts.now }
    requires outside { All (λ (part : Part). is_system (F.directory format.now volume.now) part.place
        ≡ false) parts.now }
    ensures { IfOk result (λ at. at.items ≡ layout_of (F.directory format.now volume.now) parts.now) }
{
    let mut at = Vec::new(alloc);
    for part in parts {
        at.push(number_of(format, volume, part.place))?;
    }
    Ok(at)
}

// The layout of parts that stand apart.
pub fn layout_of<F: Format, A: Allocator + Copy>(
    alloc: A,
    format: &F,
    volume: &F::Volume,
    parts: &[Part],
) -> Result<Layout<A>, AllocError>
    requires places { All (λ (part : Part). part.place < (F.directory format.now volume.now).places) parts.now }
    requires outside { All (λ (part : Part). is_system (F.directory format.now volume.now) part.place
        ≡ false) parts.now }
    requires apart { AllPairs (λ (part later : Part). part.place ≢ later.place) parts.now }
    ensures { IfOk result (λ layout. layout ≡ record {
      at = layout_of (F.directory format.now volume.now) parts.now;
      places = length (F.directory format.now volume.now).available;
    }) }
{
    let at = numbers_of(alloc, format, volume, parts)?;
    layout_at(alloc, at, count_available(format, volume))
}

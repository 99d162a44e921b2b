// The map of a volume, as text.
ghost use Rattle.std.specs.Prelude.{◌≡◌, ◌<◌, ◌*◌, ◌++◌, Some, length, map, IfOk, OnOk, string_bytes};
ghost use Rattle.std.specs.List.{range_with_len};
ghost use Rattle.shop_reads.specs.MapText.{
  block_line,
  block_lines,
  character_at,
  character_of,
  counts_text,
  how_many,
  map_text,
  picture,
  sector_character,
  sector_line,
  sector_lines,
};

use crate::place_state::PlaceState;
use std::alloc::{AllocError, Global};
use std::fmt;
use vol_layout::PlaceForm;

/// The tracks of a disk, and the sectors of a track.
const TRACKS: usize = 35;

const SECTORS: usize = 16;

/// How many blocks a line has.
const LINE_BLOCKS: usize = 64;

// The state of a place of a table.
fn state_at(places: &[PlaceState], place: usize) -> PlaceState
    ensures { character_of result ≡ character_at places.now place }
{
    match places.get(place) {
        Some(state) => *state,
        None => PlaceState::Free,
    }
}

// Adds the characters of a sector on all tracks.
fn push_tracks(text: &mut String, places: &[PlaceState], sector: usize) -> Result<(), AllocError>
    requires { sector < 16 }
    ensures { OnOk result (string_bytes text.new
        ≡ string_bytes text.old ++ map (sector_character places.now sector) (range_with_len 0 35)) }
{
    for track in 0..TRACKS {
        text.push(state_at(places, SECTORS * track + sector).character())?;
    }
    Ok(())
}

// Adds the line of a sector.
fn push_sector(text: &mut String, places: &[PlaceState], sector: usize) -> Result<(), AllocError>
    requires { sector < 16 }
    ensures { OnOk result (string_bytes text.new ≡ string_bytes text.old ++ sector_line places.now sector) }
{
    write!(text, "{sector:2} ")?;
    push_tracks(text, places, sector)?;
    text.push('\n')?;
    Ok(())
}

// The picture of a DOS 3.3 volume: the line of each sector, from the last to the first.
fn sector_lines(alloc: Global, places: &[PlaceState]) -> Result<String, AllocError>
    ensures { IfOk result (λ text. string_bytes text ≡ sector_lines places.now) }
{
    let mut text = String::new(alloc);
    for below in 0..SECTORS {
        push_sector(&mut text, places, SECTORS - 1 - below)?;
    }
    Ok(text)
}

// Adds the characters of some places.
fn push_places(text: &mut String, places: &[PlaceState]) -> Result<(), AllocError>
    ensures { OnOk result (string_bytes text.new ≡ string_bytes text.old ++ map character_of places.now) }
{
    for state in places {
        text.push(state.character())?;
    }
    Ok(())
}

// Adds the line of up to 64 blocks, by its number.
fn push_blocks(text: &mut String, places: &[PlaceState], number: usize) -> Result<(), AllocError>
    requires { 64 * number < length places.now }
    ensures { OnOk result (string_bytes text.new ≡ string_bytes text.old ++ block_line places.now number) }
{
    let first = LINE_BLOCKS * number;
    let behind = places.len().min(first + LINE_BLOCKS);
    write!(text, "{first:5} ")?;
    push_places(text, &places[first..behind])?;
    text.push('\n')?;
    Ok(())
}

// The picture of a ProDOS volume: a line for each 64 blocks begun.
fn block_lines(alloc: Global, places: &[PlaceState]) -> Result<String, AllocError>
    ensures { IfOk result (λ text. string_bytes text ≡ block_lines places.now) }
{
    let mut text = String::new(alloc);
    for number in 0..places.len().div_ceil(LINE_BLOCKS) {
        push_blocks(&mut text, places, number)?;
    }
    Ok(text)
}

// The picture of a volume whose places are named so.
fn picture(alloc: Global, form: PlaceForm, places: &[PlaceState]) -> Result<String, AllocError>
    ensures { IfOk result (λ text. string_bytes text ≡ picture form places.now) }
{
    match form {
        PlaceForm::Sector => sector_lines(alloc, places),
        PlaceForm::Block => block_lines(alloc, places),
    }
}

// How many parts there are, and how many of them and of the other places the picture has.
#[derive(Clone, Copy)]
struct CountsText {
    parts: usize,
    in_order: usize,
    elsewhere: usize,
    lost: usize,
    free: usize,
}

impl fmt::Display for CountsText {
    ghost output = { λ t. Some (counts_text t.parts t.in_order t.elsewhere t.lost t.free) };

    fn fmt<W: fmt::Write>(&self, f: &mut fmt::Formatter<W>) -> fmt::Result {
        let CountsText {
            parts,
            in_order,
            elsewhere,
            lost,
            free,
        } = *self;
        write!(
            f,
            "PARTS {parts} IN ORDER {in_order} ELSEWHERE {elsewhere} LOST {lost} FREE {free}"
        )
    }
}

// How many places have a character.
fn how_many(places: &[PlaceState], character: char) -> usize
    ensures { result ≡ how_many character places.now }
{
    let mut count = 0;
    for state in places {
        if state.character() == character {
            count += 1;
        }
    }
    count
}

/// The map of a volume whose places are in these states, with its count of parts.
///
/// # Errors
/// Want of memory alone.
pub fn map_text(
    alloc: Global,
    form: PlaceForm,
    parts: usize,
    places: &[PlaceState],
) -> Result<String, AllocError>
    ensures { IfOk result (λ text. string_bytes text ≡ map_text form parts places.now) }
{
    let mut text = picture(alloc, form, places)?;
    let counts = CountsText {
        parts,
        in_order: how_many(places, 'o'),
        elsewhere: how_many(places, 'x'),
        lost: how_many(places, '?'),
        free: how_many(places, '.'),
    };
    writeln!(text, "{counts}")?;
    Ok(text)
}

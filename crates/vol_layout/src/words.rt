// Places from words.
ghost use Rattle.std.specs.Prelude.{◌≡◌, ◌↔◌, ◌<◌, ◌≤◌, ℕ, List, IsTrue, IfSome, IfNone, IfOk, IfErr, map};
ghost use Rattle.std.specs.Fmt.{decimal};
ghost use Rattle.vol_layout.specs.declared.reserve_error.ReserveError.TheVariants.{Syntax};
ghost use Rattle.vol_layout.specs.declared.form.PlaceForm.TheVariants.{Sector};
ghost use Rattle.vol_layout.specs.Reserved.{IsPlaceList, place_word, places_named, words_of};
ghost use Rattle.vol_layout.specs.Words.{ArePlaces, IsPlain};

use crate::{PlaceForm, ReserveError};
use std::alloc::{AllocError, Allocator};

const LAST_TRACK: u32 = 34;

const LAST_SECTOR: u32 = 15;

const LAST_BLOCK: u32 = 65_535;

// Whether a word begins with a digit, and with 0 only where that is all of it.
fn is_plain(word: &[u8]) -> bool
    ensures { IsTrue result ↔ IsPlain word.now }
{
    match word.first() {
        Some(b'0') => word.len() == 1,
        Some(first) => first.is_ascii_digit(),
        None => false,
    }
}

// The number that a word is, up to the greatest.
fn number_of(word: &str, greatest: u32) -> Option<u32>
    ensures some { IfSome result (λ n. (word.now ≡ decimal n) × (n ≤ greatest)) }
    ensures none { IfNone result ((n : ℕ) → n ≤ greatest → word.now ≡ decimal n → ⊥) }
{
    if !is_plain(word.as_bytes()) {
        return None;
    }
    match word.parse::<u32>() {
        Ok(number) if number <= greatest => Some(number),
        _ => None,
    }
}

// The place that a word of a track and a sector names.
fn sector_of(word: &str) -> Option<u32>
    ensures some { IfSome result (λ place. (place < 560) × (word.now ≡ place_word Sector place)) }
    ensures none { IfNone result ((place : ℕ) → place < 560 → word.now ≡ place_word Sector place → ⊥) }
{
    let (track, sector) = word.split_once('/')?;
    let track = number_of(track, LAST_TRACK)?;
    let sector = number_of(sector, LAST_SECTOR)?;
    Some(16 * track + sector)
}

// The place that a word names.
fn place_of(word: &str, form: PlaceForm) -> Option<u32>
    ensures some { IfSome result (λ place. (place < places_named form) × (word.now ≡ place_word form place)) }
    ensures none { IfNone result ((place : ℕ) → place < places_named form → word.now ≡ place_word form place → ⊥) }
{
    match form {
        PlaceForm::Sector => sector_of(word),
        PlaceForm::Block => number_of(word, LAST_BLOCK),
    }
}

// The words of a text, between its commas.
fn words<'a, A: Allocator>(alloc: A, text: &'a str) -> Result<Vec<&'a str, A>, AllocError>
    ensures { IfOk result (λ words. map (λ w. w.now) words.items ≡ words_of text.now) }
{
    text.split(',').collect(alloc)
}

// The places that some words name, in order.
fn places_of_words<A: Allocator>(
    alloc: A,
    words: &[&str],
    form: PlaceForm,
) -> Result<Vec<u32, A>, ReserveError>
    ensures named { IfOk result (λ places. ArePlaces form (map (λ w. w.now) words.now) places.items) }
    ensures syntax { IfErr result (λ e. e ≡ Syntax → (places : List ℕ)
        → ¬ ArePlaces form (map (λ w. w.now) words.now) places) }
{
    let mut places = Vec::new(alloc);
    for word in words {
        match place_of(word, form) {
            Some(place) => places.push(place)?,
            None => return Err(ReserveError::Syntax),
        }
    }
    Ok(places)
}

/// The places that the words of a text name, in order.
pub fn places_of<A: Allocator + Copy>(
    alloc: A,
    text: &str,
    form: PlaceForm,
) -> Result<Vec<u32, A>, ReserveError>
    ensures named { IfOk result (λ places. IsPlaceList form text.now places.items) }
    ensures syntax { IfErr result (λ e. e ≡ Syntax → (places : List ℕ) → ¬ IsPlaceList form text.now places) }
{
    let words = words(alloc, text)?;
    places_of_words(alloc, words.as_slice(), form)
}

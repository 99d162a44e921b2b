//! How many moves each small layout is from the target, by a search level by level. It shares nothing with the planner:
//! a layout is here the digits of a number in base 6, the place of part k being digit k.

use std::alloc::{AllocError, Global};

/// How many numbers of four digits there are.
pub const CODES: usize = 1296;

/// More moves than any of these layouts needs.
const MOST_MOVES: u32 = 12;

/// The digits of a number.
pub fn places_of(code: usize) -> [u32; 4] {
    [
        (code % 6) as u32,
        (code / 6 % 6) as u32,
        (code / 36 % 6) as u32,
        (code / 216 % 6) as u32,
    ]
}

fn code_of(at: [u32; 4]) -> usize {
    let [first, second, third, fourth] = at;
    first as usize + 6 * second as usize + 36 * third as usize + 216 * fourth as usize
}

/// Whether the first digits are distinct places, and the others 0.
pub fn is_layout(at: [u32; 4], parts: usize, places: u32) -> bool {
    for (k, place) in at.iter().enumerate() {
        let is_right = if k < parts {
            *place < places && !at.iter().take(k).any(|other| other == place)
        } else {
            *place == 0
        };
        if !is_right {
            return false;
        }
    }
    true
}

// Notes each layout that is one move from this one and was not met before.
fn reach(met: &mut [Option<u32>], code: usize, parts: usize, places: u32, moves: u32) {
    for part in 0..parts {
        for to in 0..places {
            let mut at = places_of(code);
            if at.iter().take(parts).any(|place| *place == to) {
                continue;
            }
            if let Some(place) = at.get_mut(part) {
                *place = to;
            }
            if let Some(found) = met.get_mut(code_of(at)) {
                if found.is_none() {
                    *found = Some(moves);
                }
            }
        }
    }
}

/// The fewest moves from each layout to the target; a move can be taken back, so the search goes out from the target.
pub fn fewest_moves(
    alloc: Global,
    parts: usize,
    places: u32,
) -> Result<Vec<Option<u32>>, AllocError> {
    let mut met = vec![in alloc; None; CODES]?;
    let mut target = [0, 1, 2, 3];
    for place in target.iter_mut().skip(parts) {
        *place = 0;
    }
    if let Some(found) = met.get_mut(code_of(target)) {
        *found = Some(0);
    }
    for moves in 0..MOST_MOVES {
        for code in 0..CODES {
            if met.get(code) == Some(&Some(moves)) {
                reach(&mut met, code, parts, places, moves + 1);
            }
        }
    }
    Ok(met)
}

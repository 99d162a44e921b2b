//! Moves of one part each.

use thiserror::Error;

/// Part `part` goes to place `to`.
#[derive(Clone, Copy, PartialEq, Eq)]
pub struct Move {
    pub part: u32,
    pub to: u32,
}

/// Why a move is not made.
#[derive(Clone, Copy, PartialEq, Eq, Debug, Error)]
pub enum MoveError {
    /// Some part stands at the place to which the move goes.
    #[error("a part stands at the place to which the move goes")]
    Taken,
    /// There is no such part.
    #[error("there is no such part")]
    NoPart,
    /// There is no such place.
    #[error("there is no such place")]
    Range,
}

//! What a certificate tells, and why a text is none or one is not good.

ghost use Rattle.std.specs.Prelude.{◌≡◌};
ghost use Rattle.ring_cert.specs.declared.certificate.CertError.TheVariants as error;
ghost use Rattle.ring_cert.specs.declared.certificate.CertFault.TheVariants as fault;

use crate::parts::Parts;
use std::alloc::{AllocError, Allocator, Global};
use thiserror::Error;
use vol_layout::Move;

/// What the lines of a certificate tell, in their order.
pub struct Cert<A: Allocator = Global> {
    /// The place of each part.
    pub at: Vec<u32, A>,
    /// How many places there are.
    pub places: u32,
    /// Parts that are misplaced.
    pub off: Vec<u32, A>,
    /// Rings, each as its parts.
    pub rings: Vec<Parts<A>, A>,
    /// How many moves are needed at least.
    pub bound: u32,
    /// Moves that bring each part home.
    pub moves: Vec<Move, A>,
}

impl<A: Allocator> Drop for Cert<A> {
    fn drop(self) {
        let Cert {
            at: _,
            places: _,
            off: _,
            rings: _,
            bound: _,
            moves: _,
        } = self;
    }
}

/// Why a text is no certificate.
#[derive(Clone, Copy, PartialEq, Eq, Debug, Error)]
pub enum CertError {
    /// The line of this number, from 1, is the first that cannot stand there. A line that is missing comes after the
    /// last.
    #[error("line {0} cannot stand in a certificate")]
    Syntax(usize),
    /// Memory ran out.
    #[error("out of memory")]
    Memory,
}

impl From<AllocError> for CertError {
    ghost from_gives = { λ _ e. e ≡ error.Memory };

    fn from(_: AllocError) -> CertError {
        CertError::Memory
    }
}

/// Why a certificate is not good for a layout.
#[derive(Clone, Copy, PartialEq, Eq, Debug, Error)]
pub enum CertFault {
    /// It is one for another layout.
    #[error("the certificate is one for another layout")]
    OtherLayout,
    /// It tells this part as misplaced, and the part is at home, or there is none.
    #[error("part {0} is not misplaced")]
    NotMisplaced(u32),
    /// It tells this number twice, as misplaced or in its rings.
    #[error("part {0} is told twice")]
    Repeated(u32),
    /// The ring of this number, from 0, is none.
    #[error("ring {0} is no ring")]
    NotARing(usize),
    /// The move of this number, from 0, cannot be made.
    #[error("move {0} cannot be made")]
    IllegalMove(usize),
    /// The moves leave some part elsewhere than at home.
    #[error("the moves do not bring each part home")]
    NotAtTarget,
    /// The bound is not the number of the misplaced parts and the rings, or not that of the moves.
    #[error("the bound does not add up")]
    Sum,
    /// Memory ran out.
    #[error("out of memory")]
    Memory,
}

impl From<AllocError> for CertFault {
    ghost from_gives = { λ _ e. e ≡ fault.Memory };

    fn from(_: AllocError) -> CertFault {
        CertFault::Memory
    }
}

//! Volumes with other bytes written over them.
ghost use Rattle.std.specs.Prelude.{◌≡◌, vec_len, IfOk};

use crate::{hello, tree, tree_and_subdirectory};
use std::alloc::{AllocError, Global};

/// Bytes that stand in a unit, from an offset on.
pub type Piece<'a> = (usize, usize, &'a [u8]);

/// Writes such bytes over an image, whose units have so many bytes.
pub fn put_pieces(image: &mut [u8], unit: usize, pieces: &[Piece]) {
    for (number, offset, bytes) in pieces {
        let start = number.saturating_mul(unit).saturating_add(*offset);
        if let Some(part) = image.get_mut(start..start.saturating_add(bytes.len())) {
            part.copy_from_slice(bytes);
        }
    }
}

/// Writes the bytes of the first so many of some writes over an image, whose units have so many bytes.
pub fn put_writes(image: &mut [u8], unit: usize, writes: &[&[Piece]], count: u64) {
    for pieces in writes.iter().take(count as usize) {
        put_pieces(image, unit, pieces);
    }
}

/// The volume HELLO with these bytes.
pub fn hello_with(alloc: Global, pieces: &[Piece]) -> Result<Vec<u8>, AllocError>
    ensures { IfOk result (λ image. vec_len image ≡ 143360) }
{
    let mut image = hello(alloc)?;
    put_pieces(&mut image, 256, pieces);
    Ok(image)
}

/// The volume with BIG with these bytes.
pub fn tree_with(alloc: Global, pieces: &[Piece]) -> Result<Vec<u8>, AllocError> {
    let mut image = tree(alloc)?;
    put_pieces(&mut image, 512, pieces);
    Ok(image)
}

/// The volume with a subdirectory with these bytes.
pub fn sub_with(alloc: Global, pieces: &[Piece]) -> Result<Vec<u8>, AllocError> {
    let mut image = tree_and_subdirectory(alloc)?;
    put_pieces(&mut image, 512, pieces);
    Ok(image)
}

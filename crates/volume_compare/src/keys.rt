// Short keys of the paths of files, in an order in which they are found fast.
ghost use Rattle.std.specs.Prelude.{◌≡◌, IfOk, length};
ghost use Rattle.volume_compare.specs.Candidates.{AreKeysUpTo, AreRising, hash_of};
ghost use Rattle.volume_compare.specs.Pairs.{paths_of};

use crate::paths::file_path;
use file_formats::FileFormat;
use sha2::{Digest, Sha256};
use std::alloc::{AllocError, Global};

/// A short key of the path of a file, and the number of its entry.
#[derive(Clone, Copy)]
pub struct Key {
    pub hash: u64,
    pub file: u32,
}

/// A short key of a path. Paths that differ may have one key, as rarely as may be.
pub fn hash_of(path: &[u8]) -> u64
    ensures { result ≡ hash_of path.now }
{
    let digest = Sha256::digest(path);
    let mut first = [0; 8];
    first.copy_from_slice(&digest[..8]);
    u64::from_be_bytes(first)
}

// The keys of all files, in directory order.
fn keys_in_order<F: FileFormat>(
    alloc: Global,
    format: &F,
    volume: &F::Volume,
) -> Result<Vec<Key>, AllocError>
    ensures { IfOk result (λ keys. AreKeysUpTo (paths_of (F.files format.now) (F.directory format.now volume.now))
        (length (paths_of (F.files format.now) (F.directory format.now volume.now))) keys.items) }
{
    let mut keys = Vec::with_capacity(alloc, format.entries(volume) as usize)?;
    for file in 0..format.entries(volume) {
        if let Some(path) = file_path(alloc, format, volume, file)? {
            let hash = hash_of(path.as_bytes());
            keys.push(Key { hash, file })?;
        }
    }
    Ok(keys)
}

/// The keys of all files, in rising order.
///
/// # Errors
/// Want of memory alone.
pub fn keys_of<F: FileFormat>(
    alloc: Global,
    format: &F,
    volume: &F::Volume,
) -> Result<Vec<Key>, AllocError>
    ensures keys { IfOk result (λ keys. AreKeysUpTo (paths_of (F.files format.now) (F.directory format.now volume.now))
        (length (paths_of (F.files format.now) (F.directory format.now volume.now))) keys.items) }
    ensures rising { IfOk result (λ keys. AreRising keys.items) }
{
    let mut keys = keys_in_order(alloc, format, volume)?;
    keys.sort_unstable_by_key(|key| (key.hash, key.file));
    Ok(keys)
}

// Which files of two volumes belong together.
ghost use Rattle.std.specs.Prelude.{◌≡◌, ◌<◌, ◌+◌, ℕ, IfOk};
ghost use Rattle.vol_format.specs.Directory.{entries};
ghost use Rattle.volume_compare.specs.Candidates.{AreCandidates};
ghost use Rattle.volume_compare.specs.Pairs.{ArePairs, IsPartnerOf, IsTakenBefore, paths_of, taken_at};

use crate::candidates::Candidates;
use crate::paths::file_path;
use file_formats::FileFormat;
use std::alloc::{AllocError, Global};

/// The pairs of the files of two volumes.
#[derive(Drop)]
pub struct Pairs {
    /// The partner of the file of each entry of the first.
    pub partners: Vec<Option<u32>>,
    /// Of each entry of the second, whether its file is a partner.
    pub taken: Vec<bool>,
}

// The partner of the next file, which is taken.
fn next_partner<F: FileFormat>(
    alloc: Global,
    format: &F,
    first: &F::Volume,
    second: &F::Volume,
    file: u32,
    candidates: &mut Candidates,
) -> Result<Option<u32>, AllocError>
    requires file { file < entries (F.directory format.now first.now) }
    requires candidates { AreCandidates (paths_of (F.files format.now) (F.directory format.now second.now))
        candidates.old.keys.items candidates.old.fronts.items candidates.old.taken.items }
    requires before { (other : ℕ) → IsTakenBefore (paths_of (F.files format.now) (F.directory format.now first.now))
        (paths_of (F.files format.now) (F.directory format.now second.now)) file other
        (taken_at candidates.old.taken.items other) }

    ensures kept { AreCandidates (paths_of (F.files format.now) (F.directory format.now second.now))
        candidates.new.keys.items candidates.new.fronts.items candidates.new.taken.items }
    ensures partner { IfOk result (IsPartnerOf (paths_of (F.files format.now) (F.directory format.now first.now))
        (paths_of (F.files format.now) (F.directory format.now second.now)) file) }
    ensures taken { IfOk result (λ _. (other : ℕ)
        → IsTakenBefore (paths_of (F.files format.now) (F.directory format.now first.now))
        (paths_of (F.files format.now) (F.directory format.now second.now)) (file + 1) other
        (taken_at candidates.new.taken.items other)) }
{
    let Some(path) = file_path(alloc, format, first, file)? else {
        return Ok(None);
    };
    let partner = candidates.take(alloc, format, second, path.as_bytes())?;
    Ok(partner)
}

/// The pairs of the files of two volumes that were read.
///
/// # Errors
/// Want of memory alone.
pub fn pair_files<F: FileFormat>(
    alloc: Global,
    format: &F,
    first: &F::Volume,
    second: &F::Volume,
) -> Result<Pairs, AllocError>
    ensures { IfOk result (λ pairs. ArePairs (paths_of (F.files format.now) (F.directory format.now first.now))
        (paths_of (F.files format.now) (F.directory format.now second.now)) pairs.partners.items pairs.taken.items) }
{
    let mut candidates = Candidates::of(alloc, format, second)?;
    let mut partners = Vec::with_capacity(alloc, format.entries(first) as usize)?;
    for file in 0..format.entries(first) {
        partners.push(next_partner(alloc, format, first, second, file, &mut candidates)?)?;
    }
    Ok(Pairs {
        partners,
        taken: candidates.into_taken(),
    })
}

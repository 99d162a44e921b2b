// Files of a volume that are to be taken by their paths.
ghost use Rattle.std.specs.Prelude.{
  ◌≡◌,
  ◌<◌,
  ◌^◌,
  ℕ,
  false,
  true,
  IfOk,
  MatchOption,
  length,
  replicate,
  slice_set,
  slice_index,
};
ghost use Rattle.vol_format.specs.Directory.{entries};
ghost use Rattle.volume_compare.specs.Candidates.{
  AreCandidates,
  AreFronts,
  AreRising,
  HasNoneFree,
  IsFirstFree,
  IsFirstFreeIn,
  IsFreeAt,
  IsRun,
  NoneFreeIn,
  key_at,
  hash_of,
  with_taken,
};
ghost use Rattle.volume_compare.specs.Pairs.{paths_of};

use crate::keys::{Key, hash_of, keys_of};
use crate::paths::has_path;
use file_formats::FileFormat;
use std::alloc::{AllocError, Global};

/// The files of a volume, of which some are taken.
#[derive(Drop)]
pub struct Candidates {
    // Those of the paths of all files, in rising order.
    keys: Vec<Key>,
    // Of each key, how many keys from it on are known to be those of files that are taken.
    fronts: Vec<u32>,
    taken: Vec<bool>,
}

// The keys of one hash: from the first of them to behind the last.
#[derive(Clone, Copy)]
struct Run {
    start: usize,
    end: usize,
}

// The run of a hash.
fn run_of(keys: &[Key], hash: u64) -> Run
    requires { AreRising keys.now }
    ensures { IsRun keys.now hash result.start result.end }
{
    Run {
        start: keys.partition_point(|key| key.hash < hash),
        end: keys.partition_point(|key| key.hash <= hash),
    }
}

// The first of some keys whose file is free and has this path.
fn first_free<F: FileFormat>(
    alloc: Global,
    format: &F,
    volume: &F::Volume,
    keys: &[Key],
    taken: &[bool],
    path: &[u8],
) -> Result<Option<usize>, AllocError>
    requires long { length taken.now ≡ entries (F.directory format.now volume.now) }
    requires files { (place : ℕ) → place < length keys.now
        → (key_at keys.now place).file < entries (F.directory format.now volume.now) }
    ensures { IfOk result (λ found. MatchOption found
        (NoneFreeIn (paths_of (F.files format.now) (F.directory format.now volume.now)) taken.now path.now
        keys.now (length keys.now))
        (IsFreeAt (paths_of (F.files format.now) (F.directory format.now volume.now)) taken.now path.now keys.now)) }
{
    for (place, key) in keys.iter().enumerate() {
        if !taken[key.file as usize] && has_path(alloc, format, volume, key.file, path)? {
            return Ok(Some(place));
        }
    }
    Ok(None)
}

impl Candidates {
    /// The files of a volume, all of them free.
    ///
    /// # Errors
    /// Want of memory alone.
    pub fn of<F: FileFormat>(
        alloc: Global,
        format: &F,
        volume: &F::Volume,
    ) -> Result<Candidates, AllocError>
        ensures candidates { IfOk result (λ made. AreCandidates
            (paths_of (F.files format.now) (F.directory format.now volume.now)) made.keys.items made.fronts.items
            made.taken.items) }
        ensures free { IfOk result (λ made. made.taken.items
            ≡ replicate (entries (F.directory format.now volume.now)) false) }
    {
        let keys = keys_of(alloc, format, volume)?;
        let fronts = vec![in alloc; 0; keys.len()]?;
        let taken = vec![in alloc; false; format.entries(volume) as usize]?;
        Ok(Candidates {
            keys,
            fronts,
            taken,
        })
    }

    // How many keys from one on are known to be those of files that are taken.
    fn front(&self, place: usize) -> usize
        ensures { result ≡ slice_index self.now.fronts.items place }
    {
        match self.fronts.get(place) {
            Some(front) => *front as usize,
            None => 0,
        }
    }

    // Takes the file of a key of the run that begins at this start.
    fn mark(&mut self, start: usize, place: usize)
        requires few { length self.old.keys.items < 2 ^ 32 }
        requires start { start < length self.old.keys.items }
        requires place { place < length self.old.keys.items }
        requires file { (key_at self.old.keys.items place).file < length self.old.taken.items }
        requires fronts { AreFronts self.old.keys.items self.old.fronts.items self.old.taken.items }

        ensures keys { self.new.keys.items ≡ self.old.keys.items }
        ensures taken { self.new.taken.items
            ≡ slice_set self.old.taken.items (key_at self.old.keys.items place).file true }
        ensures fronts { AreFronts self.new.keys.items self.new.fronts.items self.new.taken.items }
    {
        let file = self.keys[place].file;
        self.taken[file as usize] = true;
        if place == start + self.front(start) {
            self.fronts[start] += 1;
        }
    }

    // The place of the key of the first free file with a path, in the run of the path's keys.
    fn find<F: FileFormat>(
        &self,
        alloc: Global,
        format: &F,
        volume: &F::Volume,
        path: &[u8],
        run: Run,
    ) -> Result<Option<usize>, AllocError>
        requires candidates { AreCandidates (paths_of (F.files format.now) (F.directory format.now volume.now))
            self.now.keys.items self.now.fronts.items self.now.taken.items }
        requires run { IsRun self.now.keys.items (hash_of path.now) run.start run.end }

        ensures { IfOk result (λ found. MatchOption found
            (HasNoneFree (paths_of (F.files format.now) (F.directory format.now volume.now)) self.now.taken.items
            path.now)
            (λ place. IsFirstFreeIn (paths_of (F.files format.now) (F.directory format.now volume.now))
            self.now.taken.items path.now self.now.keys.items run.start place)) }
    {
        let from = run.end.min(run.start + self.front(run.start));
        let keys = &self.keys[from..run.end];
        let found = first_free(alloc, format, volume, keys, &self.taken, path)?;
        match found {
            Some(behind) => Ok(Some(from + behind)),
            None => Ok(None),
        }
    }

    /// Takes the first free file with this path, where there is one.
    ///
    /// # Errors
    /// Want of memory alone; then none is taken.
    pub fn take<F: FileFormat>(
        &mut self,
        alloc: Global,
        format: &F,
        volume: &F::Volume,
        path: &[u8],
    ) -> Result<Option<u32>, AllocError>
        requires { AreCandidates (paths_of (F.files format.now) (F.directory format.now volume.now))
            self.old.keys.items self.old.fronts.items self.old.taken.items }

        ensures kept { AreCandidates (paths_of (F.files format.now) (F.directory format.now volume.now))
            self.new.keys.items self.new.fronts.items self.new.taken.items }
        ensures found { IfOk result (λ found. MatchOption found
            (HasNoneFree (paths_of (F.files format.now) (F.directory format.now volume.now)) self.old.taken.items
            path.now)
            (IsFirstFree (paths_of (F.files format.now) (F.directory format.now volume.now)) self.old.taken.items
            path.now)) }
        ensures taken { IfOk result (λ found. self.new.taken.items ≡ with_taken self.old.taken.items found) }
    {
        let run = run_of(&self.keys, hash_of(path));
        let Some(place) = self.find(alloc, format, volume, path, run)? else {
            return Ok(None);
        };
        let file = self.keys[place].file;
        self.mark(run.start, place);
        Ok(Some(file))
    }

    /// Which files are taken.
    pub fn into_taken(self) -> Vec<bool>
        ensures { result.items ≡ self.taken.items }
    {
        self.taken
    }
}

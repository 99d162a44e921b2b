// What is known of the files of a volume, one after the other.
ghost use Rattle.std.specs.Prelude.{◌≡◌, ◌≤◌, ◌++◌, [], ◌∷◌, ℕ, List, length, IfOk, OnOk, slice_index_or};
ghost use Rattle.a2_device.specs.declared.part.Part.{Part};
ghost use Rattle.file_listings.specs.Known.{
  HasRuns,
  all_ends,
  all_parts,
  end_at,
  facts_in,
  facts_of,
  facts_with,
  no_facts,
  parts_given,
  parts_kept,
  parts_view,
  run_at,
};

use crate::facts::{Facts, Kept, KnownFile, KnownParts};
use a2_device::Part;
use std::alloc::{AllocError, Allocator, Global};

/// What is known of the files of a volume, in the order of its entries. Where places are told, the parts of the files
/// stand in one list, those of each file behind those of the file before it.
#[derive(Drop)]
pub struct KnownFiles<A: Allocator = Global> {
    places: bool,
    kept: Vec<Kept, A>,
    parts: Vec<Part, A>,
    ends: Vec<u32, A>,
}

// Where the parts of a file end in the list of all.
fn end_of(ends: &[u32], file: usize) -> usize
    ensures { result ≡ slice_index_or ends.now file 0 }
{
    match ends.get(file) {
        Some(end) => *end as usize,
        None => 0,
    }
}

// Where the parts of a file begin.
fn start_of(ends: &[u32], file: usize) -> usize
    ensures { result ≡ end_at ends.now file }
{
    if file == 0 {
        return 0;
    }
    end_of(ends, file - 1)
}

// The parts of a file, out of those of all.
fn run_of<'a>(ends: &[u32], parts: &'a [Part], file: usize) -> &'a [Part]
    ensures { result.now ≡ run_at ends.now parts.now file }
{
    let start = start_of(ends, file);
    let count = end_of(ends, file).saturating_sub(start);
    let later = &parts[start.min(parts.len())..];
    &later[..count.min(later.len())]
}

// The most parts that a file has.
fn longest_run(ends: &[u32]) -> usize
    ensures { (file : ℕ) (parts : List Part) → length (run_at ends.now parts file) ≤ result }
{
    let mut longest = 0;
    let mut start = 0;
    for end in ends {
        longest = longest.max((*end as usize).saturating_sub(start));
        start = *end as usize;
    }
    longest
}

// The parts that are kept of a file.
fn parts_kept<'a>(places: bool, kept: Kept, run: &'a [Part]) -> KnownParts<'a>
    ensures { parts_view result ≡ parts_kept places kept.placed run.now }
{
    match (places, kept.placed) {
        (false, _) => KnownParts::Untold,
        (true, false) => KnownParts::Missing,
        (true, true) => KnownParts::Of(run),
    }
}

impl<A: Allocator + Copy> KnownFiles<A> {
    /// Nothing is known of any file.
    pub fn none(alloc: A) -> KnownFiles<A>
        ensures { facts_in result ≡ [] }
    {
        KnownFiles {
            places: false,
            kept: Vec::new(alloc),
            parts: Vec::new(alloc),
            ends: Vec::new(alloc),
        }
    }

    /// Room for what is known of so many files, of which places are told or not.
    ///
    /// # Errors
    /// Want of memory alone.
    pub fn with_capacity(alloc: A, files: usize, places: bool) -> Result<KnownFiles<A>, AllocError>
        ensures facts { IfOk result (λ known. facts_in known ≡ []) }
        ensures places { IfOk result (λ known. known.places ≡ places) }
        ensures runs { IfOk result HasRuns }
    {
        let kept = Vec::with_capacity(alloc, files)?;
        let ends = Vec::with_capacity(alloc, if places { files } else { 0 })?;
        Ok(KnownFiles {
            places,
            kept,
            parts: Vec::new(alloc),
            ends,
        })
    }

    /// Notes what is known of the next file, and where places are told its parts, if they are known.
    ///
    /// # Errors
    /// Want of memory alone; what 2^32 parts and more take counts as that.
    pub fn add(&mut self, facts: Facts, parts: Option<&[Part]>) -> Result<(), AllocError>
        ensures facts { OnOk result (HasRuns self.old → facts_in self.new
            ≡ facts_in self.old ++ facts_with facts (parts_given self.old.places parts.entry) ∷ []) }
        ensures places { OnOk result (self.new.places ≡ self.old.places) }
        ensures runs { OnOk result (HasRuns self.old → HasRuns self.new) }
    {
        let placed = parts.is_some();
        self.add_parts(parts.unwrap_or(&[]))?;
        self.kept.push(Kept::of(facts, placed))?;
        Ok(())
    }

    // Puts the parts of the next file behind those of all, where places are told.
    fn add_parts(&mut self, parts: &[Part]) -> Result<(), AllocError>
        ensures places { self.new.places ≡ self.old.places }
        ensures kept { self.new.kept ≡ self.old.kept }
        ensures parts { OnOk result (self.new.parts.items ≡ all_parts self.old.places self.old.parts.items parts.now) }
        ensures ends { OnOk result (self.new.ends.items
            ≡ all_ends self.old.places self.old.ends.items (self.old.parts.items ++ parts.now)) }
    {
        if self.places {
            self.parts.extend_from_slice(parts)?;
            let end = u32::try_from(self.parts.len()).map_err(|_| AllocError)?;
            self.ends.push(end)?;
        }
        Ok(())
    }

    // What is known of the file of an entry; nothing where there is none.
    pub(crate) fn at(&self, file: usize) -> KnownFile<'_>
        ensures { facts_of result ≡ slice_index_or (facts_in self.now) file no_facts }
    {
        match self.kept.get(file) {
            Some(kept) => {
                let run = run_of(&self.ends, &self.parts, file);
                KnownFile {
                    facts: kept.facts(),
                    parts: parts_kept(self.places, *kept, run),
                }
            }
            None => KnownFile::NONE,
        }
    }

    // The most parts that are told of a file.
    pub(crate) fn most_parts(&self) -> usize
        ensures { (file : ℕ) (parts : List Part) → length (run_at self.now.ends.items parts file) ≤ result }
    {
        longest_run(&self.ends)
    }
}

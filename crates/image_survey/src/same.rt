// Which images are the same as another, by their contents or by their disks.
ghost use Rattle.std.specs.Prelude.{
  ◌≡◌,
  ◌<◌,
  ◌≤◌,
  ◌↔◌,
  ◌+◌,
  ◌-◌,
  ◌^◌,
  ◌++◌,
  IfOk,
  IsTrue,
  List,
  OnOk,
  Option,
  Some,
  length,
  map,
  slice_index,
  ℕ,
};
ghost use Rattle.image_survey.specs.Grouping.{AreGrouped, AreNumbered, AreSorted, number_of};
ghost use Rattle.image_survey.specs.Same.{AreAlike, AreSameLines, group_lines, key_at};
ghost use Rattle.image_survey.specs.Told.{candidate_of, keys_by};

use crate::kept::Kept;
use crate::likeness::Likeness;
use std::alloc::{AllocError, Global};

/// The line of an image that is the same as another.
#[derive(Clone, Copy)]
pub struct SameLine {
    /// The number of its group, from 1.
    pub group: usize,
    /// The number of the image among those that are kept.
    pub image: usize,
}

// The key of an image, and its number among those that are kept.
#[derive(Clone, Copy)]
struct NumberedKey {
    key: [u8; 32],
    number: usize,
}

// The keys of images, in their order.
fn keys_in_order(
    alloc: Global,
    kept: &[Kept],
    likeness: Likeness,
) -> Result<Vec<NumberedKey>, AllocError>
    ensures { IfOk result (λ keys. AreNumbered (keys_by likeness (map candidate_of kept.now))
        (length kept.now) keys.items) }
{
    let mut keys = Vec::with_capacity(alloc, kept.len())?;
    for number in 0..kept.len() {
        if let Some(key) = kept[number].key(likeness) {
            keys.push(NumberedKey { key, number })?;
        }
    }
    Ok(keys)
}

// The keys of images, in rising order.
fn sorted_keys(
    alloc: Global,
    kept: &[Kept],
    likeness: Likeness,
) -> Result<Vec<NumberedKey>, AllocError>
    ensures { IfOk result (λ keys. AreSorted (keys_by likeness (map candidate_of kept.now)) keys.items) }
{
    let mut keys = keys_in_order(alloc, kept, likeness)?;
    keys.sort_by(|one, other| one.key.cmp(&other.key))?;
    Ok(keys)
}

// The keys of the images with a key, out of all in rising order.
fn run_of<'a>(keys: &'a [NumberedKey], key: &[u8; 32]) -> &'a [NumberedKey]
    ensures { (all : List (Option (List ℕ))) → AreSorted all keys.now
        → AreAlike all key.now (map number_of result.now) }
{
    let start = keys.partition_point(|one| one.key.cmp(key).is_lt());
    let later = &keys[start..];
    let count = later.partition_point(|one| one.key.cmp(key).is_le());
    &later[..count]
}

// Whether these are the keys of a group of images that begins with this one.
fn begins_group(run: &[NumberedKey], number: usize) -> bool
    ensures { IsTrue result ↔ ((2 ≤ length run.now) × (slice_index (map number_of run.now) 0 ≡ number)) }
{
    run.len() > 1 && run[0].number == number
}

// The groups of images that were found, and their lines.
#[derive(Drop)]
struct Groups {
    count: usize,
    lines: Vec<SameLine>,
}

impl Groups {
    // Adds the lines of a group of this number.
    fn add_lines(&mut self, group: usize, run: &[NumberedKey]) -> Result<(), AllocError>
        ensures lines { OnOk result (self.new.lines.items
            ≡ self.old.lines.items ++ group_lines group (map number_of run.now)) }
        ensures count { self.new.count ≡ self.old.count }
    {
        for key in run {
            let image = key.number;
            self.lines.push(SameLine { group, image })?;
        }
        Ok(())
    }

    // Adds the group of the images with the key of one, where it begins with that.
    fn add(&mut self, number: usize, run: &[NumberedKey]) -> Result<(), AllocError>
        requires { self.old.count < 2 ^ 64 - 1 }
        ensures { (keys : List (Option (List ℕ))) (key : List ℕ) → number < length keys → key_at keys number ≡ Some key
            → AreAlike keys key (map number_of run.now)
            → AreGrouped keys number self.old.count self.old.lines.items
            → OnOk result (AreGrouped keys (number + 1) self.new.count self.new.lines.items) }
    {
        if begins_group(run, number) {
            let group = self.count + 1;
            self.add_lines(group, run)?;
            self.count = group;
        }
        Ok(())
    }

    // Adds the group of the images that are the same as one, where it begins with that, out of the keys of all in
    // rising order.
    fn add_of(
        &mut self,
        number: usize,
        key: Option<[u8; 32]>,
        keys: &[NumberedKey],
    ) -> Result<(), AllocError>
        requires { self.old.count < 2 ^ 64 - 1 }
        ensures { (all : List (Option (List ℕ))) → number < length all → key_at all number ≡ key
            → AreSorted all keys.now
            → AreGrouped all number self.old.count self.old.lines.items
            → OnOk result (AreGrouped all (number + 1) self.new.count self.new.lines.items) }
    {
        match key {
            Some(key) => self.add(number, run_of(keys, &key)),
            None => Ok(()),
        }
    }
}

/// A line for each image of which another has the key too, group by group.
///
/// # Errors
/// Want of memory alone.
pub(crate) fn same_lines(
    alloc: Global,
    kept: &[Kept],
    likeness: Likeness,
) -> Result<Vec<SameLine>, AllocError>
    ensures { IfOk result (λ lines. AreSameLines (keys_by likeness (map candidate_of kept.now)) lines.items) }
{
    let keys = sorted_keys(alloc, kept, likeness)?;
    let mut groups = Groups {
        count: 0,
        lines: Vec::new(alloc),
    };
    for number in 0..kept.len() {
        groups.add_of(number, kept[number].key(likeness), keys.as_slice())?;
    }
    Ok(groups.lines)
}

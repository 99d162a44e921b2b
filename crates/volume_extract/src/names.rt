// How many entries of a folder have a bare name.
ghost use Rattle.std.specs.Prelude.{◌≡◌, ◌<◌, ◌≤◌, ◌+◌, ◌^◌, ◌++◌, [], ◌∷◌, IfOk, List, Option, count_by, length};
ghost use Rattle.volume_extract.specs.Keys.{NameKey, is_key, key_with};
ghost use Rattle.volume_extract.specs.Counts.{AreCounted, count_in, key_view};

use std::alloc::{AllocError, Global};
use std::collections::HashMap;

// The directory of an entry, and its bare name with small letters.
#[derive(PartialEq, Eq, Hash, Drop)]
struct Key {
    above: Option<u32>,
    name: Vec<u8>,
}

/// How many entries of each directory have which bare name.
#[derive(Drop)]
pub struct Names {
    counts: HashMap<Key, u32>,
}

impl Names {
    /// None have any.
    pub fn new(alloc: Global) -> Names
        ensures { AreCounted [] result }
    {
        Names {
            counts: HashMap::new(alloc),
        }
    }

    // How many have a bare name.
    fn count(&self, key: &Key) -> u32
        ensures { result ≡ count_in self.now (key_view key.now) }
    {
        match self.counts.get(key) {
            Some(count) => *count,
            None => 0,
        }
    }

    /// Counts one more entry of a directory with this bare name; its number among those that have it.
    ///
    /// # Errors
    /// Want of memory alone.
    pub fn number(&mut self, above: Option<u32>, name: Vec<u8>) -> Result<u32, AllocError>
        ensures some { IfOk result (λ number. 1 ≤ number) }
        ensures counted { (keys : List NameKey) → AreCounted keys self.old → length keys + 1 < 2 ^ 32
            → IfOk result (λ number. (number ≡ count_by (is_key (key_with above name.items)) keys + 1)
            × AreCounted (keys ++ key_with above name.items ∷ []) self.new) }
    {
        let key = Key { above, name };
        let number = self.count(&key).saturating_add(1);
        self.counts.insert(key, number)?;
        Ok(number)
    }
}

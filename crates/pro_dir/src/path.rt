// The paths of entries.
ghost use Rattle.std.specs.Prelude.{
  ◌≡◌,
  ◌≢◌,
  ◌<◌,
  ◌↔◌,
  ◌++◌,
  ◌∷◌,
  ℕ,
  List,
  IsTrue,
  true,
  length,
  reverse,
  OnOk,
  IfOk,
  IfSome,
  IfNone,
};
ghost use Rattle.std.specs.Str.{bytes_eq};
ghost use Rattle.pro_dir.specs.Entry.{is_directory, name_of};
ghost use Rattle.pro_dir.specs.Letters.{taken};
ghost use Rattle.pro_dir.specs.Listed.{directory_of};
ghost use Rattle.pro_dir.specs.Parents.{entry_in, parent_of as parent_in};
ghost use Rattle.pro_dir.specs.Paths.{folded, path_of};

use crate::VolumeDir;
use crate::letters::Letters;
use crate::parents::{entry_at, parent_of};
use std::alloc::{AllocError, Allocator};

// Puts a name, its last byte first, behind a text.
fn push_backward<A: Allocator>(text: &mut Vec<u8, A>, name: &[u8]) -> Result<(), AllocError>
    ensures { OnOk result (text.new.items ≡ text.old.items ++ reverse name.now) }
{
    for at in 0..name.len() {
        text.push(name[name.len() - 1 - at])?;
    }
    Ok(())
}

// Whether a name that is given is the stored one.
fn is_name(given: &[u8], stored: &[u8], letters: Letters) -> bool
    ensures { IsTrue result ↔ (taken letters given.now ≡ stored.now) }
{
    if given.len() != stored.len() {
        return false;
    }
    for at in 0..given.len() {
        if letters.take(given[at]) != stored[at] {
            return false;
        }
    }
    true
}

// Whether the last bytes of a path that is given are a slash and the stored name.
fn is_last_name(last: &[u8], name: &[u8], letters: Letters) -> bool
    requires { 0 < length last.now }
    ensures { IsTrue result ↔ (taken letters last.now ≡ 0x2f ∷ name.now) }
{
    last[0] == b'/' && is_name(&last[1..], name, letters)
}

// A path that is given without its last name, where that is the stored one, and the slash before it.
fn without_name<'a>(path: &'a [u8], name: &[u8], letters: Letters) -> Option<&'a [u8]>
    ensures some { IfSome result (λ above. taken letters path.now ≡ taken letters above.now ++ 0x2f ∷ name.now) }
    ensures none { IfNone result ((above : List ℕ) → taken letters path.now ≢ above ++ 0x2f ∷ name.now) }
{
    let at = path.len().checked_sub(name.len() + 1)?;
    let (above, last) = path.split_at(at);
    if !is_last_name(last, name, letters) {
        return None;
    }
    Some(above)
}

impl<A: Allocator> VolumeDir<A> {
    /// The entry of the directory in which an entry stands, if that is not the volume's. It stands before the entry,
    /// and the entry's path is its path, a slash and the entry's own name; the path of an entry of the volume's
    /// directory is its own name.
    pub fn parent(&self, entry: u32) -> Option<u32>
        requires { entry < length (directory_of self.now).entries }
        ensures value { result ≡ parent_in (directory_of self.now).entries entry }
        ensures before { IfSome result (λ parent. parent < entry) }
        ensures directory { IfSome result (λ parent.
            is_directory (entry_in (directory_of self.now).entries parent) ≡ true) }
        ensures below { IfSome result (λ parent. path_of (directory_of self.now).entries entry
            ≡ path_of (directory_of self.now).entries parent
            ++ 0x2f ∷ name_of (entry_in (directory_of self.now).entries entry).bytes) }
        ensures top { IfNone result (path_of (directory_of self.now).entries entry
            ≡ name_of (entry_in (directory_of self.now).entries entry).bytes) }
    {
        parent_of(self.entries.as_slice(), self.directories.as_slice(), entry)
    }

    // The name of an entry.
    fn name_at(&self, entry: u32) -> &[u8]
        requires { entry < length (directory_of self.now).entries }
        ensures { result.now ≡ name_of (entry_in (directory_of self.now).entries entry).bytes }
    {
        entry_at(self.entries.as_slice(), entry as usize).name()
    }

    /// Puts the path of an entry into a text, in place of what it had: the names of the directories that lead to the
    /// entry from the volume's and its own, joined by slashes. A text with room for it takes no memory.
    ///
    /// # Errors
    /// Want of memory alone.
    pub fn path_into<B: Allocator>(
        &self,
        entry: u32,
        path: &mut Vec<u8, B>,
    ) -> Result<(), AllocError>
        requires { entry < length (directory_of self.now).entries }
        ensures { OnOk result (path.new.items ≡ path_of (directory_of self.now).entries entry) }
    {
        path.clear();
        push_backward(path, self.name_at(entry))?;
        let mut number = entry;
        while let Some(parent) = self.parent(number) {
            path.push(b'/')?;
            push_backward(path, self.name_at(parent))?;
            number = parent;
        }
        path.reverse();
        Ok(())
    }

    /// The path of an entry, in a text of its own.
    ///
    /// # Errors
    /// Want of memory alone.
    pub fn path<B: Allocator>(&self, alloc: B, entry: u32) -> Result<Vec<u8, B>, AllocError>
        requires { entry < length (directory_of self.now).entries }
        ensures { IfOk result (λ path. path.items ≡ path_of (directory_of self.now).entries entry) }
    {
        let mut path = Vec::new(alloc);
        self.path_into(entry, &mut path)?;
        Ok(path)
    }

    // Whether a path that is given, with its letters taken so, is that of an entry.
    fn is_path(&self, entry: u32, path: &[u8], letters: Letters) -> bool
        requires { entry < length (directory_of self.now).entries }
        ensures { result ≡ bytes_eq (taken letters path.now) (path_of (directory_of self.now).entries entry) }
    {
        let mut rest = path;
        let mut number = entry;
        while let Some(parent) = self.parent(number) {
            let Some(above) = without_name(rest, self.name_at(number), letters) else {
                return false;
            };
            rest = above;
            number = parent;
        }
        is_name(rest, self.name_at(number), letters)
    }

    /// Whether a path as it is given, with its letters as capitals, is that of an entry.
    pub fn has_path(&self, entry: u32, path: &[u8]) -> bool
        requires { entry < length (directory_of self.now).entries }
        ensures { result ≡ bytes_eq (folded path.now) (path_of (directory_of self.now).entries entry) }
    {
        self.is_path(entry, path, Letters::AsCapitals)
    }

    /// Whether these bytes are the path of an entry, as it is stored.
    pub fn has_stored_path(&self, entry: u32, path: &[u8]) -> bool
        requires { entry < length (directory_of self.now).entries }
        ensures { result ≡ bytes_eq path.now (path_of (directory_of self.now).entries entry) }
    {
        self.is_path(entry, path, Letters::AsTheyAre)
    }
}

// A folder in memory.
ghost use Rattle.std.specs.Prelude.{◌≡◌, [], ◌∷◌, ◌++◌, map, true, OnErr, OnOk, IfErr};
ghost use Rattle.host_folders.specs.Folder.{after_file, after_folder};
ghost use Rattle.host_folders.specs.Memory.{made_of};

use crate::folder::{Folder, FolderFailure};
use std::alloc::{Allocator, Global};

/// What was made in a folder: a folder, or a file of these bytes, at a path.
#[derive(Drop)]
pub enum MadeItem<A: Allocator = Global> {
    Folder { path: String<A> },
    File { path: String<A>, bytes: Vec<u8, A> },
}

/// A folder in memory: it keeps all that was made in it, in order, and takes a path twice. Its calls fail for want of
/// memory alone, and then nothing is made.
#[derive(Drop)]
pub struct MemoryFolder<A: Allocator = Global> {
    alloc: A,
    items: Vec<MadeItem<A>, A>,
}

impl<A: Allocator + Copy> MemoryFolder<A> {
    /// A folder in which nothing was made.
    pub fn new(alloc: A) -> Self
        ensures { ⟦<MemoryFolder<A> as Folder>⟧.state result ≡ record { honest = true; made = [] } }
    {
        MemoryFolder {
            alloc,
            items: Vec::new(alloc),
        }
    }

    /// What was made in it, in order.
    pub fn items(&self) -> &[MadeItem<A>]
        ensures { map made_of result.now ≡ (⟦<MemoryFolder<A> as Folder>⟧.state self.now).made }
    {
        self.items.as_slice()
    }

    // Keeps one more.
    fn keep(&mut self, item: MadeItem<A>) -> Result<(), FolderFailure>
        ensures kept { OnOk result (self.new.items.items ≡ self.old.items.items ++ item ∷ []) }
        ensures failed { OnErr result (self.new.items.items ≡ self.old.items.items) }
        ensures memory { IfErr result (λ failure. failure ≡ FolderFailure.Memory) }
    {
        self.items.push(item).map_err(|_| FolderFailure::Memory)
    }
}

impl<A: Allocator + Copy> Folder for MemoryFolder<A> {
    ghost use Rattle.host_folders.specs.declared.folder.FolderFailure.TheVariants.{Memory};

    ghost state = { λ folder. record { honest = true; made = map made_of folder.items.items } };

    ghost may_fail = { λ _ failure. failure ≡ Memory };

    /// Keeps a folder.
    ///
    /// # Errors
    /// `Memory` for want of memory; nothing is made then.
    fn make_folder(&mut self, path: &str) -> Result<(), FolderFailure>
        ensures same { let state = ⟦<MemoryFolder<A> as Folder>⟧.state in
            (state self.new).honest ≡ (state self.old).honest }
        ensures made { let state = ⟦<MemoryFolder<A> as Folder>⟧.state in
            OnOk result (state self.new ≡ after_folder path.now (state self.old)) }
        ensures failed { let state = ⟦<MemoryFolder<A> as Folder>⟧.state in
            OnErr result (state self.new ≡ state self.old) }
        ensures cause { IfErr result (λ failure. failure ≡ FolderFailure.Memory) }
    {
        let path = path.to_string(self.alloc)?;
        self.keep(MadeItem::Folder { path })
    }

    /// Keeps a file.
    ///
    /// # Errors
    /// `Memory` for want of memory; nothing is made then.
    fn put(&mut self, path: &str, bytes: &[u8]) -> Result<(), FolderFailure>
        ensures same { let state = ⟦<MemoryFolder<A> as Folder>⟧.state in
            (state self.new).honest ≡ (state self.old).honest }
        ensures made { let state = ⟦<MemoryFolder<A> as Folder>⟧.state in
            OnOk result (state self.new ≡ after_file path.now bytes.now (state self.old)) }
        ensures failed { let state = ⟦<MemoryFolder<A> as Folder>⟧.state in
            OnErr result (state self.new ≡ state self.old) }
        ensures cause { IfErr result (λ failure. failure ≡ FolderFailure.Memory) }
    {
        let path = path.to_string(self.alloc)?;
        let bytes = Vec::from_slice(self.alloc, bytes)?;
        self.keep(MadeItem::File { path, bytes })
    }
}

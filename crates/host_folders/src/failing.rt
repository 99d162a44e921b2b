// A folder of whose calls one fails.
ghost use Rattle.std.specs.Prelude.{◌≡◌, ◌↔◌, None, Some, IfErr, IsTrue, OnErr, OnOk};
ghost use Rattle.host_folders.specs.Folder.{IsCutShort, after_file, after_folder};
ghost use Rattle.host_folders.specs.Path.{IsSafePath};
ghost use Rattle.host_folders.specs.Calls.{MakesFolder, PutsFile};
ghost use Rattle.host_folders.specs.Failing.{IsCounted, IsNext, IsRefused, MayFail};

use crate::folder::{Folder, FolderFailure};

/// Passes calls on to another folder, but for one that it refuses. It counts them all.
#[derive(Drop)]
pub struct FailingFolder<F: Folder> {
    folder: F,
    calls: u64,
    failing: Option<u64>,
}

impl<F: Folder> FailingFolder<F> {
    /// Refuses no call.
    pub fn none(folder: F) -> Self
        ensures { result ≡ record { folder = folder; calls = 0; failing = None } }
    {
        FailingFolder {
            folder,
            calls: 0,
            failing: None,
        }
    }

    /// Refuses the call that comes after `before` others, and no other.
    pub fn one(folder: F, before: u64) -> Self
        ensures { result ≡ record { folder = folder; calls = 0; failing = Some before } }
    {
        FailingFolder {
            folder,
            calls: 0,
            failing: Some(before),
        }
    }

    /// How many calls there were, the one that was refused too.
    pub fn calls(&self) -> u64
        ensures { result ≡ self.now.calls }
    {
        self.calls
    }

    /// The folder that calls were passed on to.
    pub fn folder(&self) -> &F
        ensures { result.now ≡ self.now.folder }
    {
        &self.folder
    }

    /// The folder that calls were passed on to.
    pub fn into_inner(self) -> F
        ensures { result ≡ self.folder }
    {
        let FailingFolder { folder, .. } = self;
        folder
    }

    // Counts one more call, and tells whether it is refused.
    fn refuses_next(&mut self) -> bool
        ensures refused { IsTrue result ↔ IsNext self.old }
        ensures counted { IsCounted self.old self.new }
        ensures folder { self.new.folder ≡ self.old.folder }
    {
        let number = self.calls;
        self.calls = self.calls.saturating_add(1);
        self.failing == Some(number)
    }
}

impl<F: Folder> Folder for FailingFolder<F> {
    ghost state = { λ f. F.state f.folder };

    ghost may_fail = { MayFail F.may_fail };

    /// Fails where it is the call to refuse, or is passed on.
    fn make_folder(&mut self, path: &str) -> Result<(), FolderFailure>
        requires safe { IsSafePath path.now }
        ensures same { (F.state self.new.folder).honest ≡ (F.state self.old.folder).honest }
        ensures cause { IfErr result (MayFail F.may_fail self.old) }
        ensures made { IsTrue (F.state self.old.folder).honest
            → OnOk result (F.state self.new.folder ≡ after_folder path.now (F.state self.old.folder)) }
        ensures failed { IsTrue (F.state self.old.folder).honest
            → OnErr result (F.state self.new.folder ≡ F.state self.old.folder) }

        ensures counted { IsCounted self.old self.new }
        ensures refused { IsNext self.old → IsRefused self.old self.new result }
        ensures passed_on { ¬ IsNext self.old
            → MakesFolder path.now result (F.state self.old.folder) (F.state self.new.folder) }
    {
        if self.refuses_next() {
            return Err(FolderFailure::Failed);
        }
        self.folder.make_folder(path)
    }

    /// Fails where it is the call to refuse, or is passed on.
    fn put(&mut self, path: &str, bytes: &[u8]) -> Result<(), FolderFailure>
        requires safe { IsSafePath path.now }
        ensures same { (F.state self.new.folder).honest ≡ (F.state self.old.folder).honest }
        ensures cause { IfErr result (MayFail F.may_fail self.old) }
        ensures made { IsTrue (F.state self.old.folder).honest
            → OnOk result (F.state self.new.folder ≡ after_file path.now bytes.now (F.state self.old.folder)) }
        ensures failed { IsTrue (F.state self.old.folder).honest → OnErr result
            (IsCutShort path.now bytes.now (F.state self.old.folder) (F.state self.new.folder)) }

        ensures counted { IsCounted self.old self.new }
        ensures refused { IsNext self.old → IsRefused self.old self.new result }
        ensures passed_on { ¬ IsNext self.old
            → PutsFile path.now bytes.now result (F.state self.old.folder) (F.state self.new.folder) }
    {
        if self.refuses_next() {
            return Err(FolderFailure::Failed);
        }
        self.folder.put(path, bytes)
    }
}

// Files of which one reading fails.
ghost use Rattle.std.specs.Prelude.{◌≡◌, ◌↔◌, None, Some, IfErr, IfOk, IsTrue};
ghost use Rattle.folder_adding.specs.Failing.{IsCounted, IsNext, IsRefused, MayFail};
ghost use Rattle.folder_adding.specs.Files.{IsReadOf};
ghost use Rattle.shop_replies.specs.Reading.{IsReadFailure};

use crate::host_files::HostFiles;
use shop_replies::Failure;
use std::alloc::Global;

/// Passes readings on to other files, but for one that it refuses. It counts them all.
#[derive(Drop)]
pub struct FailingFiles<H: HostFiles> {
    files: H,
    calls: u64,
    failing: Option<u64>,
}

impl<H: HostFiles> FailingFiles<H> {
    /// Refuses no reading.
    pub fn none(files: H) -> Self
        ensures { result ≡ record { files = files; calls = 0; failing = None } }
    {
        FailingFiles {
            files,
            calls: 0,
            failing: None,
        }
    }

    /// Refuses the reading that comes after `before` others, and no other.
    pub fn one(files: H, before: u64) -> Self
        ensures { result ≡ record { files = files; calls = 0; failing = Some before } }
    {
        FailingFiles {
            files,
            calls: 0,
            failing: Some(before),
        }
    }

    /// How many readings there were, the one that was refused too.
    pub fn calls(&self) -> u64
        ensures { result ≡ self.now.calls }
    {
        self.calls
    }

    // Counts one more reading, and tells whether it is refused.
    fn refuses_next(&mut self) -> bool
        ensures refused { IsTrue result ↔ IsNext self.old }
        ensures counted { IsCounted self.old self.new }
        ensures files { self.new.files ≡ self.old.files }
    {
        let number = self.calls;
        self.calls = self.calls.saturating_add(1);
        self.failing == Some(number)
    }
}

impl<H: HostFiles> HostFiles for FailingFiles<H> {
    ghost holds = { λ f. H.holds f.files };

    ghost may_fail = { MayFail H.may_fail };

    /// Fails where it is the reading to refuse, or is passed on.
    fn read(&mut self, alloc: Global, file: usize) -> Result<Vec<u8>, Failure>
        ensures same { H.holds self.new.files ≡ H.holds self.old.files }
        ensures read { IfOk result (λ read. IsReadOf (H.holds self.old.files) file read.items) }
        ensures failed { IfErr result IsReadFailure }
        ensures cause { IfErr result (MayFail H.may_fail self.old file) }

        ensures counted { IsCounted self.old self.new }
        ensures refused { IsNext self.old → IsRefused self.old self.new result }
    {
        if self.refuses_next() {
            return Err(Failure::Input);
        }
        self.files.read(alloc, file)
    }
}

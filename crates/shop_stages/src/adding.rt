// A job that adds the files of a folder to the volume of its image: the folder is looked through, and its files are
// read one at a time, as each is saved.
ghost use Rattle.std.specs.Prelude.{ℕ, List, None, Option};
ghost use Rattle.shop_replies.specs.Reading.{IsReadFailure};

use crate::ending::end;
use crate::opening::Opened;
use crate::stop::Stop;
use folder_adding::{HostEntry, HostFiles, HostKind, add_reply, is_hidden};
use shop_changes::MOST_INPUT;
use shop_host::{Finder, Host, Kind, Readable, Root, read_file};
use shop_jobs::{AddOptions, Beside, Job};
use shop_outputs::Ending;
use shop_replies::{Failure, Refusal};
use std::alloc::Global;
use std::io::{ErrorKind, Write};

/// What a name that is no UTF-8 is told of, where it stands in the folder itself.
const FOLDER_ITSELF: &str = ".";

/// What a folder has, as it is added.
#[derive(Drop)]
struct Entries {
    found: Vec<HostEntry>,
}

impl Finder for Entries {
    fn passes_over(&self, name: &str) -> bool {
        is_hidden(name)
    }

    fn take(&mut self, mut path: String, kind: Kind) -> Result<(), Failure> {
        let kind = match kind {
            Kind::File => HostKind::File,
            Kind::Folder => HostKind::Folder,
            Kind::Other | Kind::Unnamed => HostKind::Other,
            Kind::Unread => return Err(Failure::Input),
        };
        if path.is_empty() {
            path.push_str(FOLDER_ITSELF)?;
        }
        self.found.push(HostEntry { path, kind })?;
        Ok(())
    }
}

// All that a folder has, in the order of the paths' bytes.
fn entries_of<H: Host>(host: &mut H, root: Root<'_>) -> Result<Vec<HostEntry>, Failure> {
    let mut entries = Entries {
        found: Vec::new(root.alloc),
    };
    root.look_through(host, &mut entries)?;
    let Entries { mut found } = entries;
    found.sort()?;
    Ok(found)
}

/// The files of the entries of a folder.
#[derive(Drop)]
struct FolderFiles<'a, H: Host> {
    host: &'a mut H,
    root: Root<'a>,
    entries: &'a [HostEntry],
}

impl<H: Host> HostFiles for FolderFiles<'_, H> {
    ghost holds = { λ _. None };

    ghost may_fail = { λ _ _ failure. IsReadFailure failure };

    fn read(&mut self, _alloc: Global, file: usize) -> Result<Vec<u8>, Failure> {
        let Some(entry) = self.entries.get(file) else {
            return Err(Failure::Input);
        };
        let root = self.root;
        let place = root.place_of(entry.path.as_str())?;
        let most = MOST_INPUT as u32;
        read_file(self.host, place.as_str(), Readable::FileItself, most)
    }
}

// The path of the folder that a job names, without the slashes at its end, if a folder is there.
fn folder_of<'a, H: Host>(host: &mut H, beside: &'a Beside) -> Result<&'a str, Stop> {
    let Some(path) = beside.folder() else {
        return Err(Stop::from(Refusal::Folder));
    };
    match host.found(path) {
        Ok(found) if found.is_folder() => Ok(path.trim_end_matches('/')),
        Err(error) if error.kind() == ErrorKind::OutOfMemory => Err(Stop::from(Failure::Memory)),
        _ => Err(Stop::from(Refusal::Folder)),
    }
}

/// Adds the files of the folder that a job names to the volume of its image, and lets that go to the output file.
pub fn add_job<H: Host, T: Write>(
    host: &mut H,
    job: &Job,
    options: &AddOptions,
    opened: &mut Opened<H>,
    text: &mut T,
) -> Result<Ending, Stop> {
    let reading = &job.input.reading;
    let image = opened.take_image(host, reading)?;
    let alloc = host.alloc();
    let path = folder_of(host, &job.input.beside)?;
    let root = Root { alloc, path };
    let entries = entries_of(host, root)?;
    let entries = entries.as_slice();
    let mut files = FolderFiles {
        host,
        root,
        entries,
    };
    let shell = match &opened.container {
        Some(container) => Some(&container.shell),
        None => None,
    };
    let reply = add_reply(alloc, reading, options, image, entries, &mut files, shell);
    Ok(end(host, job, reply, &opened.files, text))
}

// A survey: of the files that a path leads to, or of those that standard input names.
use crate::stop::Stop;
use disk_container::MOST_BYTES;
use image_survey::{FileId, ImageVerdict, Survey, SurveyError, Surveyed, survey_image};
use shop_files::{Foreign, foreign_of, tell_foreign};
use shop_host::{
    Finder, Host, Kind, Readable, Root, failure_of, front_of, front_of_input, open_readable,
};
use shop_jobs::{Source, SurveyForm};
use shop_outputs::{Ending, Unwritten};
use shop_replies::Failure;
use std::alloc::Global;
use std::io::Write;

/// A file that is told of, by its path; or a folder with a name in it that can't be read.
#[derive(PartialEq, Eq, PartialOrd, Ord, Drop)]
struct Item {
    path: String,
    is_unread: bool,
}

/// A file that was read.
#[derive(Drop)]
struct FileRead {
    /// Which file it is, whatever path leads to it.
    file: FileId,
    /// Its bytes, up to one past the most of a container.
    bytes: Vec<u8>,
}

// Reads a file, if it is a regular one. It shares the lock with others that read: one that another program changes is
// not read.
fn read_file<H: Host>(host: &mut H, path: &str) -> Result<FileRead, Failure> {
    let mut file = open_readable(host, path, Readable::File)?;
    let node = match host.found_open(&file) {
        Ok(found) => found.node,
        Err(error) => return Err(failure_of(&error)),
    };
    Ok(FileRead {
        file: FileId {
            device: node.device,
            number: node.number,
        },
        bytes: front_of(host, &mut file, MOST_BYTES as u32)?,
    })
}

// Whether no one volume was found in a file.
fn is_without_volume(found: &Surveyed) -> bool {
    match found {
        Surveyed::Other => true,
        Surveyed::Image(image) => !matches!(image.verdict, ImageVerdict::Best(_)),
        Surveyed::Unread => false,
    }
}

// Which other kind of file bytes are. A survey reads containers.
fn kind_of(bytes: &[u8]) -> Option<Foreign> {
    foreign_of(bytes).filter(|kind| *kind != Foreign::Container)
}

/// A survey on its way.
#[derive(Drop)]
struct Surveying<'a, T: Write> {
    alloc: Global,
    survey: Survey,
    /// Whether it is explained of which other kinds files are.
    explains: bool,
    /// Whether something was told.
    has_told: bool,
    /// How many things in the folder that are no files were passed over.
    passed: u64,
    text: &'a mut T,
}

impl<T: Write> Surveying<'_, T> {
    // Why a file is not told of. Behind the lines of others no line says so: what was told is the beginning of an
    // answer, and nothing else.
    fn stop(&self, error: SurveyError) -> Stop {
        match error {
            SurveyError::Memory if !self.has_told => Stop::from(Failure::Memory),
            SurveyError::Memory | SurveyError::Output => Stop::Unwritten(Unwritten::Text),
        }
    }

    // Tells of one more file what was found of it.
    fn tell(&mut self, path: &str, file: Option<FileId>, found: &Surveyed) -> Result<(), Stop> {
        match self.survey.add(self.alloc, path, file, found, self.text) {
            Ok(()) => {
                self.has_told = true;
                Ok(())
            }
            Err(error) => Err(self.stop(error)),
        }
    }

    // Tells of one more file that it can't be read.
    fn tell_unread(&mut self, path: &str) -> Result<(), Stop> {
        self.tell(path, None, &Surveyed::Unread)
    }

    // Reads a file: which one it is, and what is found of it.
    fn look_at<H: Host>(
        &self,
        host: &mut H,
        path: &str,
    ) -> Result<(Option<FileId>, Surveyed), Failure> {
        let FileRead { file, bytes } = read_file(host, path)?;
        let foreign = kind_of(bytes.as_slice());
        let found = survey_image(self.alloc, bytes)?;
        if let Some(foreign) = foreign
            && self.explains
            && is_without_volume(&found)
        {
            tell_foreign(host, path, foreign);
        }
        Ok((Some(file), found))
    }

    // Tells of one more file, or that it can't be read, or not be looked at for want of memory.
    fn tell_file<H: Host>(&mut self, host: &mut H, path: &str) -> Result<(), Stop> {
        match self.look_at(host, path) {
            Ok((file, found)) => self.tell(path, file, &found),
            Err(_) => self.tell_unread(path),
        }
    }

    // Tells of items in turn.
    fn tell_items<H: Host>(&mut self, host: &mut H, items: &[Item]) -> Result<(), Stop> {
        for item in items {
            let path = item.path.as_str();
            if item.is_unread {
                self.tell_unread(path)?;
            } else {
                self.tell_file(host, path)?;
            }
        }
        Ok(())
    }

    // Tells of the files that standard input names, a path a line.
    fn tell_list<H: Host>(&mut self, host: &mut H) -> Result<(), Stop> {
        let list = input_of(host)?;
        for line in list.as_slice().split(|byte| *byte == b'\n') {
            match std::str::from_utf8(line) {
                Ok("") => {}
                Ok(path) => self.tell_file(host, path)?,
                Err(_) => self.tell_unread("-")?,
            }
        }
        Ok(())
    }

    // Tells of all files in a folder.
    fn tell_folder<H: Host>(&mut self, host: &mut H, path: &str) -> Result<(), Stop> {
        let root = Root {
            alloc: self.alloc,
            path: path.trim_end_matches('/'),
        };
        let items = items_of(host, root)?;
        self.passed = items.passed;
        self.tell_items(host, items.found.as_slice())
    }

    // Tells of the file at a path, or of all files in the folder there.
    fn tell_path<H: Host>(&mut self, host: &mut H, path: &str) -> Result<(), Stop> {
        match host.found(path) {
            Ok(found) if found.is_folder() => self.tell_folder(host, path),
            Ok(_) => {
                let (file, found) = self.look_at(host, path)?;
                self.tell(path, file, &found)
            }
            Err(error) => Err(Stop::from(failure_of(&error))),
        }
    }
}

/// What a folder has that is told of.
#[derive(Drop)]
struct Items<'a> {
    root: Root<'a>,
    found: Vec<Item>,
    /// How many links, pipes and devices it has.
    passed: u64,
}

impl Finder for Items<'_> {
    fn passes_over(&self, _name: &str) -> bool {
        false
    }

    fn take(&mut self, path: String, kind: Kind) -> Result<(), Failure> {
        let is_unread = match kind {
            Kind::File => false,
            Kind::Unread | Kind::Unnamed => true,
            Kind::Folder => return Ok(()),
            Kind::Other => {
                self.passed = self.passed.saturating_add(1);
                return Ok(());
            }
        };
        self.found.push(Item {
            path: self.root.place_of(path.as_str())?,
            is_unread,
        })?;
        Ok(())
    }
}

// The files of a folder and of all folders in it, in the order of their paths' bytes.
fn items_of<'a, H: Host>(host: &mut H, root: Root<'a>) -> Result<Items<'a>, Failure> {
    let mut items = Items {
        root,
        found: Vec::new(root.alloc),
        passed: 0,
    };
    root.look_through(host, &mut items)?;
    items.found.sort()?;
    Ok(items)
}

// What standard input has. A list that is longer than any memory is not taken for a shorter one.
fn input_of<H: Host>(host: &mut H) -> Result<Vec<u8>, Failure> {
    let list = front_of_input(host, u32::MAX)?;
    if list.len() > u32::MAX as usize {
        return Err(Failure::Memory);
    }
    Ok(list)
}

/// Tells of the files that a survey looks at, those of a path or those that standard input names, then which images are
/// the same and how many files there are.
pub fn survey_job<H: Host, T: Write>(
    host: &mut H,
    image: &Source,
    form: SurveyForm,
    explains: bool,
    text: &mut T,
) -> Result<Ending, Stop> {
    let alloc = host.alloc();
    let mut surveying = Surveying {
        alloc,
        survey: Survey::new(alloc, form),
        explains,
        has_told: false,
        passed: 0,
        text,
    };
    match image {
        Source::Nothing => {}
        Source::StandardInput => surveying.tell_list(host)?,
        Source::File(path) => surveying.tell_path(host, path.as_str())?,
    }
    let Surveying {
        survey,
        passed,
        text,
        ..
    } = surveying;
    Ok(Ending::written(survey.end(alloc, passed, text)))
}

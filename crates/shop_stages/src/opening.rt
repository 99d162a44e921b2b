// The files of a job, opened.
use crate::noting::note_paths;
use crate::stop::Stop;
use a2_media::Extent;
use image_settling::OpenContainer;
use shop_files::{Found, JobFiles};
use shop_host::Host;
use shop_inputs::{OpenImage, extra_bytes, is_in_its_file};
use shop_jobs::{Beside, ImageReading, Job, Source};
use shop_replies::{Failure, Refusal, Side, most_of_image};

/// The files of a job that has an image, opened: the image is held, with its lock, as long as this.
pub struct Opened<H: Host> {
    pub files: JobFiles,
    pub image: OpenImage<H>,
    /// The bytes of the image, where all of them were read: of one in a container its own.
    pub bytes: Option<Vec<u8>>,
    /// Those of the other image or of the file beside it, where they were read.
    pub extra: Option<Vec<u8>>,
    /// The container that the image was found in.
    pub container: Option<OpenContainer>,
}

impl<H: Host> Drop for Opened<H> {
    fn drop(self) {
        let Opened {
            files: _,
            image: _,
            bytes: _,
            extra: _,
            container: _,
        } = self;
    }
}

impl<H: Host> Opened<H> {
    /// Where the image stands in its file, if that is a container.
    pub fn part(&self) -> Option<Extent> {
        let container = self.container.as_ref()?;
        Some(Extent {
            start: container.says.start as u64,
            size: container.says.size as u64,
        })
    }

    /// The bytes of the image, which are read where they were not.
    ///
    /// # Errors
    /// Those of `OpenImage::bytes`.
    pub fn take_image(&mut self, host: &mut H, reading: &ImageReading) -> Result<Vec<u8>, Failure> {
        match self.bytes.take() {
            Some(bytes) => Ok(bytes),
            None => self.image.bytes(host, most_of_image(reading)),
        }
    }

    /// The bytes of what a job reads beside its image, which are read where they were not.
    ///
    /// # Errors
    /// Those of `extra_bytes`.
    pub fn take_extra(&mut self, host: &mut H, beside: &Beside) -> Result<Vec<u8>, Failure> {
        match self.extra.take() {
            Some(bytes) => Ok(bytes),
            None => extra_bytes(host, beside),
        }
    }
}

/// Looks where the files of a job lead.
pub fn job_files<H: Host>(host: &mut H, job: &Job, found: &mut Found) -> Result<JobFiles, Stop> {
    note_paths(host.alloc(), job, found);
    match JobFiles::of(host, job) {
        Ok(files) => Ok(files),
        Err(_) => Err(Stop::from(Failure::Memory)),
    }
}

// Whether a job is to change its image in a file that it is not changed in, as the words say: no look at the file is
// needed. A word may leave open how the image is read.
fn is_out_of_place(job: &Job) -> bool {
    let is_kept = match job.input.reading.volume() {
        Some(volume) => is_in_its_file(volume),
        None => true,
    };
    job.output.is_in_place() && (job.input.image == Source::StandardInput || !is_kept)
}

// Opens the image of a job, and notes why its file can't be opened.
fn open_image<H: Host>(
    host: &mut H,
    job: &Job,
    files: &JobFiles,
    found: &mut Found,
) -> Result<OpenImage<H>, Stop> {
    let path = match &job.input.image {
        Source::Nothing => return Err(Stop::from(Failure::Input)),
        Source::StandardInput => return Ok(OpenImage::StandardInput),
        Source::File(path) => path.as_str(),
    };
    let image_use = files.image_use(job.output.is_in_place());
    match OpenImage::open(host, path, image_use) {
        Ok(image) => Ok(image),
        Err(fault) => {
            found.fault = Some(fault);
            Err(Stop::from(Failure::Input).of_image(&job.input.beside, Side::First))
        }
    }
}

/// Opens the files of a job that has an image. Two roles that one file has, of which one is written, and an output file
/// in the folder whose files are added are refused as words are.
pub fn open_job<H: Host>(host: &mut H, job: &Job, found: &mut Found) -> Result<Opened<H>, Stop> {
    let files = job_files(host, job, found)?;
    if let Some(clash) = files.clash(job.output.is_in_place()) {
        return Err(Stop::Clash(clash));
    }
    if is_out_of_place(job) {
        return Err(Stop::from(Refusal::InPlace));
    }
    let image = open_image(host, job, &files, found)?;
    Ok(Opened {
        files,
        image,
        bytes: None,
        extra: None,
        container: None,
    })
}

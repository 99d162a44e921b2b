// A job that puts the files of a volume into a new folder, done and ended: the folder takes its place once all is in it
// and told.
ghost use Rattle.std.specs.Prelude.{IfOk};
ghost use Rattle.host_folders.specs.NewFolder.{IsFolderName};
ghost use Rattle.shop_replies.specs.Volume.{HasUnitsOf};

use crate::opening::Opened;
use crate::stop::Stop;
use a2_device::Device;
use a2_media::FileError;
use host_folders::folder_name;
use shop_commands::{NotExtracted, extract_on_device};
use shop_host::Host;
use shop_jobs::{ExtractOptions, Job, Target, VolumeOptions};
use shop_outputs::{Ending, NewFolder, StartError, Unwritten, tell_output};
use shop_replies::{Failure, Refusal, Reply, device_of, open_volume};
use std::alloc::Global;
use std::io::{ErrorKind, Write};

// Whether the folder is there in which another is to stand.
fn is_in_folder<H: Host>(host: &mut H, path: &str) -> bool {
    let around = match path.rsplit_once('/') {
        None => ".",
        Some(("", _)) => "/",
        Some((around, _)) => around,
    };
    match host.found(around) {
        Ok(found) => found.is_folder(),
        Err(error) => !matches!(error.kind(), ErrorKind::NotFound | ErrorKind::NotADirectory),
    }
}

// Why the folder at a path is not begun.
fn not_started<H: Host>(host: &mut H, path: &str, error: StartError) -> Stop {
    match error {
        StartError::Taken => Stop::from(Refusal::Folder),
        StartError::Failed if !is_in_folder(host, path) => Stop::from(Refusal::Folder),
        StartError::Failed => Stop::Unwritten(Unwritten::Folder),
        StartError::Memory => Stop::from(Failure::Memory),
    }
}

// The path of the folder that a job makes, if it names one.
fn path_of(output: &Target) -> Result<&str, Stop>
    ensures { IfOk result (λ path. IsFolderName path.now) }
{
    let Some(into) = output.folder() else {
        return Err(Stop::from(Refusal::Folder));
    };
    match folder_name(into) {
        Some(path) => Ok(path),
        None => Err(Stop::from(Refusal::Folder)),
    }
}

// Begins the folder of a job and abandons it, where something else refuses the job: why it is not begun is told first.
fn try_folder<H: Host>(host: &mut H, output: &Target) -> Result<(), Stop> {
    let path = path_of(output)?;
    let error = match NewFolder::start(host, path) {
        Ok(folder) => {
            folder.abandon();
            return Ok(());
        }
        Err(error) => error,
    };
    Err(not_started(host, path, error))
}

// How a job ended whose files were not put into its folder, or not told; nothing of the folder stays.
fn end_without<T: Write>(error: NotExtracted, text: &mut T) -> Ending {
    match error {
        NotExtracted::Refused(reply) => Ending::written(reply.tell(text)),
        NotExtracted::Folder => Ending::stopped(Unwritten::Folder),
        NotExtracted::Text => Ending::stopped(Unwritten::Text),
    }
}

// Puts the files of the volume on a device into a folder that was begun, tells of them, and lets the folder take its
// place.
fn fill<H: Host, D: Device, T: Write>(
    alloc: Global,
    volume: VolumeOptions,
    options: ExtractOptions,
    device: &mut D,
    mut folder: NewFolder<'_, H>,
    text: &mut T,
) -> Ending
    requires units { HasUnitsOf volume.file_system (D.state device.old) }
{
    match extract_on_device(alloc, volume, options, device, &mut folder, text) {
        Ok(status) => match folder.finish() {
            Ok(()) => Ending::written(status),
            Err(_) => Ending::stopped(Unwritten::FolderAfterText),
        },
        Err(error) => {
            folder.abandon();
            end_without(error, text)
        }
    }
}

// Puts the files of the volume on a device into the folder of a job.
fn extract_units<H: Host, D: Device, T: Write>(
    host: &mut H,
    output: &Target,
    volume: VolumeOptions,
    options: ExtractOptions,
    device: &mut D,
    text: &mut T,
) -> Result<Ending, Stop>
    requires units { HasUnitsOf volume.file_system (D.state device.old) }
{
    let path = path_of(output)?;
    let alloc = host.alloc();
    let error = match NewFolder::start(host, path) {
        Ok(folder) => return Ok(fill(alloc, volume, options, device, folder, text)),
        Err(error) => error,
    };
    Err(not_started(host, path, error))
}

// The same of a volume whose image has these bytes.
fn extract_bytes<H: Host, T: Write>(
    host: &mut H,
    output: &Target,
    volume: VolumeOptions,
    options: ExtractOptions,
    bytes: Vec<u8>,
    text: &mut T,
) -> Result<Ending, Stop> {
    match open_volume(bytes, volume.order, volume.file_system) {
        Ok(image) => {
            let mut device = device_of(image, volume.file_system);
            extract_units(host, output, volume, options, &mut device, text)
        }
        Err(error) => {
            try_folder(host, output)?;
            Ok(Ending::written(Reply::from(error).tell(text)))
        }
    }
}

// The same of the volume of a job. The image is read as a whole where its units do not stand in its file as they are.
fn extract_volume<H: Host, T: Write>(
    host: &mut H,
    job: &Job,
    options: ExtractOptions,
    opened: &mut Opened<H>,
    text: &mut T,
) -> Result<Ending, Stop> {
    let Some(volume) = job.input.reading.volume() else {
        return Err(Stop::from(Refusal::Folder));
    };
    let output = &job.output;
    if opened.bytes.is_none() {
        match opened.image.device(host, opened.part(), volume) {
            Ok(mut device) => {
                return extract_units(host, output, volume, options, &mut device, text);
            }
            Err(FileError::InPlace) => {}
            Err(FileError::Length) => {
                try_folder(host, output)?;
                return Err(Stop::from(Refusal::Length));
            }
            Err(FileError::Io) => return Err(Stop::from(Failure::Input)),
        }
    }
    let bytes = opened.take_image(host, &job.input.reading)?;
    extract_bytes(host, output, volume, options, bytes, text)
}

/// Puts the files of the volume of a job into its folder, tells of them, and lets the folder take its place. Where
/// nothing was told since the folder can't be written, that is told.
pub fn extract_job<H: Host, T: Write>(
    host: &mut H,
    job: &Job,
    options: ExtractOptions,
    opened: &mut Opened<H>,
    text: &mut T,
) -> Result<Ending, Stop> {
    match extract_volume(host, job, options, opened, text) {
        Ok(ending) => Ok(tell_output(ending, text)),
        Err(Stop::Unwritten(unwritten)) => Ok(tell_output(Ending::stopped(unwritten), text)),
        Err(stop) => Err(stop),
    }
}

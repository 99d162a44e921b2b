// How a job ended.
ghost use Rattle.std.specs.Prelude.{◌≡◌, None};
ghost use Rattle.shop_outputs.specs.Endings.{stopped as ended_without};

use shop_replies::FAILED;

/// What could not be written at the end of a job.
#[derive(Clone, Copy)]
pub enum Unwritten {
    /// The text on standard output. What stood at the paths of the output files stands.
    Text,
    /// The text on standard output, of an image that was changed where it stands.
    TextAfterImage,
    /// The file of the image, before anything was told. What stood at the paths stands.
    Image,
    /// The file of the image, behind the text. What stood at the paths stands.
    ImageAfterText,
    /// The file of the image, after the certificate took its place.
    ImageAfterCertificate,
    /// The file of the certificate. What stood at the paths stands.
    Certificate,
    /// The file of the certificate, before an image was changed where it stands: nothing was done.
    CertificateBeforeImage,
    /// The file of the certificate, after an image was changed where it stands.
    CertificateAfterImage,
    /// The new folder, before anything was told. What stood at its path stands.
    Folder,
    /// The new folder, behind the text. What stood at its path stands.
    FolderAfterText,
}

/// How a job ended: its status, and what could not be written, if that was the end.
#[derive(Clone, Copy)]
pub struct Ending {
    pub status: u8,
    pub unwritten: Option<Unwritten>,
}

impl Ending {
    /// All was written.
    pub fn written(status: u8) -> Ending
        ensures { result ≡ record { status = status; unwritten = None } }
    {
        Ending {
            status,
            unwritten: None,
        }
    }

    /// Something could not be written.
    pub fn stopped(unwritten: Unwritten) -> Ending
        ensures { result ≡ ended_without unwritten }
    {
        Ending {
            status: FAILED,
            unwritten: Some(unwritten),
        }
    }
}

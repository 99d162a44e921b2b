// What the workshop is asked for.
use crate::changes::Change;
use crate::folders::{AddOptions, ExtractOptions, SurveyForm};
use crate::input::Input;
use crate::looks::Look;
use crate::making::{CreateOptions, WrapOptions};
use crate::target::Target;
use a2_device::Order;

/// What is asked of the volume of an image.
#[derive(PartialEq, Eq)]
pub enum VolumeAsk {
    /// What it holds.
    Look(Look),
    /// Its files in a new folder.
    Extract(ExtractOptions),
    /// The files of a folder, saved to it.
    Add(AddOptions),
    /// A change of it.
    Change(Change),
}

impl Drop for VolumeAsk {
    fn drop(self) {
        match self {
            VolumeAsk::Look(_) => {}
            VolumeAsk::Extract(_) => {}
            VolumeAsk::Add(_) => {}
            VolumeAsk::Change(_) => {}
        }
    }
}

/// What is asked.
#[derive(PartialEq, Eq)]
pub enum Ask {
    /// In which file systems and orders the image can be read, and which of them is best.
    Identify,
    /// Which images there are at a path, and which are the same.
    Survey(SurveyForm),
    /// The sectors of the image in another order.
    Convert {
        /// The order that is written.
        to: Order,
        /// The volume number of tracks that are made.
        volume: u8,
    },
    /// The image in a container.
    Wrap(WrapOptions),
    /// The image that a container has.
    Unwrap,
    /// The image of a new volume without a file.
    Create(CreateOptions),
    /// Something of the image's volume.
    Volume(VolumeAsk),
}

impl Drop for Ask {
    fn drop(self) {
        match self {
            Ask::Identify => {}
            Ask::Survey(_) => {}
            Ask::Convert { to: _, volume: _ } => {}
            Ask::Wrap(_) => {}
            Ask::Unwrap => {}
            Ask::Create(_) => {}
            Ask::Volume(_) => {}
        }
    }
}

/// A command with its words.
#[derive(PartialEq, Eq)]
pub struct Job {
    pub input: Input,
    pub ask: Ask,
    pub output: Target,
    /// The path of the file that the certificate is written to.
    pub certificate: Option<String>,
}

impl Drop for Job {
    fn drop(self) {
        let Job {
            input: _,
            ask: _,
            output: _,
            certificate: _,
        } = self;
    }
}

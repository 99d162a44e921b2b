// What ends the line of stages early.
use a2_media::FileError;
use image_settling::Unsettled;
use shop_files::Clash;
use shop_jobs::Beside;
use shop_outputs::{Ending, Unwritten};
use shop_replies::{Failure, Refusal, Reply, Side, written};
use std::io::Write;

/// The status of refused words.
const WORDS_REFUSED: u8 = 2;

/// Why a job is not done.
#[derive(Clone, Copy)]
pub enum Stop {
    /// The words are no job: why was told, with this status.
    Told(u8),
    /// Two roles of the job have one file, and one of them is written; or its output file is in the folder whose files
    /// it adds.
    Clash(Clash),
    /// The job is refused by its words or by a file; where it compares two images, by this one.
    Refused(Refusal, Option<Side>),
    /// A file could not be read, or there was no memory; where two images are compared, for this one.
    Failed(Failure, Option<Side>),
    /// A file can't be written, so nothing was done.
    Unwritten(Unwritten),
}

// A reply, which says of which of two images it is where it is of one.
fn of_side(reply: Reply, side: Option<Side>) -> Reply {
    match side {
        Some(side) => reply.of_image(side),
        None => reply,
    }
}

impl Stop {
    /// Tells why, and answers how the job ended.
    pub fn end<T: Write>(self, text: &mut T) -> Ending {
        Ending::written(match self {
            Stop::Unwritten(unwritten) => return Ending::stopped(unwritten),
            Stop::Told(status) => status,
            Stop::Clash(clash) => written(clash.line(), WORDS_REFUSED, text),
            Stop::Refused(refusal, side) => of_side(Reply::refused(refusal), side).tell(text),
            Stop::Failed(failure, side) => of_side(Reply::failed(failure), side).tell(text),
        })
    }

    /// The same of one of the images of a job, where another stands beside it.
    pub fn of_image(self, beside: &Beside, side: Side) -> Stop {
        if !matches!(beside, Beside::Image { .. }) {
            return self;
        }
        match self {
            Stop::Refused(refusal, _) => Stop::Refused(refusal, Some(side)),
            Stop::Failed(failure, _) => Stop::Failed(failure, Some(side)),
            stop => stop,
        }
    }
}

impl From<Refusal> for Stop {
    fn from(refusal: Refusal) -> Stop {
        Stop::Refused(refusal, None)
    }
}

impl From<Failure> for Stop {
    fn from(failure: Failure) -> Stop {
        Stop::Failed(failure, None)
    }
}

impl From<FileError> for Stop {
    fn from(error: FileError) -> Stop {
        match error {
            FileError::InPlace => Stop::from(Refusal::InPlace),
            FileError::Io => Stop::from(Failure::Input),
            FileError::Length => Stop::from(Refusal::Length),
        }
    }
}

impl From<Unsettled> for Stop {
    fn from(unsettled: Unsettled) -> Stop {
        match unsettled {
            Unsettled::Refused(refusal) => Stop::from(refusal),
            Unsettled::Memory => Stop::from(Failure::Memory),
        }
    }
}

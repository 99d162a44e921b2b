// What a job answers: a status, what is told, and an image or none.
ghost use Rattle.std.specs.Prelude.{◌≡◌, ◌⊎◌, IfOk, IsTrue, None, Some, option_map};
ghost use Rattle.std.specs.Io.KnownBytes.{Appends};
ghost use Rattle.shop_replies.specs.Reply.{
  AppendsFront,
  HandsOut,
  IsDelivered,
  IsMade,
  IsWritten,
  certificate_in,
  failed,
  failed_of,
  fault_files_in,
  held,
  of_image,
  refused,
  refused_of,
  status_number,
  status_of,
  text_of,
  told_of_image,
  told_text,
};

use crate::plan_writing::write_plan;
use crate::refusal::{Failure, Refusal, Side};
use crate::writing::{write_both, write_lines, write_numbered, write_whole, written};
use file_listings::{ProLines, ProSteps};
use std::alloc::{AllocError, Global};
use std::io::Write;

/// How a job ended.
#[derive(Clone, Copy)]
pub enum Status {
    /// The job is done.
    Done,
    /// What the job was to look at is not as it should be.
    Wrong,
    /// The job was refused.
    Refused,
    /// Something failed under the job.
    Failed,
}

/// What is told of a job.
pub enum Told {
    /// `OK`.
    Ok,
    /// A text.
    Text(String),
    /// Bytes, which are told as they are.
    Bytes(Vec<u8>),
    /// What was done to a volume: a line, with its end, and the certificate of the plan behind it.
    Report { line: String, certificate: Vec<u8> },
    /// The lines of the faults of a volume. The lines that name files are kept beside them for who explains the faults,
    /// and are not told.
    Faults { text: String, files: String },
    /// The lines of a listing, which are made as they are told.
    Listing(ProLines),
    /// The steps of a plan in words, which are made as they are told.
    Plan(ProSteps),
    /// Why it was refused.
    Refusal(Refusal),
    /// What failed.
    Failure(Failure),
    /// Why it was refused, and for which of two images.
    RefusalOf(Side, Refusal),
    /// What failed, and of which of two images.
    FailureOf(Side, Failure),
}

impl Drop for Told {
    fn drop(self) {
        match self {
            Told::Ok => {}
            Told::Text(_) => {}
            Told::Bytes(_) => {}
            Told::Report {
                line: _,
                certificate: _,
            } => {}
            Told::Faults { text: _, files: _ } => {}
            Told::Listing(_) => {}
            Told::Plan(_) => {}
            Told::Refusal(_) => {}
            Told::Failure(_) => {}
            Told::RefusalOf(_, _) => {}
            Told::FailureOf(_, _) => {}
        }
    }
}

/// What a job answers.
#[derive(Drop)]
pub struct Reply {
    /// How it ended.
    pub status: Status,
    /// What is told of it.
    pub told: Told,
    /// The image that it hands out, or the bytes of a file, for the output file.
    pub image: Option<Vec<u8>>,
}

/// The status of a writer that failed, and of a job under which something failed.
pub const FAILED: u8 = 4;

impl Status {
    /// The status as the program's: 0 done, 1 something is wrong, 3 refused, 4 failed.
    pub fn number(self) -> u8
        ensures { result ≡ status_number self }
    {
        match self {
            Status::Done => 0,
            Status::Wrong => 1,
            Status::Refused => 3,
            Status::Failed => FAILED,
        }
    }
}

impl Told {
    // Writes what is told to the last, or as much as the writer takes, and answers whether it took all.
    fn write<T: Write>(&mut self, text: &mut T) -> bool
        ensures whole { IsTrue result → Appends (T.contents text.old) (T.contents text.new) (told_text self.old) }
        ensures front { AppendsFront (T.contents text.old) (T.contents text.new) (told_text self.old) }
    {
        match self {
            Told::Ok => write_whole(b"OK\n", text),
            Told::Text(told) => write_whole(told.as_bytes(), text),
            Told::Bytes(bytes) => write_whole(bytes.as_slice(), text),
            Told::Report { line, certificate } => {
                write_both(line.as_bytes(), certificate.as_slice(), text)
            }
            Told::Faults { text: lines, .. } => write_whole(lines.as_bytes(), text),
            Told::Listing(lines) => write_lines(lines, text),
            Told::Plan(lines) => write_plan(lines, text),
            Told::Refusal(refusal) => write_whole(refusal.line(), text),
            Told::Failure(failure) => write_whole(failure.line(), text),
            Told::RefusalOf(side, refusal) => write_numbered(refusal.line(), *side, text),
            Told::FailureOf(side, failure) => write_numbered(failure.line(), *side, text),
        }
    }

    // The same of one of two images.
    fn of_image(self, side: Side) -> Told
        ensures { result ≡ told_of_image side self }
    {
        match self {
            Told::Refusal(refusal) => Told::RefusalOf(side, refusal),
            Told::Failure(Failure::Input) => Told::FailureOf(side, Failure::Input),
            Told::Failure(Failure::Device) => Told::FailureOf(side, Failure::Device),
            told => told,
        }
    }

    /// The text of what is told, as a whole.
    ///
    /// # Errors
    /// Want of memory.
    pub fn text(mut self, alloc: Global) -> Result<Vec<u8>, AllocError>
        ensures { IfOk result (λ text. text.items ≡ told_text self) }
    {
        let mut text = Vec::new(alloc);
        if self.write(&mut text) {
            Ok(text)
        } else {
            Err(AllocError)
        }
    }

    // Writes what is told and flushes the writer, and answers whether both were done.
    fn tell<T: Write>(&mut self, text: &mut T) -> bool
        ensures whole { IsTrue result → Appends (T.contents text.old) (T.contents text.new) (told_text self.old) }
        ensures front { AppendsFront (T.contents text.old) (T.contents text.new) (told_text self.old) }
    {
        self.write(text) && text.flush().is_ok()
    }
}

impl Reply {
    /// What is told, with no image.
    pub fn told(status: Status, told: Told) -> Reply
        ensures { result ≡ record { status = status; told = told; image = None } }
    {
        Reply {
            status,
            told,
            image: None,
        }
    }

    /// The text of a job that is done.
    pub fn done(text: String) -> Reply
        ensures { result ≡ record { status = Status.Done; told = Told.Text text; image = None } }
    {
        Reply::told(Status::Done, Told::Text(text))
    }

    /// The text of what a job found wrong.
    pub fn wrong(text: String) -> Reply
        ensures { result ≡ record { status = Status.Wrong; told = Told.Text text; image = None } }
    {
        Reply::told(Status::Wrong, Told::Text(text))
    }

    /// The lines of the faults of a volume, and the lines that name the files of some of them.
    pub fn faults(text: String, files: String) -> Reply
        ensures { result ≡ record { status = Status.Wrong; told = Told.Faults text files; image = None } }
    {
        Reply::told(Status::Wrong, Told::Faults { text, files })
    }

    /// The text of a refusal that says more than its name.
    pub fn unopened(text: String) -> Reply
        ensures { result ≡ record { status = Status.Refused; told = Told.Text text; image = None } }
    {
        Reply::told(Status::Refused, Told::Text(text))
    }

    /// The bytes that a job has read or made, which are told as they are.
    pub fn content(bytes: Vec<u8>) -> Reply
        ensures { result ≡ record { status = Status.Done; told = Told.Bytes bytes; image = None } }
    {
        Reply::told(Status::Done, Told::Bytes(bytes))
    }

    /// The steps of a plan in words.
    pub fn plan(lines: ProSteps) -> Reply
        ensures { result ≡ record { status = Status.Done; told = Told.Plan lines; image = None } }
    {
        Reply::told(Status::Done, Told::Plan(lines))
    }

    /// A job was refused.
    pub fn refused(refusal: Refusal) -> Reply
        ensures { result ≡ refused refusal }
    {
        Reply::told(Status::Refused, Told::Refusal(refusal))
    }

    /// Something failed under a job.
    pub fn failed(failure: Failure) -> Reply
        ensures { result ≡ failed failure }
    {
        Reply::told(Status::Failed, Told::Failure(failure))
    }

    /// A job was refused for one of two images.
    pub fn refused_of(side: Side, refusal: Refusal) -> Reply
        ensures { result ≡ refused_of side refusal }
    {
        Reply::told(Status::Refused, Told::RefusalOf(side, refusal))
    }

    /// Something failed of one of two images.
    pub fn failed_of(side: Side, failure: Failure) -> Reply
        ensures { result ≡ failed_of side failure }
    {
        Reply::told(Status::Failed, Told::FailureOf(side, failure))
    }

    /// The same reply, which says of which of two images it refuses or fails; want of memory is of none.
    pub fn of_image(self, side: Side) -> Reply
        ensures { result ≡ of_image side self }
    {
        Reply {
            told: self.told.of_image(side),
            ..self
        }
    }

    /// The image that a job has made, or the bytes that go to a new file: it tells `OK`.
    pub fn made(image: Vec<u8>) -> Reply
        ensures { result ≡ record { status = Status.Done; told = Told.Ok; image = Some image } }
    {
        Reply {
            status: Status::Done,
            told: Told::Ok,
            image: Some(image),
        }
    }

    /// The text of a job that has made an image, and the image with it.
    pub fn made_telling(text: String, image: Vec<u8>) -> Reply
        ensures { result ≡ record { status = Status.Done; told = Told.Text text; image = Some image } }
    {
        Reply {
            status: Status::Done,
            told: Told::Text(text),
            image: Some(image),
        }
    }

    /// What was done to a volume, a line with its end and the certificate of the plan, and the image with it.
    pub fn optimized(line: String, certificate: Vec<u8>, image: Vec<u8>) -> Reply
        ensures { result ≡ record { status = Status.Done; told = Told.Report line certificate; image = Some image } }
    {
        Reply {
            status: Status::Done,
            told: Told::Report { line, certificate },
            image: Some(image),
        }
    }

    /// The image as it stands after a failure of the device.
    pub fn interrupted(image: Vec<u8>) -> Reply
        ensures { result ≡ record { status = Status.Failed; told = Told.Failure Failure.Device; image = Some image } }
    {
        Reply {
            status: Status::Failed,
            told: Told::Failure(Failure::Device),
            image: Some(image),
        }
    }

    /// The certificate that is told with the report of an optimization; `None` of any other reply.
    pub fn certificate(&self) -> Option<&[u8]>
        ensures { option_map (λ s. s.now) result ≡ certificate_in self.now.told }
    {
        match &self.told {
            Told::Report { certificate, .. } => Some(certificate.as_slice()),
            _ => None,
        }
    }

    /// The lines that name the files of faults, where there are such; they are not told.
    pub fn fault_files(&self) -> Option<&str>
        ensures { option_map (λ s. s.now) result ≡ fault_files_in self.now.told }
    {
        match &self.told {
            Told::Faults { files, .. } => Some(files.as_str()),
            _ => None,
        }
    }

    /// Writes the text of a reply and answers its status, 4 where the writer fails.
    pub fn tell<T: Write>(self, text: &mut T) -> u8
        ensures { IsWritten (status_of self) (text_of self) result (T.contents text.old) (T.contents text.new) }
    {
        let Reply {
            status,
            mut told,
            ..
        } = self;
        if told.tell(text) {
            status.number()
        } else {
            FAILED
        }
    }

    /// Writes the text of a reply, then hands its image to the output file's writer, and answers its status, 4 where a
    /// writer fails. What hands out no image leaves that writer as it is; so does a text that could not be written.
    pub fn deliver<T: Write, O: Write>(self, text: &mut T, out: &mut O) -> u8
        ensures told { IsDelivered self result (held (T.contents text.old) (O.contents out.old))
            (held (T.contents text.new) (O.contents out.new)) }
        ensures out { (out.new ≡ out.old)
            ⊎ (IsMade self × HandsOut self result (T.contents text.old) (T.contents text.new)) }
    {
        let Reply {
            status,
            mut told,
            image,
        } = self;
        if !told.tell(text) {
            return FAILED;
        }
        match image {
            Some(image) => written(image.as_slice(), status.number(), out),
            None => status.number(),
        }
    }
}

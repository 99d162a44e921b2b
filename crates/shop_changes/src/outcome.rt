// What became of work that changes a volume where it stands.
ghost use Rattle.std.specs.Prelude.{◌≡◌};
ghost use Rattle.shop_replies.specs.Reply.{IsWritten};
ghost use Rattle.shop_changes.specs.Outcome.{outcome_status, outcome_text, report_text};

use crate::report_line::line_of;
use shop_replies::{FAILED, Failure, Reply, written};
use std::io::Write;
use vol_mover::Report;

/// What became of work that changes a volume where it stands.
#[derive(Drop)]
pub enum Outcome {
    /// Its parts stand in order, or so many writes nearer to it.
    Optimized(Report),
    /// A file was changed, a new one saved, the lost places marked free, or a directory made.
    Changed,
    /// A step of an optimization failed: the volume is sound, and stands so many writes nearer to order.
    Stopped,
    /// The work was refused, or has failed.
    Unfinished(Reply),
}

// Writes the text of a report: its line, then the certificate.
fn tell_report<T: Write>(report: &Report, text: &mut T) -> u8
    ensures { IsWritten 0 (report_text report.now) result (T.contents text.old) (T.contents text.new) }
{
    let line = line_of(report);
    if written(line.as_str().as_bytes(), 0, text) == FAILED {
        return FAILED;
    }
    written(report.cert.as_slice(), 0, text)
}

impl Outcome {
    /// Writes the text of an outcome and answers its status, 4 where the writer fails. Takes no memory.
    pub fn tell<T: Write>(self, text: &mut T) -> u8
        ensures { IsWritten (outcome_status self) (outcome_text self) result (T.contents text.old)
            (T.contents text.new) }
    {
        match self {
            Outcome::Optimized(report) => tell_report(&report, text),
            Outcome::Changed => written(b"OK\n", 0, text),
            Outcome::Stopped => written(Failure::Device.line(), FAILED, text),
            Outcome::Unfinished(reply) => reply.tell(text),
        }
    }
}

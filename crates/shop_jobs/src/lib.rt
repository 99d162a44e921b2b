//! What the workshop is asked for.
//!
//! A `Job` says what it reads (`Input`: its image, how that is read, and what it reads beside it), what is asked
//! (`Ask`), where what it makes goes (`Target`), and to which file its certificate. The file system and the order of an
//! image are said, or are to be found by the image; `Input::settle` puts what it has into their place.
//!
//! The libraries of jobs stand on this crate, and know nothing of how words are read; `shop_words` reads them.
//! Contracts see a job with texts for its words (`specs/Input.antt`, `specs/Job.antt`).
#![tactic(auto)]

mod changes;
mod folders;
mod input;
mod job;
mod law;
mod looks;
mod making;
mod target;

pub use changes::{Change, Edit, SaveAttributes, SaveForm};
pub use folders::{AddOptions, ExtractOptions, SurveyForm};
pub use input::{
    Beside, FileSystem, ImageReading, Input, OrderSaid, Source, VolumeOptions, VolumeReading, Ways,
};
pub use job::{Ask, Job, VolumeAsk};
pub use law::ways_settle_a_job;
pub use looks::{CompareOptions, FileName, ListForm, ListOptions, Look, ReadForm};
pub use making::{CreateOptions, NewVolume, WrapOptions};
pub use target::Target;

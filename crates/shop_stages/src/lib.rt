//! The program over any host: it does what words ask for, on the files of a host, and tells the answer.
//!
//! `run` is a line of stages, which stands in `stages.rt`: the words, the job that they ask for, the files of the job
//! opened, the job settled where a word leaves to the image how it is read, or the image stands in a container, the job
//! done, its files ended and its answer told. There alone jobs are told apart by what they ask. Each stage has its
//! file: `asking.rt`, `opening.rt`, `settling.rt`, `doing.rt` and `ending.rt`; a job that makes a folder is done and
//! ended in `extracting.rt`, one that adds the files of a folder in `adding.rt`, one that surveys a folder in
//! `surveying.rt`, one that makes a volume in `creating.rt`. `noting.rt` notes what is explained where the words ask
//! for that, and `stop.rt` has what ends the line early.
//!
//! The model: there is none of what a host holds, so few functions have clauses. What always holds: a change in place
//! is done on a device that has the units of the volume that the image is read as, and so is what is put into a folder;
//! and the files of a folder that is added fail for no other cause than they may.
#![tactic(auto)]

mod adding;
mod asking;
mod creating;
mod doing;
mod ending;
mod extracting;
mod noting;
mod opening;
mod settling;
mod stages;
mod stop;
mod surveying;

pub use stages::run;

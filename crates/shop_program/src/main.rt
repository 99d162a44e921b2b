//! `a2shop`, the Apple II disk workshop: hands its words and the system that it runs on to `shop_stages`, which does
//! what the words ask for.
//!
//! `words.rt` takes the words, and `streams.rt` the descriptors of closed streams, so that no file gets one.
#![tactic(auto)]

mod streams;
mod words;

use crate::streams::take_closed_streams;
use crate::words::{greet, told_fault, words_of};
use shop_host::SystemHost;
use shop_replies::{Failure, Reply};
use std::io::{BufWriter, Write};
use std::process::ExitCode;

// Takes the program's words and does what they ask for.
fn run_telling<T: Write>(rt: &HostRuntime, text: &mut T) -> u8 {
    let words = match words_of(rt) {
        Ok(words) => words,
        Err(error) => return told_fault(&error, text),
    };
    greet(rt, words.as_slice());
    shop_stages::run(&mut SystemHost::new(rt), words.as_slice(), text)
}

// Does what the program's words ask for, and answers its status. Standard output is written through a buffer, so that a
// listing is not written a line at a time. What a write that failed has left in the buffer is not written again.
fn run(rt: &HostRuntime) -> u8 {
    let Ok(streams) = take_closed_streams(rt) else {
        return Reply::failed(Failure::Input).tell(&mut rt.stdout());
    };
    let Ok(mut text) = BufWriter::new(rt.alloc(), rt.stdout()) else {
        return Reply::failed(Failure::Memory).tell(&mut rt.stdout());
    };
    let status = run_telling(rt, &mut text);
    let _ = text.into_parts();
    drop(streams);
    status
}

fn main(rt: HostRuntime) -> ExitCode {
    ExitCode::from(run(&rt))
}

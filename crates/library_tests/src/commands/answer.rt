// Lines of words, and what is answered to them.
use shop_commands::run_command;
use shop_replies::Reply;
use std::alloc::{AllocError, Global};
use std::io::{Read, Write};
use std::process::Abort;

/// The words of a line.
pub fn words_of(alloc: Global, line: &str) -> Result<Vec<String>, AllocError> {
    let mut words = Vec::new(alloc);
    for word in line.split_whitespace() {
        words.push(word.to_string(alloc)?)?;
    }
    Ok(words)
}

/// The status of a line of words, on the image of a reader and the bytes of a file beside it.
pub fn run_line<I: Read, T: Write, O: Write>(
    alloc: Global,
    line: &str,
    image: &mut I,
    mut extra: &[u8],
    text: &mut T,
    out: &mut O,
) -> Result<u8, AllocError> {
    let words = words_of(alloc, line)?;
    Ok(run_command(alloc, words.as_slice(), image, &mut extra, text, out))
}

/// A status, and what the writers of the text and of the output file then hold.
#[derive(Drop)]
pub struct Answer {
    pub status: u8,
    pub text: Vec<u8>,
    pub out: Vec<u8>,
}

impl Answer {
    /// What is delivered of a reply.
    pub fn of(alloc: Global, reply: Reply) -> Answer {
        let mut text = Vec::new(alloc);
        let mut out = Vec::new(alloc);
        let status = reply.deliver(&mut text, &mut out);
        Answer { status, text, out }
    }

    /// What a line of words answers, on the image of a reader and the bytes of a file beside it.
    pub fn to<I: Read>(
        alloc: Global,
        line: &str,
        image: &mut I,
        extra: &[u8],
    ) -> Result<Answer, AllocError> {
        let mut text = Vec::new(alloc);
        let mut out = Vec::new(alloc);
        let status = run_line(alloc, line, image, extra, &mut text, &mut out)?;
        Ok(Answer { status, text, out })
    }

    /// Whether these are the status and the text, with nothing for the output file.
    pub fn only_says(&self, status: u8, text: &[u8]) -> bool {
        self.status == status && self.text.as_slice() == text && self.out.is_empty()
    }
}

/// A line of words answers this status and text on the image of a reader, with nothing for the output file.
pub fn tells<I: Read>(
    rt: &impl Abort,
    alloc: Global,
    line: &str,
    image: &mut I,
    status: u8,
    text: &str,
) -> Result<(), AllocError> {
    let answer = Answer::to(alloc, line, image, &[])?;
    assert!(rt; answer.only_says(status, text.as_bytes()), "for {line}");
    Ok(())
}

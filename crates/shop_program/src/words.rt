// The program's words.
use shop_replies::{Failure, Reply, written};
use std::io::{self, ErrorKind, IsTerminal, Write};

/// The status of refused words.
const WORDS_REFUSED: u8 = 2;

/// The words after the program's name.
///
/// # Errors
/// Want of memory, and where one of them is no UTF-8.
pub fn words_of(rt: &HostRuntime) -> io::Result<Vec<String>> {
    Ok(std::env::args(rt)?.skip(1).collect(rt.alloc())?)
}

/// Tells why there are no words, and answers the status.
pub fn told_fault<T: Write>(error: &io::Error, text: &mut T) -> u8 {
    if error.kind() == ErrorKind::OutOfMemory {
        return Reply::failed(Failure::Memory).tell(text);
    }
    written(b"error: a word is no UTF-8\n", WORDS_REFUSED, text)
}

/// Says on a terminal that the program waits for an image there.
pub fn greet(rt: &HostRuntime, words: &[String]) {
    if words.is_empty() && rt.stdin().is_terminal() {
        let _ = eprintln!(rt;
            "a2shop waits for the image of a DOS 3.3 disk on standard input; `a2shop --help` \
                tells the commands."
        );
    }
}

// The words of the bytes of a line.
ghost use Rattle.std.specs.Prelude.{◌≡◌, ◌≢◌, IfNone, IfSome, [], map, slice_index_or};
ghost use Rattle.integer_basic.specs.Words.{word_text};

// The words of $00 to $7F, in order, with their spaces; an empty one is no word.
static WORDS: [&str; COUNT] = [
    "", "", "", ":", "LOAD ", "SAVE ", "CON ", "RUN ", "RUN ", "DEL ", ",", "NEW ", "CLR ",
    "AUTO ", ",", "MAN ", "HIMEM:", "LOMEM:", "+", "-", "*", "/", "=", "#", ">=", ">", "<=", "<>",
    "<", " AND ", " OR ", " MOD ", "^", "", "(", ",", " THEN ", " THEN ", ",", ",", "\"", "\"",
    "(", "", "", "(", "PEEK ", "RND ", "SGN ", "ABS ", "PDL ", "", "(", "+", "-", "NOT ", "(", "=",
    "#", "LEN(", "ASC(", "SCRN(", ",", "(", "$", "$", "(", ",", ",", ";", ";", ";", ",", ",", ",",
    "TEXT ", "GR ", "CALL ", "DIM ", "DIM ", "TAB ", "END", "INPUT ", "INPUT ", "INPUT ", "FOR ",
    "=", " TO ", " STEP ", "NEXT ", ",", "RETURN ", "GOSUB ", "REM ", "LET ", "GOTO ", "IF ",
    "PRINT ", "PRINT ", "PRINT ", "POKE ", ",", "COLOR=", "PLOT ", ",", "HLIN ", ",", " AT ",
    "VLIN ", ",", " AT ", "VTAB ", "=", "=", ")", ")", "LIST ", ",", "LIST ", "POP ", "NODSP ",
    "NODSP ", "NOTRACE ", "DSP ", "DSP ", "TRACE ", "PR#", "IN#",
];

// How many words there are.
const COUNT: usize = 128;

// The bytes of one of some words, and none past their end.
fn word_in<'a>(words: &[&'a str], byte: u8) -> &'a [u8]
    ensures { result.now ≡ slice_index_or (map (λ w. w.now) words.now) byte [] }
{
    match words.get(usize::from(byte)) {
        Some(word) => word.as_bytes(),
        None => &[],
    }
}

/// The word of a byte, with its spaces, where it has one.
pub(crate) fn word_of(byte: u8) -> Option<&'static [u8]>
    ensures some { IfSome result (λ word. word_text byte ≡ word.now) }
    ensures some_word { IfSome result (λ word. word.now ≢ []) }
    ensures none { IfNone result (word_text byte ≡ []) }
{
    let word = word_in(&WORDS, byte);
    if word.is_empty() { None } else { Some(word) }
}

//! The usage of a command, the help of its parameters, and the list of all commands, made of the table.
use crate::help::{self, GROUPS};
use crate::notes;
use shop_words::{Form, Kind, LeftOut, Parameter, Reading, Values, form_named};
use std::alloc::{AllocError, Global};

/// The most characters of a line of help.
const WIDTH: usize = 100;

/// How many characters stand before a usage.
const USAGE_TITLE: usize = 7;

/// The most characters of a line of the help of a parameter, which stands behind its name.
const HELP_WIDTH: usize = 66;

/// The words that an option takes, one behind the other.
fn words_of(alloc: Global, stand_ins: &[&str], words: &[&str]) -> Result<String, AllocError> {
    let words = words.join(alloc, ", ")?;
    if stand_ins.is_empty() {
        return Ok(words);
    }
    let stand_ins = stand_ins.join(alloc, ", ")?;
    format!(in alloc; "{stand_ins}, {words}")
}

/// What an option takes, for the user; nothing, where it takes any word.
pub fn wanted_of(alloc: Global, kind: Kind) -> Result<String, AllocError> {
    let (Kind::Needed(values) | Kind::Way(values) | Kind::Optional(values)) = kind else {
        return Ok(String::new(alloc));
    };
    match values {
        Values::Any => Ok(String::new(alloc)),
        Values::OneOf(words) => {
            let words = words_of(alloc, &[], words)?;
            format!(in alloc; "possible values: {words}")
        }
        Values::Way { words, stand_ins } => {
            let words = words_of(alloc, stand_ins, words)?;
            format!(in alloc; "possible values: {words}")
        }
        Values::Number { greatest } => format!(in alloc; "a number from 0 to {greatest}"),
        Values::Between { least, greatest } => {
            format!(in alloc; "a number from {least} to {greatest}")
        }
        Values::Address => "a number from 0 to 65535, or from 0x0 to 0xFFFF".to_string(alloc),
        Values::Short { most } => format!(in alloc; "a text of up to {most} bytes"),
    }
}

/// A text whose lines are as wide as they may be.
#[derive(Drop)]
struct Page {
    text: String,
    /// How many characters its last line has.
    column: usize,
    width: usize,
    /// How many spaces a line begins with that goes on.
    indent: usize,
}

impl Page {
    fn new_line(&mut self) -> Result<(), AllocError> {
        self.text.push_str("\n")?;
        for _ in 0..self.indent {
            self.text.push_str(" ")?;
        }
        self.column = self.indent;
        Ok(())
    }

    /// Puts a piece that is not broken behind the text.
    fn put(&mut self, piece: &str) -> Result<(), AllocError> {
        let length = piece.chars().count();
        if self.column > self.indent {
            if self.column.saturating_add(length) >= self.width {
                self.new_line()?;
            } else {
                self.text.push_str(" ")?;
                self.column = self.column.saturating_add(1);
            }
        }
        self.text.push_str(piece)?;
        self.column = self.column.saturating_add(length);
        Ok(())
    }

    fn put_words(&mut self, words: &str) -> Result<(), AllocError> {
        for word in words.split(' ') {
            self.put(word)?;
        }
        Ok(())
    }
}

/// Whether an option takes some words alone.
fn takes_words(kind: Kind) -> bool {
    match kind {
        Kind::Needed(values) | Kind::Way(values) | Kind::Optional(values) => {
            matches!(values, Values::OneOf(_) | Values::Way { .. })
        }
        Kind::Positional | Kind::Flag => false,
    }
}

/// The help of a parameter, with the words that it takes.
pub fn help_of(alloc: Global, parameter: &Parameter) -> Result<String, AllocError> {
    let mut page = Page {
        text: String::new(alloc),
        column: 0,
        width: HELP_WIDTH,
        indent: 0,
    };
    page.put_words(help::text_of(parameter.help))?;
    if takes_words(parameter.kind) {
        let wanted = wanted_of(alloc, parameter.kind)?;
        page.put_words(format!(in alloc; "[{wanted}]")?.as_str())?;
    }
    Ok(page.text)
}

/// Whether the words of a command say how its image is read, or say `--auto`.
fn wants_ways(reading: Reading) -> bool {
    matches!(
        reading,
        Reading::Volume(LeftOut::ByAuto) | Reading::Order(LeftOut::ByAuto)
    )
}

/// How the words of a command say how its image is read, where they may not leave that out.
fn ways_piece(alloc: Global, form: &Form) -> Result<String, AllocError> {
    let mut text = "(--auto |".to_string(alloc)?;
    for parameter in form.parameters {
        if matches!(parameter.kind, Kind::Way(_)) {
            let name = parameter.name;
            let value = help::value_of(parameter.help);
            write!(text, " --{name} {value}")?;
        }
    }
    text.push_str(")")?;
    Ok(text)
}

/// Whether a form has a parameter.
fn has_parameter(form: &Form, name: &str) -> bool {
    form.parameters
        .iter()
        .any(|parameter| parameter.name == name)
}

/// How a parameter stands in the usage of a command; nothing, where it stands with another.
fn piece_of(alloc: Global, form: &Form, parameter: &Parameter) -> Result<String, AllocError> {
    let name = parameter.name;
    let value = help::value_of(parameter.help);
    match parameter.kind {
        Kind::Positional => value.to_string(alloc),
        Kind::Needed(_) => format!(in alloc; "--{name} {value}"),
        Kind::Way(_) if !wants_ways(form.reading) => format!(in alloc; "[--{name} {value}]"),
        Kind::Way(_) if name == "order" => ways_piece(alloc, form),
        Kind::Optional(_) if name == "out" && has_parameter(form, "in-place") => {
            format!(in alloc; "(--{name} {value} | --in-place)")
        }
        Kind::Optional(_) => format!(in alloc; "[--{name} {value}]"),
        Kind::Flag if name != "in-place" => format!(in alloc; "[--{name}]"),
        Kind::Way(_) | Kind::Flag => Ok(String::new(alloc)),
    }
}

/// The usage of a command.
pub fn usage_of(alloc: Global, form: &Form) -> Result<String, AllocError> {
    let mut page = Page {
        text: String::new(alloc),
        column: USAGE_TITLE,
        width: WIDTH,
        indent: USAGE_TITLE,
    };
    let name = form.name;
    page.put(format!(in alloc; "a2shop {name}")?.as_str())?;
    for parameter in form.parameters {
        let piece = piece_of(alloc, form, parameter)?;
        if !piece.is_empty() {
            page.put(piece.as_str())?;
        }
    }
    if !wants_ways(form.reading) && !matches!(form.reading, Reading::Nothing) {
        page.put("[--auto]")?;
    }
    page.put("[--explain]")?;
    Ok(page.text)
}

/// The commands of a group, each with what it does.
fn put_group(text: &mut String, title: &str, names: &[&str]) -> Result<(), AllocError> {
    write!(text, "{title}:\n")?;
    for name in names {
        if let Some(form) = form_named(name) {
            let about = help::of(form.verb);
            write!(text, "  {name:<10}{about}\n")?;
        }
    }
    text.push_str("\n")
}

/// The list of all commands, and the notes on the program.
pub fn commands_text(alloc: Global) -> Result<String, AllocError> {
    let mut text = String::new(alloc);
    for (title, names) in GROUPS {
        put_group(&mut text, title, names)?;
    }
    text.push_str(notes::PROGRAM)?;
    Ok(text)
}

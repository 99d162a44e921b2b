//! The texts of refused words, and of help: clap is asked for them once more, of the words as they are shown and by
//! commands that have their texts.
ghost use Rattle.std.specs.Prelude.{◌≡◌, ◌≢◌, IfOk, map, string_bytes};
ghost use Rattle.clap.specs.Values.{kind_of};
ghost use Rattle.shop_help.specs.Fault.{IsFaultBy, IsFaultIn, IsRefused};
ghost use Rattle.shop_words.specs.Unread.{IsUnreadOf, IsWantOfMemory};

use crate::fault::WordsFault;
use crate::usage::{commands_text, help_of, usage_of};
use crate::{help, notes};
use clap::error::ErrorKind;
use clap::{Arg, ArgAction, Command, Error};
use shop_words::{
    Form, Parameter, Reading, Unread, all_forms, argument, bare_program, command_of, form_named,
};
use shown_text::all_escaped;
use std::alloc::{AllocError, Global};

const HELP: &str = "Work on images of Apple II disks";

const PROGRAM_USAGE: &str = "a2shop COMMAND [WORDS]...";

/// What is told where the words are those of no command, and nothing more is known.
const NO_COMMAND: &str = "error: the words are those of no command\n";

/// The texts of the program, and of the command that words are of.
pub struct Texts {
    form: Option<&'static Form>,
    usage: String,
    helps: Vec<String>,
    commands: String,
}

impl Drop for Texts {
    fn drop(self) {
        let Texts {
            form: _,
            usage: _,
            helps: _,
            commands: _,
        } = self;
    }
}

/// The help of each parameter of a command.
fn helps_of(alloc: Global, form: &Form) -> Result<Vec<String>, AllocError> {
    let mut helps = Vec::new(alloc);
    for parameter in form.parameters {
        helps.push(help_of(alloc, parameter)?)?;
    }
    Ok(helps)
}

/// The first command that words name.
fn form_meant(words: &[String]) -> Option<&'static Form> {
    words.iter().find_map(|word| form_named(word.as_str()))
}

impl Texts {
    pub fn of_form(alloc: Global, form: Option<&'static Form>) -> Result<Texts, AllocError> {
        let (usage, helps) = match form {
            Some(form) => (usage_of(alloc, form)?, helps_of(alloc, form)?),
            None => (String::new(alloc), Vec::new(alloc)),
        };
        Ok(Texts {
            form,
            usage,
            helps,
            commands: commands_text(alloc)?,
        })
    }
}

/// A parameter with its texts.
fn argument_told<'a>(alloc: Global, parameter: &Parameter, help: &'a str) -> Arg<'a> {
    argument(alloc, parameter)
        .help(help)
        .value_name(help::value_of(parameter.help))
}

/// A flag of the program itself with its text, which may stand more than once.
fn flag_told<'a>(
    alloc: Global,
    name: &'static str,
    help: &'static str,
) -> Result<Arg<'a>, AllocError> {
    Arg::new(alloc, name)
        .long(name)
        .action(ArgAction::SetTrue)
        .help(help)
        .overrides_with(name)
}

/// A command with these flags; `--auto` is taken and not shown where there is no image to be read.
fn with_flags_told<'a>(
    alloc: Global,
    command: Command<'a>,
    hides_auto: bool,
) -> Result<Command<'a>, AllocError> {
    command
        .arg(flag_told(alloc, "auto", help::AUTO)?.hide(hides_auto))?
        .arg(flag_told(alloc, "explain", help::EXPLAIN)?)
}

/// The command of a form with its texts.
pub fn command_told<'a>(
    alloc: Global,
    form: &'static Form,
    texts: &'a Texts,
) -> Result<Command<'a>, AllocError> {
    let mut command = Command::new(alloc, form.name)
        .about(help::of(form.verb))
        .override_usage(texts.usage.as_str())
        .after_help(notes::of(form.verb));
    for (parameter, help) in form.parameters.iter().zip(texts.helps.iter()) {
        command = command.arg(argument_told(alloc, parameter, help.as_str()))?;
    }
    with_flags_told(alloc, command, matches!(form.reading, Reading::Nothing))
}

/// The program with all its commands, and the texts of the one that is meant.
fn program_told<'a>(alloc: Global, texts: &'a Texts) -> Result<Command<'a>, AllocError> {
    let program = bare_program(alloc)?
        .about(HELP)
        .override_usage(PROGRAM_USAGE)
        .after_help(texts.commands.as_str());
    let mut program = with_flags_told(alloc, program, false)?;
    for form in all_forms() {
        let command = match texts.form {
            Some(meant) if meant.name == form.name => command_told(alloc, form, texts)?,
            _ => command_of(alloc, form)?.hide(true),
        };
        program = program.subcommand(command)?;
    }
    Ok(program)
}

/// Whether a word is a command's name with `un` in front: what undoes a command is no slip of its name.
fn is_opposite(word: &str) -> bool {
    match word.strip_prefix("un") {
        Some(rest) => form_named(rest).is_some(),
        None => false,
    }
}

/// A text without the line that names a similar command, and the empty line behind it.
fn without_tip(alloc: Global, text: &str) -> Result<String, AllocError> {
    let mut kept = String::new(alloc);
    let mut is_behind_tip = false;
    for line in text.split_inclusive('\n') {
        let is_tip = line.starts_with("  tip: a similar subcommand");
        if !is_tip && !(is_behind_tip && line == "\n") {
            kept.push_str(line)?;
        }
        is_behind_tip = is_tip;
    }
    Ok(kept)
}

/// What clap says of the words.
fn clap_text(alloc: Global, words: &[String], error: &Error) -> Result<String, AllocError> {
    let text = error.to_string(alloc)?;
    match words.first() {
        Some(word) if is_opposite(word.as_str()) => without_tip(alloc, text.as_str()),
        _ => Ok(text),
    }
}

/// What clap says of words that it refuses, or of which it is asked for help. It repeats some of them, so it is asked
/// of the escaped ones.
fn told_text(alloc: Global, words: &[String]) -> Result<String, AllocError> {
    let shown = all_escaped(alloc, words)?;
    let texts = Texts::of_form(alloc, form_meant(words))?;
    match program_told(alloc, &texts)?.try_get_matches_from(shown.as_slice()) {
        Ok(_) => NO_COMMAND.to_string(alloc),
        Err(error) => match error.kind() {
            ErrorKind::OutOfMemory => Err(AllocError),
            _ => clap_text(alloc, words, &error),
        },
    }
}

/// The help that the words ask for, or their refusal.
fn told(alloc: Global, words: &[String], error: &Error) -> Result<WordsFault, AllocError>
    requires { kind_of error.now ≢ ErrorKind.OutOfMemory }
    ensures { IfOk result (IsFaultBy (kind_of error.now)) }
{
    let text = told_text(alloc, words)?;
    match error.kind() {
        ErrorKind::DisplayHelp | ErrorKind::DisplayVersion => Ok(WordsFault::Help(text)),
        _ => Ok(WordsFault::Refused(text)),
    }
}

/// What is told of words that clap refuses, or that ask it for help.
fn refusal(alloc: Global, words: &[String], error: &Error) -> WordsFault
    ensures memory { kind_of error.now ≡ ErrorKind.OutOfMemory → result ≡ WordsFault.Memory }
    ensures kind { IsFaultBy (kind_of error.now) result }
{
    if error.kind() == ErrorKind::OutOfMemory {
        return WordsFault::Memory;
    }
    match told(alloc, words, error) {
        Ok(fault) => fault,
        Err(AllocError) => WordsFault::Memory,
    }
}

/// What is told of words that were not read: `Help` has the help that they ask for, `Refused` what is wrong with them,
/// and the usage. Words of the user that stand in it have their control characters escaped. `Memory` is want of memory.
pub fn read_fault(alloc: Global, words: &[String], unread: &Unread) -> WordsFault
    ensures memory { IsWantOfMemory unread.now → result ≡ WordsFault.Memory }

    // help is told of words that may ask for it, and a refusal of words that are refused
    ensures fault { IsUnreadOf (map string_bytes words.now) unread.now
        → IsFaultIn (map string_bytes words.now) result }
{
    match unread {
        Unread::Clap(error) => refusal(alloc, words, error),
        Unread::NoCommand => refused(NO_COMMAND.to_string(alloc)),
    }
}

/// A refusal with this text.
pub fn refused(text: Result<String, AllocError>) -> WordsFault
    ensures { IsRefused result }
{
    match text {
        Ok(text) => WordsFault::Refused(text),
        Err(AllocError) => WordsFault::Memory,
    }
}

//! What the words of a command line ask for.
ghost use Rattle.std.specs.Prelude.{◌≡◌, [], IfErr, IfOk, IsSome, map, Some, string_bytes, true};
ghost use Rattle.std.specs.List.{list_any};
ghost use Rattle.clap.specs.Faults.{fault_of};
ghost use Rattle.clap.specs.Kinds.{FailsBy};
ghost use Rattle.clap.specs.Matches.{found_of};
ghost use Rattle.clap.specs.Simple.{matches_of, subcommand_of, subcommand_rows_of};
ghost use Rattle.clap.specs.Takes.{takes};
ghost use Rattle.clap.specs.Values.{kind_of};
ghost use Rattle.clap.specs.Walk.{rows_of};
ghost use Rattle.shop_words.specs.Asked.{asked_list, asked_view, is_explain_word};
ghost use Rattle.shop_words.specs.Grammar.{shop};
ghost use Rattle.shop_words.specs.Job.{meant_words, standard_words};
ghost use Rattle.shop_words.specs.Plain.{IsPlain};
ghost use Rattle.shop_words.specs.Unread.{IsUnreadOf, IsWantOfMemory, ends_of};

use crate::asked::{Asked, asked_in};
use crate::grammar::program;
use crate::unread::Unread;
use clap::error::ErrorKind;
use clap::{ArgMatches, Error};
use std::alloc::Global;
use std::convert::AsStr;

/// What no words stand for.
const STANDARD_WORDS: &[&str] = &["catalog", "--fs", "dos", "--order", "dos", "-"];

// What clap finds in words.
fn matches_in<'a, S: AsStr>(alloc: Global, words: &'a [S]) -> Result<ArgMatches<'a>, Error>
    ensures found { IfOk result (λ m. (rows_of (found_of m) ≡ matches_of shop (map S.text words.now))
        × (subcommand_rows_of m ≡ subcommand_of shop (map S.text words.now))) }
    ensures taken { takes shop (map S.text words.now) ≡ true
        → IfErr result (λ e. kind_of e ≡ ErrorKind.OutOfMemory) }
    ensures kinds { FailsBy (fault_of shop (map S.text words.now)) result }
{
    program(alloc)?.try_get_matches_from(words)
}

// The same of the words that a list stands for.
fn meant_matches<'a>(alloc: Global, words: &'a [String]) -> Result<ArgMatches<'a>, Error>
    ensures found { IfOk result (λ m.
        (rows_of (found_of m) ≡ matches_of shop (meant_words (map string_bytes words.now)))
        × (subcommand_rows_of m ≡ subcommand_of shop (meant_words (map string_bytes words.now)))) }
    ensures taken { takes shop (meant_words (map string_bytes words.now)) ≡ true
        → IfErr result (λ e. kind_of e ≡ ErrorKind.OutOfMemory) }
    ensures kinds { FailsBy (fault_of shop (meant_words (map string_bytes words.now))) result }
{
    if words.is_empty() {
        matches_in(alloc, STANDARD_WORDS)
    } else {
        matches_in(alloc, words)
    }
}

/// What the words after the program's name ask for; with no word it is `catalog --fs dos --order dos -`.
///
/// # Errors
/// Why they are not those of a command: clap refuses them, they ask it for help, or memory ran out. A plain list is
/// read where there is memory.
pub fn read_words<'a>(alloc: Global, words: &'a [String]) -> Result<Asked<'a>, Unread>
    ensures asked { IfOk result (λ asked. asked_list (map string_bytes words.now) ≡ Some (asked_view asked)) }
    ensures ends { IfOk result (λ _. ends_of (meant_words (map string_bytes words.now)) ≡ []) }

    // words that clap takes and that are those of a command are not read for want of memory alone
    ensures taken { takes shop (meant_words (map string_bytes words.now)) ≡ true
        → IsSome (asked_list (map string_bytes words.now))
        → IfErr result IsWantOfMemory }

    // nor is a plain list
    ensures plain { IsPlain (map string_bytes words.now) → IfErr result IsWantOfMemory }

    // clap's reading may end so, or they are those of no command
    ensures unread { IfErr result (IsUnreadOf (map string_bytes words.now)) }
{
    let matches = match meant_matches(alloc, words) {
        Ok(matches) => matches,
        Err(error) => return Err(Unread::Clap(error)),
    };
    match asked_in(matches) {
        Some(asked) => Ok(asked),
        None => Err(Unread::NoCommand),
    }
}

fn is_explain(word: &String) -> bool
    ensures { result ≡ is_explain_word (string_bytes word.now) }
{
    word.as_str() == "--explain"
}

/// Whether words that are not read ask for an explanation: one of them is `--explain`.
pub fn asks_explain(words: &[String]) -> bool
    ensures { result ≡ list_any (λ word. is_explain_word (string_bytes word)) words.now }
{
    words.iter().any(|word| is_explain(word))
}

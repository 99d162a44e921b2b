//! The commands as clap knows them, built from the table.
ghost use Rattle.std.specs.Prelude.{◌≡◌, IfOk, false};
ghost use Rattle.clap.specs.Walk.{rule_of};
ghost use Rattle.clap.specs.declared.builder.command.Command.TheViews.{out-Command};
ghost use Rattle.clap.specs.Simple.{app_of};
ghost use Rattle.shop_words.specs.Grammar.{
  bare_program,
  leaf_app,
  program_rule,
  rule_of_parameter,
  shop,
  with_program_rules,
};
ghost use Rattle.shop_words.specs.Table.{parameter_view, form_view};

use crate::table::{Form, Kind, Parameter, all_forms};
use clap::{Arg, ArgAction, Command};
use std::alloc::{AllocError, Global};

const PROGRAM: &str = "a2shop";

/// What `--version` tells behind the program's name.
const VERSION: &str = "1.0.0";

/// A parameter of a command.
pub fn argument<'a>(alloc: Global, parameter: &Parameter) -> Arg<'a>
    ensures rule { rule_of result ≡ rule_of_parameter (parameter_view parameter.now) }
    ensures local { result.global ≡ false }
{
    let argument = Arg::new(alloc, parameter.name);
    match parameter.kind {
        Kind::Positional => argument.required(true),
        Kind::Needed(_) => argument.long(parameter.name).required(true),
        Kind::Way(_) | Kind::Optional(_) => argument.long(parameter.name),
        Kind::Flag => argument.long(parameter.name).action(ArgAction::SetTrue),
    }
}

/// A flag of the program itself, which may stand more than once.
fn program_flag<'a>(alloc: Global, name: &'static str) -> Arg<'a>
    ensures rule { rule_of result ≡ program_rule name.now }
    ensures local { result.global ≡ false }
{
    Arg::new(alloc, name).long(name).action(ArgAction::Count)
}

// A command that takes the program's own flags too.
fn with_program_flags<'a>(alloc: Global, command: Command<'a>) -> Result<Command<'a>, AllocError>
    ensures app { IfOk result (λ c. app_of c ≡ with_program_rules (app_of command.entry)) }
    ensures local { (out-Command command.entry).has_globals ≡ false
        → IfOk result (λ c. (out-Command c).has_globals ≡ false) }
{
    command
        .arg(program_flag(alloc, "auto"))?
        .arg(program_flag(alloc, "explain"))
}

/// The command of a form.
pub fn command_of<'a>(alloc: Global, form: &Form) -> Result<Command<'a>, AllocError>
    ensures app { IfOk result (λ c. app_of c ≡ leaf_app (form_view form.now)) }
    ensures local { IfOk result (λ c. (out-Command c).has_globals ≡ false) }
{
    let mut command = Command::new(alloc, form.name);
    for parameter in form.parameters {
        command = command.arg(argument(alloc, parameter))?;
    }
    with_program_flags(alloc, command)
}

/// The program without its commands.
pub fn bare_program<'a>(alloc: Global) -> Result<Command<'a>, AllocError>
    ensures app { IfOk result (λ c. app_of c ≡ bare_program) }
    ensures local { IfOk result (λ c. (out-Command c).has_globals ≡ false) }
{
    Ok(
        Command::new(alloc, PROGRAM)
            .version(VERSION)
            .bin_name(PROGRAM)?
            .no_binary_name(true)
            .subcommand_required(true),
    )
}

/// The program with all its commands.
#[tactic(auto, unfolding(crate::specs::Grammar::shop))]
pub fn program<'a>(alloc: Global) -> Result<Command<'a>, AllocError>
    ensures { IfOk result (λ c. app_of c ≡ shop) }
{
    let mut program = with_program_flags(alloc, bare_program(alloc)?)?;
    for form in all_forms() {
        program = program.subcommand(command_of(alloc, form)?)?;
    }
    Ok(program)
}

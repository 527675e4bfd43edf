//! The command line, part by part, as `clap` reads it.

ghost use Rattle.std.specs.Prelude.{◌≡◌, IfOk, false, codes};
ghost use Rattle.command_words.specs.Words.{command_line, top_command, infer_command, check_command, run_command, gen_command, lex_command, loop_command, session_command, required_word, option};
ghost use Rattle.command_words.specs.CommandLine.{IsCommandLine};
ghost use Rattle.clap.specs.declared.Command.TheViews.{out-Command};
ghost use Rattle.clap.specs.Words.{app_of, rule_of, with_rule, with_subcommand};

use clap::{Arg, Command};
use std::alloc::{AllocError, Global};

/// A positional word that has to be given.
fn word<'a>(alloc: Global, id: &'a str) -> Arg<'a>
    ensures rule { rule_of result ≡ required_word id.entry.now }
    ensures local { result.global ≡ false }
{
    Arg::new(alloc, id).required(true)
}

/// An option with one value.
fn option<'a>(alloc: Global, id: &'a str) -> Arg<'a>
    ensures rule { rule_of result ≡ option id.entry.now }
    ensures local { result.global ≡ false }
{
    Arg::new(alloc, id).long(id)
}

/// The command with one argument more.
fn with_argument<'a>(command: Command<'a>, arg: Arg<'a>) -> Result<Command<'a>, AllocError>
    requires local { arg.global ≡ false }
    requires globals { (out-Command command).has_globals ≡ false }
    ensures { IfOk result (IsCommandLine (with_rule (app_of command.entry) (rule_of arg.entry))) }
{
    command.arg(arg)
}

/// The command with one subcommand more.
fn with_command<'a>(command: Command<'a>, sub: Command<'a>) -> Result<Command<'a>, AllocError>
    requires local { (out-Command sub).has_globals ≡ false }
    requires globals { (out-Command command).has_globals ≡ false }
    ensures { IfOk result (IsCommandLine
        (with_subcommand (app_of command.entry) (app_of sub.entry).top)) }
{
    command.subcommand(sub)
}

/// The command line without its subcommands.
fn top<'a>(alloc: Global) -> Command<'a>
    ensures { IsCommandLine top_command result }
{
    Command::new(alloc, "cti")
        .no_binary_name(true)
        .disable_help_flag(true)
        .disable_help_subcommand(true)
        .subcommand_required(true)
}

/// `infer FILE --norm NORM`
fn infer<'a>(alloc: Global) -> Result<Command<'a>, AllocError>
    ensures { IfOk result (IsCommandLine infer_command) }
{
    let infer = with_argument(Command::new(alloc, "infer"), word(alloc, "file"))?;
    with_argument(infer, option(alloc, "norm"))
}

/// `check FILE CERT`
fn check<'a>(alloc: Global) -> Result<Command<'a>, AllocError>
    ensures { IfOk result (IsCommandLine check_command) }
{
    let check = with_argument(Command::new(alloc, "check"), word(alloc, "file"))?;
    with_argument(check, word(alloc, "certificate"))
}

/// `run FILE QUERY --steps N`
fn run<'a>(alloc: Global) -> Result<Command<'a>, AllocError>
    ensures { IfOk result (IsCommandLine run_command) }
{
    let run = with_argument(Command::new(alloc, "run"), word(alloc, "file"))?;
    let run = with_argument(run, word(alloc, "query"))?;
    with_argument(run, option(alloc, "steps"))
}

/// `gen COUNT`
fn generate<'a>(alloc: Global) -> Result<Command<'a>, AllocError>
    ensures { IfOk result (IsCommandLine gen_command) }
{
    with_argument(Command::new(alloc, "gen"), word(alloc, "count"))
}

/// `lex FILE`
fn lex<'a>(alloc: Global) -> Result<Command<'a>, AllocError>
    ensures { IfOk result (IsCommandLine lex_command) }
{
    with_argument(Command::new(alloc, "lex"), word(alloc, "file"))
}

/// `loop FILE QUERY --depth D`
fn find_loop<'a>(alloc: Global) -> Result<Command<'a>, AllocError>
    ensures { IfOk result (IsCommandLine loop_command) }
{
    let find_loop = with_argument(Command::new(alloc, "loop"), word(alloc, "file"))?;
    let find_loop = with_argument(find_loop, word(alloc, "query"))?;
    with_argument(find_loop, option(alloc, "depth"))
}

/// `session FILE`
fn session<'a>(alloc: Global) -> Result<Command<'a>, AllocError>
    ensures { IfOk result (IsCommandLine session_command) }
{
    with_argument(Command::new(alloc, "session"), word(alloc, "file"))
}

/// The command line of `infer` and `check`.
fn first_commands<'a>(alloc: Global) -> Result<Command<'a>, AllocError>
    ensures { IfOk result (IsCommandLine
        (with_subcommand (with_subcommand top_command infer_command.top) check_command.top)) }
{
    let command = with_command(top(alloc), infer(alloc)?)?;
    with_command(command, check(alloc)?)
}

/// The command line of `infer`, `check`, `run` and `gen`.
fn more_commands<'a>(alloc: Global) -> Result<Command<'a>, AllocError>
    ensures { IfOk result (IsCommandLine (with_subcommand (with_subcommand
        (with_subcommand
        (with_subcommand top_command infer_command.top) check_command.top) run_command.top) gen_command.top)) }
{
    let command = with_command(first_commands(alloc)?, run(alloc)?)?;
    with_command(command, generate(alloc)?)
}

/// The command line, with no words read.
pub fn command_line<'a>(alloc: Global) -> Result<Command<'a>, AllocError>
    ensures { IfOk result (IsCommandLine command_line) }
{
    let command = with_command(more_commands(alloc)?, lex(alloc)?)?;
    let command = with_command(command, find_loop(alloc)?)?;
    with_command(command, session(alloc)?)
}

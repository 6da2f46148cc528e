//! The commands of the command line, and what each of them takes.

ghost use Rattle.std.specs.Prelude.{◌≡◌, true, false, codes, IfOk};
ghost use Rattle.clap.specs.Words.{App, app_of, new_app, new_rule, rule_of, with_subcommand};
ghost use Rattle.command_line.specs.CommandLine.{accepting, app_for, auditing, command_line, flag_rule, getting, informing, listing, local_commands, operand_rule, option_rule, putting, replaying, scripting, serving, showing, with_version};

use crate::help;
use clap::{Arg, ArgAction, Command};
use std::alloc::{AllocError, Global};

/// The program's words: its version, and its commands.
pub(crate) fn command_line<'a>(alloc: Global) -> Result<Command<'a>, AllocError>
    ensures { IfOk result (λ made. app_of made ≡ command_line) }
{
    let program = with_local(alloc, program(alloc))?;
    let program = with_command(program, put(alloc))?;
    let program = with_command(program, get(alloc))?;
    let program = with_command(program, list(alloc))?;
    with_command(program, info(alloc))
}

fn program<'a>(alloc: Global) -> Command<'a>
    ensures { app_of result ≡ with_version (new_app (codes "flightd")) }
{
    Command::new(alloc, "flightd")
        .version("0.1.0")
        .about(help::PROGRAM)
        .after_help(help::PROGRAM_MORE)
}

// The commands that ask no server.
fn with_local<'a>(alloc: Global, program: Command<'a>) -> Result<Command<'a>, AllocError>
    ensures { IfOk result (λ made. app_of made ≡ local_commands (app_of program.entry)) }
{
    let program = with_acceptor(alloc, program)?;
    let program = with_command(program, audit(alloc))?;
    let program = with_command(program, replay(alloc))?;
    let program = with_command(program, serve(alloc))?;
    let program = with_command(program, script(alloc))?;
    with_command(program, records(alloc))
}

// The program with one command more. A command is made apart from the program, whose drop at each `?` would be proved there too.
fn with_command<'a>(
    program: Command<'a>,
    command: Result<Command<'a>, AllocError>,
) -> Result<Command<'a>, AllocError>
    ensures { (app : App) → app.top.is_plain ≡ true → IfOk command.entry (λ made. app_of made ≡ app)
        → IfOk result (λ made. app_of made ≡ with_subcommand (app_of program.entry) app.top) }
{
    program.subcommand(command?)
}

fn with_acceptor<'a>(alloc: Global, program: Command<'a>) -> Result<Command<'a>, AllocError>
    ensures { IfOk result (λ made. app_of made ≡ with_subcommand (app_of program.entry) (app_for accepting).top) }
{
    let acceptor = Command::new(alloc, "acceptor")
        .about(help::ACCEPTOR)
        .after_help(help::ACCEPTOR_MORE);
    program.subcommand(acceptor)
}

fn audit<'a>(alloc: Global) -> Result<Command<'a>, AllocError>
    ensures { IfOk result (λ made. app_of made ≡ app_for auditing) }
{
    Command::new(alloc, "audit")
        .about(help::AUDIT)
        .after_help(help::AUDIT_MORE)
        .arg(operand(alloc, "FILE", help::RUN_FILE))?
        .arg(flag(alloc, "explain", help::EXPLAIN))
}

fn replay<'a>(alloc: Global) -> Result<Command<'a>, AllocError>
    ensures { IfOk result (λ made. app_of made ≡ app_for replaying) }
{
    Command::new(alloc, "replay")
        .about(help::REPLAY)
        .after_help(help::REPLAY_MORE)
        .arg(operand(alloc, "FILE", help::SCHEDULE_FILE))
}

fn serve<'a>(alloc: Global) -> Result<Command<'a>, AllocError>
    ensures { IfOk result (λ made. app_of made ≡ app_for serving) }
{
    Command::new(alloc, "serve")
        .about(help::SERVE)
        .after_help(help::SERVE_MORE)
        .arg(option(alloc, "nodes", "N", help::NODES))?
        .arg(option(alloc, "port", "P", help::PORT))?
        .arg(option(alloc, "data", "DIR", help::DATA))?
        .arg(option(alloc, "wait", "SECONDS", help::WAIT))?
        .arg(flag(alloc, "resume", help::RESUME))
}

fn script<'a>(alloc: Global) -> Result<Command<'a>, AllocError>
    ensures { IfOk result (λ made. app_of made ≡ app_for scripting) }
{
    Command::new(alloc, "script")
        .about(help::SCRIPT)
        .after_help(help::SCRIPT_MORE)
        .arg(operand(alloc, "FILE", help::SCRIPT_FILE))
}

fn records<'a>(alloc: Global) -> Result<Command<'a>, AllocError>
    ensures { IfOk result (λ made. app_of made ≡ app_for showing) }
{
    Command::new(alloc, "records")
        .about(help::RECORDS)
        .after_help(help::RECORDS_MORE)
        .arg(operand(alloc, "FILE", help::RECORDS_FILE))
}

fn put<'a>(alloc: Global) -> Result<Command<'a>, AllocError>
    ensures { IfOk result (λ made. app_of made ≡ app_for putting) }
{
    Command::new(alloc, "put")
        .about(help::PUT)
        .after_help(help::PUT_MORE)
        .arg(operand(alloc, "ADDRESS", help::ADDRESS))?
        .arg(operand(alloc, "TABLE", help::TABLE))?
        .arg(operand(alloc, "FILE", help::ROWS_FILE))?
        .arg(option(alloc, "id", "ID", help::ID))?
        .arg(option(alloc, "schema", "SCHEMA", help::SCHEMA))
}

fn get<'a>(alloc: Global) -> Result<Command<'a>, AllocError>
    ensures { IfOk result (λ made. app_of made ≡ app_for getting) }
{
    Command::new(alloc, "get")
        .about(help::GET)
        .after_help(help::GET_MORE)
        .arg(operand(alloc, "ADDRESS", help::ADDRESS))?
        .arg(operand(alloc, "TABLE", help::TABLE))?
        .arg(Arg::new(alloc, "VERSION").help(help::VERSION))?
        .arg(flag(alloc, "all-locations", help::ALL_LOCATIONS))
}

fn list<'a>(alloc: Global) -> Result<Command<'a>, AllocError>
    ensures { IfOk result (λ made. app_of made ≡ app_for listing) }
{
    Command::new(alloc, "list")
        .about(help::LIST)
        .after_help(help::LIST_MORE)
        .arg(operand(alloc, "ADDRESS", help::ADDRESS))
}

fn info<'a>(alloc: Global) -> Result<Command<'a>, AllocError>
    ensures { IfOk result (λ made. app_of made ≡ app_for informing) }
{
    Command::new(alloc, "info")
        .about(help::INFO)
        .after_help(help::INFO_MORE)
        .arg(operand(alloc, "ADDRESS", help::ADDRESS))?
        .arg(operand(alloc, "TABLE", help::TABLE))
}

// An operand that has to be there.
fn operand<'a>(alloc: Global, id: &'a str, help: &'a str) -> Arg<'a>
    ensures rule { rule_of result ≡ operand_rule id.entry.now }
    ensures local { result.global ≡ false }
{
    Arg::new(alloc, id).required(true).help(help)
}

// An option with a value, which the help calls `value`.
fn option<'a>(alloc: Global, name: &'a str, value: &'a str, help: &'a str) -> Arg<'a>
    ensures rule { rule_of result ≡ option_rule name.entry.now }
    ensures local { result.global ≡ false }
{
    Arg::new(alloc, name)
        .long(name)
        .value_name(value)
        .help(help)
}

// An option that has no value.
fn flag<'a>(alloc: Global, name: &'a str, help: &'a str) -> Arg<'a>
    ensures rule { rule_of result ≡ flag_rule name.entry.now }
    ensures local { result.global ≡ false }
{
    Arg::new(alloc, name)
        .long(name)
        .action(ArgAction::SetTrue)
        .help(help)
}

//! The words of the command line.

ghost use Rattle.std.specs.Prelude.{◌≡◌, codes, map, option_map, string_bytes, unwrap_or, [], IfOk, IfErr};
ghost use Rattle.clap.specs.Words.{FailsBy, fault_of, first_value, found_of, kind_of};
ghost use Rattle.clap.specs.declared.error.kind.ErrorKind.TheVariants.{OutOfMemory};
ghost use Rattle.command_line.specs.Calls.{AsksFor, IsCall};
ghost use Rattle.command_line.specs.CommandLine.{asked_by, asked_of, asks, audit_for, command_line, command_named, getting, is_yes, putting};

use crate::commands::command_line;
use clap::{ArgMatches, Error};
use std::alloc::Global;

/// What the words of the command line ask for. An address is a HOST:PORT, and a file a name, as they stand in the words: no
/// more is known of them here than that they are there.
#[derive(Clone, Copy, Debug, PartialEq, Eq)]
pub enum Asked<'a> {
    /// The acceptor, over standard input and output.
    Acceptor,
    /// The judgement of the recorded run that this file tells.
    Audit(&'a str),
    /// The same, and why it is unlawful.
    Explain(&'a str),
    /// The lines of the schedule that this file tells.
    Replay(&'a str),
    /// A cluster that is served, as [`served_by`](crate::served_by) says.
    Serve {
        /// How many nodes.
        nodes: Option<&'a str>,
        /// The port of the first of them.
        port: Option<&'a str>,
        /// The folder of their records.
        folder: Option<&'a str>,
        /// How many seconds a put waits to be decided.
        wait: Option<&'a str>,
        /// Whether the cluster goes on over the records that an earlier server left in the folder.
        is_resumed: bool,
    },
    /// The calls of the script that this file tells, at a cluster of their own.
    Script(&'a str),
    /// The records that a node's file has.
    Records(&'a str),
    /// The rows of a file, put into a table at a server.
    Put {
        /// Where the server is.
        address: &'a str,
        /// The table's name.
        table: &'a str,
        /// The file, where `-` is standard input.
        file: &'a str,
        /// The upload's id.
        id: Option<&'a str>,
        /// The schema of the rows.
        schema: Option<&'a str>,
    },
    /// The rows of a version of a table.
    Get {
        /// Where the server is.
        address: &'a str,
        /// The table's name.
        table: &'a str,
        /// The version's number, as [`version_by`](crate::version_by) reads it; the latest where there is none.
        version: Option<&'a str>,
        /// Whether each location that has the version is asked, and not the server alone.
        all_locations: bool,
    },
    /// The tables of the server that is there.
    List(&'a str),
    /// What a server tells of a table.
    Info {
        /// Where the server is.
        address: &'a str,
        /// The table's name.
        table: &'a str,
    },
}

/// Reads the words that the program was called with, its own name first: no more, or the word of a command, its operands in
/// their order, and its options before them, between them or behind them, each at most once.
///
/// | Command | Operands | Options |
/// |---|---|---|
/// | `acceptor` | | |
/// | `audit` | `FILE` | `--explain` |
/// | `replay` | `FILE` | |
/// | `serve` | | `--nodes N`, `--port P`, `--data DIR`, `--wait SECONDS`, `--resume` |
/// | `script` | `FILE` | |
/// | `records` | `FILE` | |
/// | `put` | `ADDRESS TABLE FILE` | `--id ID`, `--schema SCHEMA` |
/// | `get` | `ADDRESS TABLE`, and perhaps `VERSION` | `--all-locations` |
/// | `list` | `ADDRESS` | |
/// | `info` | `ADDRESS TABLE` | |
///
/// The error prints itself: a fault of the words to standard error, with exit status 2; the help and the version, which
/// are asked for, to standard output, with exit status 0.
pub fn parse(alloc: Global, words: &[String]) -> Result<ArgMatches<'_>, Error>
    // Memory apart, such a call is taken.
    ensures taken { IfErr result (λ e. IsCall (map string_bytes words.now) → kind_of e ≡ OutOfMemory) }
    // What is taken asks for what its words say.
    ensures asked { IfOk result (λ matches. AsksFor (map string_bytes words.now) (asked_by matches)) }
    // Whatever the words, the outcome is the one that they have at this command line, or memory refused.
    ensures refused { FailsBy (fault_of command_line (map string_bytes words.now)) result }
{
    let command = command_line(alloc)?;
    command.try_get_matches_from(words)
}

// The value of an operand, which is there in what `parse` takes.
fn operand<'a>(found: &ArgMatches<'a>, id: &str) -> &'a str
    ensures { result.now ≡ unwrap_or (first_value (found_of found.now) id.now) [] }
{
    found.get_str(id).unwrap_or("")
}

// Whether an option is there that has no value.
fn has_flag(found: &ArgMatches<'_>, id: &str) -> bool
    ensures { result ≡ is_yes (first_value (found_of found.now) id.now) }
{
    match found.get_str(id) {
        Some(text) => text == "true",
        None => false,
    }
}

fn audit_of<'a>(file: &'a str, is_explained: bool) -> Asked<'a>
    ensures { asked_of result ≡ audit_for is_explained file.now }
{
    if is_explained {
        Asked::Explain(file)
    } else {
        Asked::Audit(file)
    }
}

/// What the words that were read ask for.
pub fn asked_by<'a>(matches: &ArgMatches<'a>) -> Asked<'a>
    ensures { asked_of result ≡ asked_by matches.now }
{
    match matches.subcommand() {
        Some((name, found)) => asked_of(name, found),
        None => Asked::Acceptor,
    }
}

// What the command of this name asks for.
fn asked_of<'a>(name: &str, found: &ArgMatches<'a>) -> Asked<'a>
    ensures { asked_of result ≡ asks (command_named name.now) (first_value (found_of found.now)) }
{
    match name {
        "audit" => audit_of(operand(found, "FILE"), has_flag(found, "explain")),
        "replay" => Asked::Replay(operand(found, "FILE")),
        "serve" => Asked::Serve {
            nodes: found.get_str("nodes"),
            port: found.get_str("port"),
            folder: found.get_str("data"),
            wait: found.get_str("wait"),
            is_resumed: has_flag(found, "resume"),
        },
        "script" => Asked::Script(operand(found, "FILE")),
        "records" => Asked::Records(operand(found, "FILE")),
        "put" => put_of(found),
        "get" => get_of(found),
        "list" => Asked::List(operand(found, "ADDRESS")),
        "info" => Asked::Info {
            address: operand(found, "ADDRESS"),
            table: operand(found, "TABLE"),
        },
        _ => Asked::Acceptor,
    }
}

fn put_of<'a>(found: &ArgMatches<'a>) -> Asked<'a>
    ensures { asked_of result ≡ asks putting (first_value (found_of found.now)) }
{
    Asked::Put {
        address: operand(found, "ADDRESS"),
        table: operand(found, "TABLE"),
        file: operand(found, "FILE"),
        id: found.get_str("id"),
        schema: found.get_str("schema"),
    }
}

fn get_of<'a>(found: &ArgMatches<'a>) -> Asked<'a>
    ensures { asked_of result ≡ asks getting (first_value (found_of found.now)) }
{
    Asked::Get {
        address: operand(found, "ADDRESS"),
        table: operand(found, "TABLE"),
        version: found.get_str("VERSION"),
        all_locations: has_flag(found, "all-locations"),
    }
}

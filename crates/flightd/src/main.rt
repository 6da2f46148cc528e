//! The program: what the proved crates do, over standard input and output.
//!
//! `flightd acceptor`, or no word at all, answers Paxos messages as node 0 of three, with nothing kept. `flightd audit
//! FILE` says whether a recorded run of such messages is one that correct nodes may have sent, and `flightd audit --explain
//! FILE` also why it is not. `flightd replay FILE` plays a schedule, and prints a line for each of its events. `flightd serve`
//! serves a cluster, and `flightd script FILE` makes a script's calls of a cluster of its own; `flightd records FILE` prints what a
//! node of a cluster keeps, and `flightd records DIR` what a server that resumes over the files of all would serve. `flightd put`, `get`, `list` and `info` are a client's calls of a server. The words are read by
//! `command_line`, and each command is one function over any reader and writers, with its contract, of a library of its own;
//! `main` gives it the real ones.
#![tactic(auto)]

use acceptor_command::acceptor_run;
use audit_command::{FAILURE, audit_run, explain_run};
use client_command::{get_everywhere_run, get_run, info_run, list_run, put_run, put_words};
use client_connections::Sockets;
use cluster_folder::{FolderFault, advise, node_files, read_folder};
use command_line::{Asked, asked_by, parse, served_by, version_by};
use records_command::{folder_run, records_run};
use replay_command::replay_run;
use schema_words::{SchemaWordsFault, schema_of_words};
use script_command::script_run;
use serve_command::serve_run;
use std::fmt::Display;
use std::hash::RandomState;
use std::io::{BufReader, BufWriter, IsTerminal, Read};
use std::process::ExitCode;
use std::random::RandomSource;
use std::time::Duration;
use std::{fs, io};

/// The exit status of words that are no call.
const NO_CALL: u8 = 2;

/// What is left to do once the words are read: what starts threads, which takes the runtime itself.
enum Left {
    /// Nothing: the command has ended with this status.
    Nothing(u8),
    /// A cluster is to be served, with its records in this folder, over which it goes on or not, and puts that may take so long; a new
    /// one has this name. These are the keys for its look-ups.
    Serve {
        nodes: u8,
        port: u16,
        folder: String,
        wait: Duration,
        is_resumed: bool,
        id: [u8; 16],
        hashing: RandomState,
    },
    /// The script that these bytes are is to be played, at a cluster with these keys for its look-ups.
    Script(Vec<u8>, RandomState),
}

fn main(rt: HostRuntime) -> ExitCode {
    let status = match start(&rt) {
        Ok(Left::Nothing(status)) => status,
        Ok(
            Left::Serve {
                nodes,
                port,
                folder,
                wait,
                is_resumed,
                id,
                hashing,
            },
        ) => serve_run(
            rt,
            rt.alloc(),
            hashing,
            nodes,
            port,
            folder.as_str(),
            wait,
            is_resumed,
            id,
            &mut rt.stdout(),
            &mut rt.stderr(),
        ),
        Ok(Left::Script(file, hashing)) => script_run(
            rt,
            rt.alloc(),
            hashing,
            &file,
            &mut rt.stdout(),
            &mut rt.stderr(),
        ),
        Err(error) => {
            let fault = match error.kind() {
                io::ErrorKind::OutOfMemory => "OutOfMemory",
                _ => "Io",
            };
            // Where this fails too, the status alone tells.
            let _ = eprintln!(rt; "flightd: {fault}");
            FAILURE
        }
    };
    ExitCode::from(status)
}

// Reads the words and runs what they ask for.
fn start(rt: &HostRuntime) -> io::Result<Left> {
    let alloc = rt.alloc();
    let words: Vec<String> = std::env::args(rt)?.collect(alloc)?;
    match parse(alloc, &words) {
        Ok(matches) => follow(rt, asked_by(&matches)),
        Err(error) => {
            let printed = error.print(rt);
            if !error.use_stderr() {
                printed?;
            }
            Ok(Left::Nothing(error.exit_code() as u8))
        }
    }
}

// Runs what the words ask for.
fn follow(rt: &HostRuntime, asked: Asked) -> io::Result<Left> {
    let status = match asked {
        Asked::Acceptor => answer(rt)?,
        Asked::Audit(file) => judge(rt, file)?,
        Asked::Explain(file) => explain(rt, file)?,
        Asked::Replay(file) => play(rt, file)?,
        Asked::Serve {
            nodes,
            port,
            folder,
            wait,
            is_resumed,
        } => return serve(rt, nodes, port, folder, wait, is_resumed),
        Asked::Script(file) => {
            return Ok(Left::Script(fs::read(rt, file)?, RandomState::new(rt)?));
        }
        Asked::Records(file) => show(rt, file)?,
        Asked::Put {
            address,
            table,
            file,
            id,
            schema,
        } => put(rt, address, table, file, id, schema)?,
        Asked::Get {
            address,
            table,
            version,
            all_locations,
        } => get(rt, address, table, version, all_locations)?,
        Asked::List(address) => list(rt, address)?,
        Asked::Info { address, table } => tell(rt, address, table)?,
    };
    Ok(Left::Nothing(status))
}

// The cluster that is to be served.
fn serve(
    rt: &HostRuntime,
    nodes: Option<&str>,
    port: Option<&str>,
    folder: Option<&str>,
    wait: Option<&str>,
    is_resumed: bool,
) -> io::Result<Left> {
    let mut id = [0; 16];
    rt.fill_bytes(&mut id)?;
    match served_by(nodes, port, folder, wait) {
        Ok(served) => Ok(Left::Serve {
            nodes: served.nodes,
            port: served.port,
            folder: String::from_str(rt.alloc(), served.folder)?,
            wait: Duration::from_secs(u64::from(served.wait)),
            is_resumed,
            id,
            hashing: RandomState::new(rt)?,
        }),
        Err(fault) => Ok(Left::Nothing(refuse(rt, fault))),
    }
}

// Says what is wrong with words that are no call. Where that can't be written, the status alone tells.
fn refuse<F: Display + Drop>(rt: &HostRuntime, fault: F) -> u8 {
    let _ = eprintln!(rt; "flightd: {fault}");
    NO_CALL
}

fn answer(rt: &HostRuntime) -> io::Result<u8> {
    let alloc = rt.alloc();
    let mut input = BufReader::new(alloc, rt.stdin())?;
    let mut output = BufWriter::new(alloc, rt.stdout())?;
    Ok(acceptor_run(alloc, &mut input, &mut output, &mut rt.stderr()))
}

fn judge(rt: &HostRuntime, path: &str) -> io::Result<u8> {
    let file = fs::read(rt, path)?;
    Ok(audit_run(rt.alloc(), &file, &mut rt.stdout(), &mut rt.stderr()))
}

fn explain(rt: &HostRuntime, path: &str) -> io::Result<u8> {
    let file = fs::read(rt, path)?;
    Ok(explain_run(rt.alloc(), &file, &mut rt.stdout(), &mut rt.stderr()))
}

fn play(rt: &HostRuntime, path: &str) -> io::Result<u8> {
    let alloc = rt.alloc();
    let file = fs::read(rt, path)?;
    let hashing = RandomState::new(rt)?;
    let mut output = BufWriter::new(alloc, rt.stdout())?;
    Ok(replay_run(alloc, hashing, &file, &mut output, &mut rt.stderr()))
}

// Puts the rows of a file, which is read once all words are judged.
fn put(
    rt: &HostRuntime,
    address: &str,
    table: &str,
    file: &str,
    id: Option<&str>,
    schema: Option<&str>,
) -> io::Result<u8> {
    let alloc = rt.alloc();
    let schema = match schema.map(|words| schema_of_words(alloc, words)) {
        None => None,
        Some(Ok(schema)) => Some(schema),
        Some(Err(SchemaWordsFault::OutOfMemory)) => return Err(io::ErrorKind::OutOfMemory.into()),
        Some(Err(fault)) => return Ok(refuse(rt, fault)),
    };
    let mut random = [0; 16];
    rt.fill_bytes(&mut random)?;
    let words = match put_words(address, table, id, random) {
        Ok(words) => words,
        Err(fault) => return Ok(refuse(rt, fault)),
    };
    let text = rows_in(rt, file)?;
    let mut output = BufWriter::new(alloc, rt.stdout())?;
    Ok(put_run(
        alloc,
        &mut Sockets::new(rt, rt.stderr().is_terminal()),
        words,
        &text,
        schema.as_ref(),
        &mut output,
        &mut rt.stderr(),
    ))
}

// The bytes of a file, or of standard input where it is `-`.
fn rows_in(rt: &HostRuntime, file: &str) -> io::Result<Vec<u8>> {
    if file != "-" {
        return fs::read(rt, file);
    }
    let mut text = Vec::new(rt.alloc());
    rt.stdin().read_to_end(&mut text)?;
    Ok(text)
}

// Prints the rows of a version, of one location or of all.
fn get(
    rt: &HostRuntime,
    address: &str,
    table: &str,
    version: Option<&str>,
    all_locations: bool,
) -> io::Result<u8> {
    let alloc = rt.alloc();
    let version = match version {
        None => None,
        Some(text) => match version_by(text) {
            Ok(version) => Some(version),
            Err(fault) => return Ok(refuse(rt, fault)),
        },
    };
    let mut output = BufWriter::new(alloc, rt.stdout())?;
    let mut sockets = Sockets::new(rt, rt.stderr().is_terminal());
    let mut errors = rt.stderr();
    Ok(if all_locations {
        get_everywhere_run(
            alloc,
            &mut sockets,
            address,
            table,
            version,
            &mut output,
            &mut errors,
        )
    } else {
        get_run(
            alloc,
            &mut sockets,
            address,
            table,
            version,
            &mut output,
            &mut errors,
        )
    })
}

fn list(rt: &HostRuntime, address: &str) -> io::Result<u8> {
    let alloc = rt.alloc();
    let mut output = BufWriter::new(alloc, rt.stdout())?;
    Ok(list_run(
        alloc,
        &mut Sockets::new(rt, rt.stderr().is_terminal()),
        address,
        &mut output,
        &mut rt.stderr(),
    ))
}

// Prints what is told of a table.
fn tell(rt: &HostRuntime, address: &str, table: &str) -> io::Result<u8> {
    let alloc = rt.alloc();
    let mut output = BufWriter::new(alloc, rt.stdout())?;
    Ok(info_run(
        alloc,
        &mut Sockets::new(rt, rt.stderr().is_terminal()),
        address,
        table,
        &mut output,
        &mut rt.stderr(),
    ))
}

// Prints the records of a file, or what a resumed server would serve of a folder.
fn show(rt: &HostRuntime, path: &str) -> io::Result<u8> {
    if fs::metadata(rt, path)?.is_dir() {
        show_folder(rt, path)
    } else {
        show_file(rt, path)
    }
}

fn show_file(rt: &HostRuntime, path: &str) -> io::Result<u8> {
    let alloc = rt.alloc();
    let files = node_files(rt, alloc, path)?;
    let mut output = BufWriter::new(alloc, rt.stdout())?;
    Ok(records_run(
        alloc,
        files.records.as_slice(),
        files.sums.as_slice(),
        &mut output,
        &mut rt.stderr(),
    ))
}

fn show_folder(rt: &HostRuntime, path: &str) -> io::Result<u8> {
    let alloc = rt.alloc();
    let nodes = match read_folder(rt, alloc, path) {
        Ok(nodes) => nodes,
        Err(fault) => return Ok(refuse_folder(rt, path, fault)),
    };
    let hashing = RandomState::new(rt)?;
    let mut output = BufWriter::new(alloc, rt.stdout())?;
    Ok(folder_run(
        alloc,
        hashing,
        path,
        nodes.as_slice(),
        &mut output,
        &mut rt.stderr(),
    ))
}

// Says what is wrong with a folder. Where that can't be written, the status alone tells.
fn refuse_folder(rt: &HostRuntime, path: &str, fault: FolderFault) -> u8 {
    let _ = eprintln!(rt; "flightd: {fault}");
    advise(path, fault, &mut rt.stderr());
    FAILURE
}

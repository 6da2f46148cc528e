//! Words that are no call, and calls for the help, each with the kind of what comes of it.

use crate::support::is_refused;
use clap::error::ErrorKind;
use std::test::Fail;

/// Words that end with status 2, each line the kind's name and a call.
const NO_CALLS: [(ErrorKind, &str); 6] = [
    // No such word, option or operand.
    (
        ErrorKind::UnknownArgument,
        "flightd serve a;flightd serve --folder d;flightd script a b;flightd records a b;flightd put a t f g;flightd get a t 1 2;flightd list a b;\
         flightd info a t 1;flightd serve -p 9000;flightd serve --node 3;flightd serve --Port 9000;flightd list --id 7;\
         flightd put -id 7 a t f;flightd get a t --all;flightd get a t --all-location;flightd info --all-locations a t;\
         flightd script --explain f;flightd --nodes 3 serve;flightd get -a t;flightd serve --resume d;\
         flightd serve --waits 5;flightd serve -wait 5;flightd serve --Wait 5;flightd script --wait 5 f;\
         flightd serve --resumed;flightd serve --res;flightd serve -resume;flightd serve --Resume;\
         flightd script --resume f;flightd --resume serve",
    ),
    (
        ErrorKind::InvalidSubcommand,
        "flightd server;flightd Serve;flightd lists;flightd pu;flightd get:a",
    ),
    // An operand or a value is missing.
    (
        ErrorKind::MissingRequiredArgument,
        "flightd script;flightd records;flightd put;flightd put a;flightd put a t;flightd put --id 7 a t;flightd get;flightd get a;\
         flightd get --all-locations a;flightd list;flightd list --;flightd info;flightd info a;flightd put --schema s --id 7",
    ),
    (
        ErrorKind::InvalidValue,
        "flightd serve --nodes;flightd serve --port;flightd serve --data;flightd serve --nodes --port 9000;\
         flightd serve --wait;flightd serve --wait --data d;\
         flightd serve --data --resume;flightd put a t f --id;flightd put a t f --schema;flightd put --id -- a t f;\
         flightd put --id --schema s a t f",
    ),
    // An option stands twice.
    (
        ErrorKind::ArgumentConflict,
        "flightd serve --nodes 3 --nodes 3;flightd serve --data a --data b;flightd serve --port=1 --nodes 3 --port 2;flightd put --id 7 a t f --id 7;\
         flightd put --schema=s --schema=s a t f;flightd get --all-locations a t --all-locations;\
         flightd serve --wait 5 --wait 5;flightd serve --wait=5 --data d --wait 6;\
         flightd serve --resume --resume;flightd serve --resume --data d --resume",
    ),
    // An option without a value has one.
    (
        ErrorKind::TooManyValues,
        "flightd get a t --all-locations=true;flightd get --all-locations= a t;\
         flightd serve --resume=x;flightd serve --resume=true;flightd serve --resume= --data d",
    ),
];

#[test]
fn refuses_what_is_no_call(rt: HostRuntime) -> Result<(), Fail> {
    let alloc = rt.alloc();
    for (kind, calls) in NO_CALLS {
        for call in calls.split(';') {
            assert!(rt; is_refused(alloc, call, kind, 2)?, "{call}");
        }
    }
    Ok(())
}

#[test]
fn answers_calls_for_help(rt: HostRuntime) -> Result<(), Fail> {
    let alloc = rt.alloc();
    for command in [
        "acceptor", "audit", "replay", "serve", "script", "records", "put", "get", "list", "info",
    ] {
        for call in [
            "flightd help COMMAND",
            "flightd COMMAND --help",
            "flightd COMMAND -h",
        ] {
            let call = call.replace(alloc, "COMMAND", command)?;
            assert!(rt;
                is_refused(alloc, &call, ErrorKind::DisplayHelp, 0)?,
                "{call}"
            );
        }
    }
    assert!(rt; is_refused(alloc, "flightd help", ErrorKind::DisplayHelp, 0)?);
    assert!(rt; is_refused(alloc, "flightd --version", ErrorKind::DisplayVersion, 0)?);
    assert!(rt;
        is_refused(
            alloc,
            "flightd help serve --nodes",
            ErrorKind::InvalidSubcommand,
            2
        )?
    );
    Ok(())
}

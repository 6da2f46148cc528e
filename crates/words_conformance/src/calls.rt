//! What each command asks for.

use crate::support::{asks_for, words_in};
use command_line::Asked;
use std::test::Fail;

#[test]
fn takes_the_commands_without_a_server(rt: HostRuntime) -> Result<(), Fail> {
    let alloc = rt.alloc();
    for (call, wanted) in [
        ("flightd", Asked::Acceptor),
        ("flightd acceptor", Asked::Acceptor),
        ("flightd audit run.json", Asked::Audit("run.json")),
        (
            "flightd audit --explain run.json",
            Asked::Explain("run.json"),
        ),
        (
            "flightd audit run.json --explain",
            Asked::Explain("run.json"),
        ),
        ("flightd replay put", Asked::Replay("put")),
        ("flightd script calls.json", Asked::Script("calls.json")),
        ("flightd script -", Asked::Script("-")),
        ("flightd script -- --calls", Asked::Script("--calls")),
        (
            "flightd list localhost:42000",
            Asked::List("localhost:42000"),
        ),
        ("flightd list [::1]:42000", Asked::List("[::1]:42000")),
        ("list list list", Asked::List("list")),
        ("flightd records node-0.rec", Asked::Records("node-0.rec")),
        ("flightd records records", Asked::Records("records")),
        ("flightd records -", Asked::Records("-")),
    ] {
        let words = words_in(alloc, call)?;
        assert!(rt; asks_for(alloc, &words, wanted), "{call}");
    }
    Ok(())
}

#[test]
fn takes_a_cluster(rt: HostRuntime) -> Result<(), Fail> {
    let alloc = rt.alloc();
    for (call, nodes, port, folder) in [
        ("flightd serve", None, None, None),
        ("flightd serve --", None, None, None),
        ("flightd serve --nodes 5", Some("5"), None, None),
        ("flightd serve --nodes=5", Some("5"), None, None),
        ("flightd serve --port 9000", None, Some("9000"), None),
        ("flightd serve --port=9000", None, Some("9000"), None),
        ("flightd serve --data d", None, None, Some("d")),
        ("flightd serve --data=a/b", None, None, Some("a/b")),
        (
            "flightd serve --nodes 3 --port 9000 --data d",
            Some("3"),
            Some("9000"),
            Some("d"),
        ),
        (
            "flightd serve --port=9000 --data=d --nodes 3",
            Some("3"),
            Some("9000"),
            Some("d"),
        ),
        (
            "flightd serve --data d --port 9000 --nodes=3",
            Some("3"),
            Some("9000"),
            Some("d"),
        ),
        // Which numbers these are is not looked at here.
        (
            "flightd serve --nodes seven --port=-1",
            Some("seven"),
            Some("-1"),
            None,
        ),
        (
            "flightd serve --nodes= --port - --data=",
            Some(""),
            Some("-"),
            Some(""),
        ),
    ] {
        let words = words_in(alloc, call)?;
        let wanted = Asked::Serve {
            nodes,
            port,
            folder,
            wait: None,
            is_resumed: false,
        };
        assert!(rt; asks_for(alloc, &words, wanted), "{call}");
    }
    Ok(())
}

#[test]
fn takes_a_cluster_that_goes_on(rt: HostRuntime) -> Result<(), Fail> {
    let alloc = rt.alloc();
    for (call, folder, is_resumed) in [
        ("flightd serve --resume", None, true),
        ("flightd serve --resume --", None, true),
        ("flightd serve --resume --data d", Some("d"), true),
        ("flightd serve --data=d --resume", Some("d"), true),
        ("flightd serve --data resume", Some("resume"), false),
        ("flightd serve --data=--resume", Some("--resume"), false),
        (
            "flightd serve --data=--resume --resume",
            Some("--resume"),
            true,
        ),
    ] {
        let words = words_in(alloc, call)?;
        let wanted = Asked::Serve {
            nodes: None,
            port: None,
            folder,
            wait: None,
            is_resumed,
        };
        assert!(rt; asks_for(alloc, &words, wanted), "{call}");
    }
    Ok(())
}

#[test]
fn takes_a_cluster_whose_puts_wait(rt: HostRuntime) -> Result<(), Fail> {
    let alloc = rt.alloc();
    for (call, folder, wait) in [
        ("flightd serve --wait 5", None, Some("5")),
        ("flightd serve --wait=5", None, Some("5")),
        ("flightd serve --wait 5 --", None, Some("5")),
        ("flightd serve --wait 600 --data d", Some("d"), Some("600")),
        ("flightd serve --data=d --wait=600", Some("d"), Some("600")),
        ("flightd serve --data wait", Some("wait"), None),
        ("flightd serve --data=--wait", Some("--wait"), None),
        (
            "flightd serve --data=--wait --wait wait",
            Some("--wait"),
            Some("wait"),
        ),
        // Which number it is is not looked at here.
        ("flightd serve --wait=-1", None, Some("-1")),
        ("flightd serve --wait= --data=", Some(""), Some("")),
    ] {
        let words = words_in(alloc, call)?;
        let wanted = Asked::Serve {
            nodes: None,
            port: None,
            folder,
            wait,
            is_resumed: false,
        };
        assert!(rt; asks_for(alloc, &words, wanted), "{call}");
    }
    Ok(())
}

#[test]
fn takes_a_get(rt: HostRuntime) -> Result<(), Fail> {
    let alloc = rt.alloc();
    for (call, version, all_locations) in [
        ("flightd get a:1 t", None, false),
        ("flightd get a:1 t 7", Some("7"), false),
        ("flightd get a:1 t --all-locations", None, true),
        ("flightd get a:1 --all-locations t", None, true),
        ("flightd get --all-locations a:1 t", None, true),
        ("flightd get --all-locations a:1 t 7", Some("7"), true),
        ("flightd get a:1 --all-locations t 7", Some("7"), true),
        ("flightd get a:1 t --all-locations 7", Some("7"), true),
        ("flightd get a:1 t 7 --all-locations", Some("7"), true),
        ("flightd get a:1 t --all-locations -- 7", Some("7"), true),
        (
            "flightd get a:1 t -- --all-locations",
            Some("--all-locations"),
            false,
        ),
    ] {
        let (address, table) = ("a:1", "t");
        let wanted = Asked::Get {
            address,
            table,
            version,
            all_locations,
        };
        let words = words_in(alloc, call)?;
        assert!(rt; asks_for(alloc, &words, wanted), "{call}");
    }
    Ok(())
}

#[test]
fn takes_an_info(rt: HostRuntime) -> Result<(), Fail> {
    let alloc = rt.alloc();
    for (call, address, table) in [
        ("flightd info a:1 t", "a:1", "t"),
        ("flightd info t a:1", "t", "a:1"),
        ("flightd info a:1 -- -t", "a:1", "-t"),
        ("flightd info info info", "info", "info"),
    ] {
        let words = words_in(alloc, call)?;
        assert!(rt;
            asks_for(alloc, &words, Asked::Info { address, table }),
            "{call}"
        );
    }
    Ok(())
}

#[test]
fn takes_a_put_of_standard_input(rt: HostRuntime) -> Result<(), Fail> {
    let alloc = rt.alloc();
    for (call, id, schema) in [
        ("flightd put a:1 t -", None, None),
        (
            "flightd put --id - a:1 t - --schema -",
            Some("-"),
            Some("-"),
        ),
        ("flightd put a:1 t - --id= --schema==", Some(""), Some("=")),
        ("flightd put --schema=--id a:1 t -", None, Some("--id")),
        (
            "flightd put --id put a:1 --schema schema t -",
            Some("put"),
            Some("schema"),
        ),
    ] {
        let (address, table, file) = ("a:1", "t", "-");
        let wanted = Asked::Put {
            address,
            table,
            file,
            id,
            schema,
        };
        let words = words_in(alloc, call)?;
        assert!(rt; asks_for(alloc, &words, wanted), "{call}");
    }
    Ok(())
}

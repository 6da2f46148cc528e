//! The numbers of a cluster, its folder, and the number of a version.

use command_line::{Served, WordsFault, served_by, version_by};

#[test]
fn takes_three_or_five_nodes(rt: HostRuntime) {
    assert!(rt;
        served_by(None, None, Some("d"), None)
            == Ok(Served {
                nodes: 3,
                port: 42_000,
                folder: "d",
                wait: 60
            })
    );
    for (text, nodes) in [
        ("3", 3),
        ("5", 5),
        ("03", 3),
        ("0000000000000000000000005", 5),
    ] {
        assert!(rt;
            served_by(Some(text), None, Some("a/b"), None)
                == Ok(Served {
                    nodes,
                    port: 42_000,
                    folder: "a/b",
                    wait: 60
                }),
            "{text}"
        );
    }
    for text in [
        "",
        "0",
        "1",
        "2",
        "4",
        "6",
        "7",
        "-3",
        "+3",
        "3.0",
        "3 ",
        " 3",
        "three",
        "0x3",
        "3e0",
        "259",
        "4294967299",
        "18446744073709551619",
        "\u{663}",
    ] {
        assert!(rt;
            served_by(Some(text), None, None, None) == Err(WordsFault::Nodes),
            "{text}"
        );
        // The nodes are judged before the port.
        assert!(rt;
            served_by(Some(text), Some("0"), None, None) == Err(WordsFault::Nodes),
            "{text}"
        );
    }
}

#[test]
fn takes_a_port_with_room_behind_it(rt: HostRuntime) {
    for (text, port) in [
        ("1024", 1_024),
        ("9000", 9_000),
        ("65000", 65_000),
        ("0042000", 42_000),
    ] {
        assert!(rt;
            served_by(None, Some(text), Some("d"), None)
                == Ok(Served {
                    nodes: 3,
                    port,
                    folder: "d",
                    wait: 60
                }),
            "{text}"
        );
        assert!(rt;
            served_by(Some("5"), Some(text), Some("d"), None)
                == Ok(Served {
                    nodes: 5,
                    port,
                    folder: "d",
                    wait: 60
                }),
            "{text}"
        );
    }
    for text in [
        "",
        "0",
        "80",
        "1023",
        "65001",
        "65531",
        "65535",
        "65536",
        "107536",
        "4295009296",
        "-42000",
        "+42000",
        "42,000",
        "42000.",
        "0xa410",
        "port",
    ] {
        assert!(rt;
            served_by(Some("5"), Some(text), None, None) == Err(WordsFault::Port),
            "{text}"
        );
    }
}

#[test]
fn wants_a_folder(rt: HostRuntime) {
    assert!(rt; served_by(None, None, None, None) == Err(WordsFault::Folder));
    assert!(rt; served_by(Some("5"), Some("9000"), Some(""), Some("5")) == Err(WordsFault::Folder));
}

#[test]
fn takes_a_wait_of_a_second_to_a_day(rt: HostRuntime) {
    for (text, wait) in [("1", 1), ("60", 60), ("00600", 600), ("86400", 86_400)] {
        assert!(rt;
            served_by(Some("5"), Some("9000"), Some("d"), Some(text))
                == Ok(Served {
                    nodes: 5,
                    port: 9_000,
                    folder: "d",
                    wait
                }),
            "{text}"
        );
    }
    for text in [
        "",
        "0",
        "000",
        "86401",
        "864000",
        "4294967296",
        "4294967356",
        "18446744073709551676",
        "-1",
        "+60",
        "60s",
        "1.5",
        "86,400",
        " 60",
        "60 ",
        "0x3c",
        "1e3",
        "minute",
    ] {
        assert!(rt;
            served_by(None, None, Some("d"), Some(text)) == Err(WordsFault::Wait),
            "{text}"
        );
        // The nodes, the port and the folder are judged before the wait.
        assert!(rt;
            served_by(Some("4"), None, Some("d"), Some(text)) == Err(WordsFault::Nodes),
            "{text}"
        );
        assert!(rt;
            served_by(None, Some("0"), Some("d"), Some(text)) == Err(WordsFault::Port),
            "{text}"
        );
        assert!(rt;
            served_by(None, None, None, Some(text)) == Err(WordsFault::Folder),
            "{text}"
        );
    }
}

#[test]
fn reads_a_version(rt: HostRuntime) {
    for (text, version) in [
        ("1", 1),
        ("7", 7),
        ("0010", 10),
        ("18446744073709551615", u64::MAX),
    ] {
        assert!(rt; version_by(text) == Ok(version), "{text}");
    }
    for text in [
        "",
        "0",
        "000",
        "-1",
        "+1",
        "1.",
        "one",
        "latest",
        "1 ",
        "18446744073709551616",
        "99999999999999999999999999",
    ] {
        assert!(rt; version_by(text) == Err(WordsFault::Version), "{text}");
    }
}

#[test]
fn faults_say_what_is_allowed(rt: HostRuntime) -> Result<(), std::test::Fail> {
    let alloc = rt.alloc();
    for (fault, text) in [
        (WordsFault::Nodes, "--nodes takes 3 or 5"),
        (WordsFault::Port, "--port takes a number from 1024 to 65000"),
        (
            WordsFault::Wait,
            "--wait takes a number of seconds from 1 to 86400",
        ),
        (WordsFault::Version, "VERSION is a decimal number from 1 on"),
    ] {
        assert!(rt; format!(in alloc; "{fault}")?.as_str() == text, "{text}");
    }
    Ok(())
}

//! Files that tell a script, and files that tell none.

use run_files::{
    CallRequest, ClusterSize, Script, ScriptCall, ScriptFault, read_script, script_flaw,
};
use std::alloc::{AllocError, Global};
use std::test::Fail;

/// The file of docs/FORMATS.md: an upload, a version and what is told of a table, each asked of another node.
const SCRIPT: &str =
    r#"{"nodes":3,"calls":[["put",0,{"table":"t","id":"000102030405060708090a0b0c0d0e0f","values":[[1,null,3]]}],["get",1,"t",1],["info",2,"t"]]}"#;

/// A file of so many nodes with these calls.
fn file_of(alloc: Global, nodes: &str, calls: &str) -> Result<String, AllocError> {
    format!(in alloc; "{{\"nodes\":{nodes},\"calls\":[{calls}]}}")
}

/// What a file of so many nodes with these calls is read as.
fn read(alloc: Global, nodes: &str, calls: &str) -> Result<Result<Script, ScriptFault>, Fail> {
    let file = file_of(alloc, nodes, calls)?;
    Ok(read_script(alloc, file.as_bytes()))
}

/// Whether such a file tells a script of so many calls.
fn tells(alloc: Global, nodes: &str, calls: &str, count: usize) -> Result<bool, Fail> {
    match read(alloc, nodes, calls)? {
        Ok(script) => Ok(script.calls.len() == count),
        Err(_) => Ok(false),
    }
}

/// Whether a file tells no script.
fn is_bad(alloc: Global, file: &[u8]) -> bool {
    match read_script(alloc, file) {
        Err(ScriptFault::BadScript) => true,
        Err(ScriptFault::OutOfMemory) | Ok(_) => false,
    }
}

/// Whether such a file tells no script.
fn has_bad_calls(alloc: Global, nodes: &str, calls: &str) -> Result<bool, Fail> {
    let file = file_of(alloc, nodes, calls)?;
    Ok(is_bad(alloc, file.as_bytes()))
}

/// A call in words: the node, and what it is asked.
fn words_of(alloc: Global, call: &ScriptCall) -> Result<String, AllocError> {
    let node = call.node;
    match &call.asked {
        CallRequest::Put(upload) => {
            let table = upload.table();
            let length = upload.as_slice().len();
            format!(in alloc; "{node} put {table} {length}")
        }
        CallRequest::Get(ticket) => {
            let table = ticket.table();
            let version = ticket.version();
            format!(in alloc; "{node} get {table} {version}")
        }
        CallRequest::Info(table) => {
            let table = table.as_str();
            format!(in alloc; "{node} info {table}")
        }
    }
}

/// Whether the call of this number is in these words.
fn is_call(alloc: Global, script: &Script, number: usize, words: &str) -> Result<bool, AllocError> {
    match script.calls.get(number) {
        Some(call) => Ok(words_of(alloc, call)?.as_str() == words),
        None => Ok(false),
    }
}

/// The script of the formats' file.
fn known(alloc: Global) -> Result<Script, Fail> {
    match read_script(alloc, SCRIPT.as_bytes()) {
        Ok(script) => Ok(script),
        Err(_) => Err(Fail::from("no script")),
    }
}

/// The upload is the one of docs/FORMATS.md, of 344 bytes.
#[test]
fn reads_each_call_as_what_it_tells(rt: HostRuntime) -> Result<(), Fail> {
    let alloc = rt.alloc();
    let script = known(alloc)?;
    assert!(rt; script.nodes == ClusterSize::Three);
    assert!(rt; script.calls.len() == 3);
    assert!(rt; is_call(alloc, &script, 0, "0 put t 344")?);
    assert!(rt; is_call(alloc, &script, 1, "1 get t 1")?);
    assert!(rt; is_call(alloc, &script, 2, "2 info t")?);
    Ok(())
}

/// Three nodes and five, and no other number.
#[test]
fn counts_three_nodes_or_five(rt: HostRuntime) -> Result<(), Fail> {
    let alloc = rt.alloc();
    assert!(rt; tells(alloc, "3", "", 0)?);
    assert!(rt; tells(alloc, "5", "", 0)?);
    for nodes in [
        "0",
        "1",
        "2",
        "4",
        "6",
        "7",
        "-3",
        "3.0",
        "3e0",
        "259",
        "261",
        "18446744073709551619",
        "\"3\"",
        "null",
        "[3]",
        "true",
    ] {
        assert!(rt; has_bad_calls(alloc, nodes, "")?, "{nodes}");
    }
    Ok(())
}

/// How many members those are who agree.
#[test]
fn has_as_many_members_as_nodes(rt: HostRuntime) {
    assert!(rt; ClusterSize::Three.members().count() == 3);
    assert!(rt; ClusterSize::Five.members().count() == 5);
}

/// A node is one of the cluster's.
#[test]
fn calls_a_node_that_there_is(rt: HostRuntime) -> Result<(), Fail> {
    let alloc = rt.alloc();
    for (nodes, node, is_one) in [
        ("3", "0", true),
        ("3", "2", true),
        ("3", "3", false),
        ("5", "3", true),
        ("5", "4", true),
        ("5", "5", false),
        ("5", "256", false),
        ("3", "18446744073709551615", false),
        ("3", "18446744073709551616", false),
        ("3", "-1", false),
        ("3", "1.0", false),
        ("3", "\"0\"", false),
        ("3", "null", false),
    ] {
        let call = format!(in alloc; "[\"info\",{node},\"t\"]")?;
        assert!(rt;
            tells(alloc, nodes, &call, 1)? == is_one,
            "{node} of {nodes}"
        );
    }
    Ok(())
}

/// Calls that are none: another word or other items, no table's name, no version, and an upload that is none or that is not
/// taken.
const NO_CALLS: [&str; 36] = [
    "1",
    "null",
    "\"info\"",
    "{\"info\":0}",
    "[]",
    "[\"info\"]",
    "[\"info\",0]",
    "[\"info\",0,\"t\",\"t\"]",
    "[\"info\",0,1]",
    "[\"info\",0,\"\"]",
    "[\"info\",0,\"t/\"]",
    "[\"info\",0,\"t t\"]",
    "[\"info\",0,\"\\u00e4\"]",
    "[\"info\",0,\"ttttttttttttttttttttttttttttttttttttttttttttttttttttttttttttttttt\"]",
    "[0,\"info\",\"t\"]",
    "[\"Info\",0,\"t\"]",
    "[\"infos\",0,\"t\"]",
    "[\"tick\",0,0]",
    "[\"outcome\",0,0]",
    "[\"get\",0]",
    "[\"get\",0,\"t\"]",
    "[\"get\",0,\"t\",0]",
    "[\"get\",0,\"t\",1.0]",
    "[\"get\",0,\"t\",-1]",
    "[\"get\",0,\"t\",18446744073709551616]",
    "[\"get\",0,\"t\",1,1]",
    "[\"get\",0,\"\",1]",
    "[\"get\",0,\"t:\",1]",
    "[\"get\",0,1,1]",
    "[\"put\",0]",
    "[\"put\",0,0]",
    "[\"put\",0,{}]",
    "[\"put\",0,{\"table\":\"t\",\"values\":[]}]",
    "[\"put\",0,{\"table\":\"t\",\"id\":\"000102030405060708090a0b0c0d0e\",\"values\":[]}]",
    "[\"put\",0,{\"table\":\"t!\",\"id\":\"000102030405060708090a0b0c0d0e0f\",\"values\":[]}]",
    "[\"put\",0,{\"table\":\"t\",\"id\":\"000102030405060708090a0b0c0d0e0f\",\"values\":[[128]]}]",
];

#[test]
fn refuses_what_is_no_call(rt: HostRuntime) -> Result<(), Fail> {
    let alloc = rt.alloc();
    for call in NO_CALLS {
        assert!(rt; has_bad_calls(alloc, "3", call)?, "{call}");
    }
    Ok(())
}

/// Behind good ones and before them too.
#[test]
fn refuses_one_call_among_others(rt: HostRuntime) -> Result<(), Fail> {
    let alloc = rt.alloc();
    let good = "[\"info\",0,\"t\"]";
    for call in NO_CALLS {
        let calls = format!(in alloc; "{good},{call},{good}")?;
        assert!(rt; has_bad_calls(alloc, "5", &calls)?, "{call}");
    }
    Ok(())
}

/// Calls that are such at the edges: names of 64 bytes and of every byte that may stand in one, the greatest version, an upload
/// with no batch, with digits of either case, another name of its column and members beyond those.
const CALLS: [&str; 7] = [
    "[\"info\",0,\"tttttttttttttttttttttttttttttttttttttttttttttttttttttttttttttttt\"]",
    "[\"info\",0,\"AZaz09_.-\"]",
    "[\"get\",2,\"t\",18446744073709551615]",
    "[\"put\",0,{\"table\":\"t\",\"id\":\"000102030405060708090A0B0C0D0E0F\",\"values\":[]}]",
    "[\"put\",0,{\"table\":\"t\",\"id\":\"000102030405060708090a0b0c0d0e0f\",\"values\":[[]],\"name\":\"\"}]",
    "[\"put\",0,{\"table\":\"t\",\"id\":\"000102030405060708090a0b0c0d0e0f\",\"values\":[[-128,127,null],[0]],\"more\":{}}]",
    " [ \"get\" , 0 , \"t\" , 7 ] ",
];

#[test]
fn reads_what_is_just_a_call(rt: HostRuntime) -> Result<(), Fail> {
    let alloc = rt.alloc();
    for call in CALLS {
        assert!(rt; tells(alloc, "3", call, 1)?, "{call}");
    }
    Ok(())
}

/// Files that are none: no UTF-8, no JSON, another value, or one without its members.
#[test]
fn refuses_what_is_no_file(rt: HostRuntime) {
    let alloc = rt.alloc();
    for file in [
        b"".as_slice(),
        b"\xff".as_slice(),
        b"{\"nodes\":3,\"calls\":[],\"\xff\":0}".as_slice(),
        b"{\"nodes\":3,\"calls\":[]".as_slice(),
        b"{\"nodes\":3,\"calls\":[]}}".as_slice(),
        b"{\"nodes\":03,\"calls\":[]}".as_slice(),
        b"[]".as_slice(),
        b"3".as_slice(),
        b"{}".as_slice(),
        b"{\"nodes\":3}".as_slice(),
        b"{\"calls\":[]}".as_slice(),
        b"{\"nodes\":3,\"calls\":{}}".as_slice(),
        b"{\"nodes\":3,\"calls\":null}".as_slice(),
        b"{\"members\":3,\"calls\":[]}".as_slice(),
        b"{\"Nodes\":3,\"calls\":[]}".as_slice(),
        b"{\"nodes\":3,\"calls\":[],\"nodes\":4}".as_slice(),
    ] {
        assert!(rt; is_bad(alloc, file));
    }
}

/// What is said to be wrong with a file, and nothing of one that tells a script.
fn flaw_of(alloc: Global, file: &[u8]) -> Result<String, Fail> {
    match script_flaw(alloc, file)? {
        Some(flaw) => Ok(format!(in alloc; "{flaw}")?),
        None => Ok(String::new(alloc)),
    }
}

/// What is wrong with files that tell no script, and a file that tells one.
const FLAWS: [(&[u8], &[u8]); 8] = [
    (b"{\"nodes\":3}\xff", b"the file is not UTF-8"),
    (b"{\"nodes\":3", b"the file is not one JSON value"),
    (b"[]", b"`nodes` is missing or neither 3 nor 5"),
    (b"{\"nodes\":4}", b"`nodes` is missing or neither 3 nor 5"),
    (
        b"{\"nodes\":3,\"calls\":{}}",
        b"`calls` is missing or not an array",
    ),
    (
        b"{\"nodes\":3,\"calls\":[[\"info\",3,\"t\"]]}",
        b"call 0 of `calls` is not an array of a word, a node's number and that word's arguments",
    ),
    (
        b"{\"nodes\":5,\"calls\":[[\"info\",3,\"t\"],[\"get\",4,\"t\",1],[\"put\",0,0],0]}",
        b"call 2 of `calls` is not an array of a word, a node's number and that word's arguments",
    ),
    (b"{\"nodes\":5,\"calls\":[[\"info\",3,\"t\"]]}", b""),
];

#[test]
fn says_what_is_wrong_with_a_file(rt: HostRuntime) -> Result<(), Fail> {
    for (file, flaw) in FLAWS {
        assert!(rt; flaw_of(rt.alloc(), file)?.as_bytes() == flaw);
    }
    Ok(())
}

/// Other members are passed over, and of two of one name the last one counts.
#[test]
fn passes_over_other_members(rt: HostRuntime) {
    let alloc = rt.alloc();
    let file =
        "{\"members\":9,\"nodes\":4,\"calls\":0,\"events\":[1],\"calls\":[],\"nodes\":5,\"uploads\":{}}";
    match read_script(alloc, file.as_bytes()) {
        Ok(script) => assert!(rt; script.nodes == ClusterSize::Five && script.calls.is_empty()),
        Err(_) => assert!(rt; false),
    }
}

/// So many calls of every kind, at every node of five, with versions from 1 on.
fn many(alloc: Global, count: usize) -> Result<String, AllocError> {
    let mut calls = String::new(alloc);
    for number in 0..count {
        if number > 0 {
            calls.push_str(",")?;
        }
        let node = number % 5;
        let version = number + 1;
        let call = match number % 3 {
            0 => format!(in alloc; "[\"get\",{node},\"t\",{version}]")?,
            1 => format!(in alloc; "[\"info\",{node},\"t{version}\"]")?,
            _ => format!(in alloc;
                "[\"put\",{node},{{\"table\":\"t\",\"id\":\"{number:032x}\",\"values\":[[{node}]]}}]"
            )?,
        };
        calls.push_str(call.as_str())?;
    }
    file_of(alloc, "5", calls.as_str())
}

/// The script of so many calls. An upload of one value is 8 bytes shorter than one of three with a null.
fn script_of_many(alloc: Global, count: usize) -> Result<Script, Fail> {
    let file = many(alloc, count)?;
    match read_script(alloc, file.as_bytes()) {
        Ok(script) => Ok(script),
        Err(_) => Err(Fail::from("no script")),
    }
}

#[test]
fn reads_thousands_of_calls(rt: HostRuntime) -> Result<(), Fail> {
    let alloc = rt.alloc();
    let script = script_of_many(alloc, 9_000)?;
    assert!(rt; script.calls.len() == 9_000);
    assert!(rt; is_call(alloc, &script, 8_997, "2 get t 8998")?);
    assert!(rt; is_call(alloc, &script, 8_998, "3 info t8999")?);
    assert!(rt; is_call(alloc, &script, 8_999, "4 put t 336")?);
    Ok(())
}

//! Words that the program cannot show apart: a file without a name, of which every command says the same, and no word at
//! all.

use command_line::{Asked, asked_by, parse};
use std::alloc::{AllocError, Global};
use std::test::Fail;

/// The command that these words ask for, with a file without a name, or for the acceptor.
fn command_of(alloc: Global, words: &[String]) -> &'static str {
    match parse(alloc, words) {
        Ok(matches) => match asked_by(&matches) {
            Asked::Audit("") => "audit",
            Asked::Explain("") => "explain",
            Asked::Replay("") => "replay",
            Asked::Acceptor => "acceptor",
            _ => "another file",
        },
        Err(_) => "no call",
    }
}

/// A call's words.
fn words_in(alloc: Global, call: &str) -> Result<Vec<String>, AllocError> {
    let mut words = Vec::new(alloc);
    for word in call.split(' ') {
        words.push(String::from_str(alloc, word)?)?;
    }
    Ok(words)
}

#[test]
fn takes_a_file_without_a_name(rt: HostRuntime) -> Result<(), Fail> {
    let alloc = rt.alloc();
    for (call, wanted) in [
        ("flightd audit ", "audit"),
        ("flightd audit --explain ", "explain"),
        ("flightd replay ", "replay"),
    ] {
        let words = words_in(alloc, call)?;
        assert!(rt; command_of(alloc, &words) == wanted, "{call}");
    }
    Ok(())
}

/// No word at all, not even the program's name, asks for the acceptor too.
#[test]
fn takes_no_word_for_the_acceptor(rt: HostRuntime) {
    assert!(rt; command_of(rt.alloc(), &[]) == "acceptor");
}

//! The options of a put, in each place among its operands, in either order, and in each form; and the option of a
//! cluster that has no value, in each place among the others.

use crate::support::asks_for;
use command_line::Asked;
use std::alloc::{AllocError, Global};
use std::test::Fail;

/// The operands of the put.
const OPERANDS: [&str; 3] = ["a:1", "t", "rows"];

/// How an option and its value are written, as one word or as two.
const IDS: [&str; 2] = ["--id=7", "--id 7"];

const SCHEMAS: [&str; 2] = ["--schema=s", "--schema s"];

/// The other options of a cluster: three in each order, and the wait in each place among them.
const CLUSTERS: [[&str; 4]; 6] = [
    ["--wait 7", "--nodes 5", "--port 9000", "--data d"],
    ["--nodes=5", "--wait=7", "--data d", "--port=9000"],
    ["--port 9000", "--nodes=5", "--wait 7", "--data=d"],
    ["--port=9000", "--data=d", "--nodes 5", "--wait=7"],
    ["--data d", "--nodes 5", "--wait=7", "--port=9000"],
    ["--data=d", "--wait 7", "--port 9000", "--nodes=5"],
];

fn push_words(alloc: Global, words: &mut Vec<String>, text: &str) -> Result<(), AllocError> {
    for word in text.split(' ') {
        words.push(String::from_str(alloc, word)?)?;
    }
    Ok(())
}

/// The words of a put that has so many operands before each of two options.
fn put_with(
    alloc: Global,
    (first_at, first): (usize, &str),
    (second_at, second): (usize, &str),
) -> Result<Vec<String>, AllocError> {
    let mut words = Vec::new(alloc);
    push_words(alloc, &mut words, "flightd put")?;
    for at in 0..4 {
        if at == first_at {
            push_words(alloc, &mut words, first)?;
        }
        if at == second_at {
            push_words(alloc, &mut words, second)?;
        }
        if let Some(operand) = OPERANDS.get(at) {
            push_words(alloc, &mut words, *operand)?;
        }
    }
    Ok(words)
}

/// Whether that put is taken for what it is.
fn is_taken(
    alloc: Global,
    first: (usize, &str),
    second: (usize, &str),
) -> Result<bool, AllocError> {
    let words = put_with(alloc, first, second)?;
    let wanted = Asked::Put {
        address: "a:1",
        table: "t",
        file: "rows",
        id: Some("7"),
        schema: Some("s"),
    };
    Ok(asks_for(alloc, &words, wanted))
}

/// Whether each put is taken that has the first option there and the second one here, in whichever forms.
fn are_taken(
    alloc: Global,
    first_at: usize,
    firsts: [&str; 2],
    second_at: usize,
    seconds: [&str; 2],
) -> Result<bool, AllocError> {
    for first in firsts {
        for second in seconds {
            if !is_taken(alloc, (first_at, first), (second_at, second))? {
                return Ok(false);
            }
        }
    }
    Ok(true)
}

#[test]
fn takes_options_in_each_place(rt: HostRuntime) -> Result<(), Fail> {
    let alloc = rt.alloc();
    for first_at in 0..4 {
        for second_at in first_at..4 {
            assert!(rt;
                are_taken(alloc, first_at, IDS, second_at, SCHEMAS)?,
                "{first_at} {second_at}"
            );
            assert!(rt;
                are_taken(alloc, first_at, SCHEMAS, second_at, IDS)?,
                "{first_at} {second_at}"
            );
        }
    }
    Ok(())
}

/// The words of a cluster that has so many of these options before the word to resume.
fn serve_with(
    alloc: Global,
    resumed_at: usize,
    options: [&str; 4],
) -> Result<Vec<String>, AllocError> {
    let mut words = Vec::new(alloc);
    push_words(alloc, &mut words, "flightd serve")?;
    for at in 0..5 {
        if at == resumed_at {
            push_words(alloc, &mut words, "--resume")?;
        }
        if let Some(option) = options.get(at) {
            push_words(alloc, &mut words, *option)?;
        }
    }
    Ok(words)
}

#[test]
fn takes_the_word_to_resume_in_each_place(rt: HostRuntime) -> Result<(), Fail> {
    let alloc = rt.alloc();
    // At place 5 the word is not there.
    for (resumed_at, is_resumed) in [
        (0, true),
        (1, true),
        (2, true),
        (3, true),
        (4, true),
        (5, false),
    ] {
        for options in CLUSTERS {
            let words = serve_with(alloc, resumed_at, options)?;
            let wanted = Asked::Serve {
                nodes: Some("5"),
                port: Some("9000"),
                folder: Some("d"),
                wait: Some("7"),
                is_resumed,
            };
            assert!(rt; asks_for(alloc, &words, wanted), "{resumed_at}");
        }
    }
    Ok(())
}

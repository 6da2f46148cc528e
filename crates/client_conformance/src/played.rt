//! Rows that are put and got, served by `flight_calls`.

use crate::scripted::Scripted;
use client_command::{get_everywhere_run, get_run, list_run, put_run, put_words};
use flight_calls::serve_call;
use std::alloc::Global;
use std::hash::RandomState;
use std::test::Fail;
use table_backend::TableBackend;

/// A backend that has taken nothing, at one location. It is in a box, since a test that held it as it is would be
/// proved long.
fn backend(rt: &HostRuntime) -> Result<Box<TableBackend>, Fail> {
    let mut locations = Vec::new(rt.alloc());
    locations.push(String::from_str(rt.alloc(), "plain+tcp://127.0.0.1:42000")?)?;
    let hashing = RandomState::new(rt)?;
    let backend = TableBackend::new(rt.alloc(), hashing, 100_000, locations);
    Ok(Box::new(rt.alloc(), backend)?)
}

/// What a client does.
#[derive(Clone, Copy)]
enum Word<'a> {
    Put(u8, &'a str),
    Get(Option<u64>),
    GetEverywhere,
    List,
}

/// Does it over these connections: the status, and what was printed and reported.
fn done(alloc: Global, connect: &mut Scripted, word: Word<'_>) -> Result<String, Fail> {
    let mut out = Vec::new(alloc);
    let mut err = Vec::new(alloc);
    let at = "127.0.0.1:42000";
    let status = match word {
        Word::Put(id, rows) => {
            let Ok(words) = put_words(at, "t", None, [id; 16]) else {
                return Err(Fail::from("words that name nothing"));
            };
            let text = rows.as_bytes();
            put_run(alloc, connect, words, text, None, &mut out, &mut err)
        }
        Word::Get(version) => get_run(alloc, connect, at, "t", version, &mut out, &mut err),
        Word::GetEverywhere => {
            get_everywhere_run(alloc, connect, at, "t", None, &mut out, &mut err)
        }
        Word::List => list_run(alloc, connect, at, &mut out, &mut err),
    };
    let (Ok(out), Ok(err)) = (String::from_utf8(out), String::from_utf8(err)) else {
        return Err(Fail::from("no text"));
    };
    Ok(format!(in alloc; "{status} {out}{err}")?)
}

/// The answer to a request.
fn answer(alloc: Global, backend: &mut TableBackend, request: &[u8]) -> Result<Vec<u8>, Fail> {
    let mut reader = request;
    let mut writer = Vec::new(alloc);
    match serve_call(alloc, &mut reader, &mut writer, backend) {
        Ok(()) => Ok(writer),
        Err(_) => Err(Fail::from("not served")),
    }
}

/// Does it over connections that the backend answers, up to eight of them: the word is done again with one answer more,
/// until each request has its answer.
fn served(alloc: Global, backend: &mut TableBackend, word: Word<'_>) -> Result<String, Fail> {
    let mut answers = Vec::new(alloc);
    for _ in 0..8 {
        let mut connect = Scripted::with_one_more(alloc, &answers)?;
        let told = done(alloc, &mut connect, word)?;
        if connect.sent.len() <= answers.len() {
            return Ok(told);
        }
        let Some(request) = connect.sent.pop() else {
            return Err(Fail::from("nothing sent"));
        };
        answers.push(answer(alloc, backend, &request)?)?;
    }
    Err(Fail::from("too many calls"))
}

/// Two uploads are put; each version is got as the lines that were put, the latest without its number too.
#[test]
fn gets_the_lines_that_were_put(rt: HostRuntime) -> Result<(), Fail> {
    let alloc = rt.alloc();
    let mut backend = backend(&rt)?;
    let one = "{\"a\":1,\"b\":\"x\"}\n{\"a\":2,\"b\":\"y\"}\n";
    let two = "{\"a\":3,\"b\":\"\"}\n";
    let put = served(alloc, &mut backend, Word::Put(1, one))?;
    assert!(rt;
        put.as_str() == "0 01010101010101010101010101010101 1\n",
        "{put}"
    );
    let put = served(alloc, &mut backend, Word::Put(2, two))?;
    assert!(rt;
        put.as_str() == "0 02020202020202020202020202020202 2\n",
        "{put}"
    );
    let first = served(alloc, &mut backend, Word::Get(Some(1)))?;
    assert!(rt;
        first.as_str() == format!(in alloc; "0 {one}")?.as_str(),
        "{first}"
    );
    let latest = served(alloc, &mut backend, Word::Get(None))?;
    assert!(rt;
        latest.as_str() == format!(in alloc; "0 {one}{two}")?.as_str(),
        "{latest}"
    );
    Ok(())
}

/// The table is listed, and got from its one location too.
#[test]
fn lists_and_compares(rt: HostRuntime) -> Result<(), Fail> {
    let alloc = rt.alloc();
    let mut backend = backend(&rt)?;
    let rows = "{\"a\":1}\n";
    served(alloc, &mut backend, Word::Put(1, rows))?;
    let listed = served(alloc, &mut backend, Word::List)?;
    assert!(rt; listed.as_str().starts_with("0 t 1 1 "), "{listed}");
    let got = served(alloc, &mut backend, Word::GetEverywhere)?;
    let wanted = "0 {\"a\":1}\nplain+tcp://127.0.0.1:42000 same\n";
    assert!(rt; got.as_str() == wanted, "{got}");
    Ok(())
}

/// The lines of version 2 of two uploads with a column of floats, where the last float of the second comes as a NaN
/// with a sign: what is printed and reported.
fn got_with_a_sign(alloc: Global, backend: &mut TableBackend) -> Result<String, Fail> {
    let mut connect = Scripted::with_one_more(alloc, &[])?;
    drop(done(alloc, &mut connect, Word::Get(Some(2)))?);
    let Some(request) = connect.sent.pop() else {
        return Err(Fail::from("nothing sent"));
    };
    let mut answer = answer(alloc, backend, &request)?;
    // The bits of 1.5 are 3ff8 and zeros, from the last byte of the message on. The trailer behind it has six bytes.
    let place = answer.len().saturating_sub(7);
    let Some(last) = answer.get_mut(place) else {
        return Err(Fail::from("no answer"));
    };
    if *last != 0x3f {
        return Err(Fail::from("no float"));
    }
    *last = 0xff;
    let answers = vec![in alloc; answer]?;
    let mut connect = Scripted::with_one_more(alloc, &answers)?;
    done(alloc, &mut connect, Word::Get(Some(2)))
}

/// A NaN with a sign has no line: the rows of its batch are not printed, and those of the batch before are.
#[test]
fn prints_no_rows_of_a_batch_without_lines(rt: HostRuntime) -> Result<(), Fail> {
    let alloc = rt.alloc();
    let mut backend = backend(&rt)?;
    let one = "{\"a\":0.5}\n";
    let two = "{\"a\":0.25}\n{\"a\":1.5}\n";
    served(alloc, &mut backend, Word::Put(1, one))?;
    served(alloc, &mut backend, Word::Put(2, two))?;
    let got = got_with_a_sign(alloc, &mut backend)?;
    let wanted = "1 {\"a\":0.5}\nflightd: line 2, field 0: OutOfRange\n";
    assert!(rt; got.as_str() == wanted, "{got}");
    Ok(())
}

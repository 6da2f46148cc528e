//! Calls of a script, and what they make of bytes.

use run_files::{Script, ScriptCall, read_script};
use script_calls::{Told, Unanswered, ask};
use std::alloc::Global;
use std::test::Fail;

/// The script of these calls of three nodes.
pub(crate) fn script(alloc: Global, calls: &str) -> Result<Script, Fail> {
    let file = format!(in alloc; "{{\"nodes\":3,\"calls\":[{calls}]}}")?;
    match read_script(alloc, file.as_bytes()) {
        Ok(script) => Ok(script),
        Err(_) => Err(Fail::from("no script")),
    }
}

/// The one call of such a script.
pub(crate) fn only_call(alloc: Global, call: &str) -> Result<ScriptCall, Fail> {
    match script(alloc, call)?.calls.pop() {
        Some(call) => Ok(call),
        None => Err(Fail::from("no call")),
    }
}

/// The request of a call, which is not answered.
pub(crate) fn request(alloc: Global, call: &ScriptCall) -> Result<Vec<u8>, Fail> {
    let mut reader: &[u8] = &[];
    let mut writer = Vec::new(alloc);
    match ask(alloc, &mut reader, &mut writer, &call.asked) {
        Err(Unanswered::BadAnswer) => Ok(writer),
        Err(Unanswered::Call(_)) | Ok(_) => Err(Fail::from("answered")),
    }
}

/// What a call is told by these bytes.
pub(crate) fn told_by(alloc: Global, call: &ScriptCall, answer: &[u8]) -> Result<Told, Unanswered> {
    let mut reader = answer;
    ask(alloc, &mut reader, &mut Vec::new(alloc), &call.asked)
}

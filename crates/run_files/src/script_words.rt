//! Calls from the arrays that tell them: a word, the number of a node, and what stands behind it.

ghost use Rattle.std.specs.Prelude.{◌≡◌, ◌∷◌, List, ℕ, [], IfOk, IfErr, map};
ghost use Rattle.serde_json.specs.Data.{string};
ghost use Rattle.serde_json.specs.View.{view};
ghost use Rattle.table_types.specs.Valid.{IsTableName};
ghost use Rattle.run_files.specs.declared.fault.ValueFault.TheVariants.{OutOfMemory};
ghost use Rattle.run_files.specs.declared.script.CallRequest.{CallRequest as RequestMeaning};
ghost use Rattle.run_files.specs.declared.script.ScriptCall.{ScriptCall as Calling};
ghost use Rattle.run_files.specs.Flaws.{ReadsItems};
ghost use Rattle.run_files.specs.ScriptFile.{Asks, TellsCall};

use crate::event_words::ticket_of;
use crate::fault::ValueFault;
use crate::json_values::{text_of, words_of};
use crate::script::{CallRequest, ClusterSize, ScriptCall};
use crate::upload_values::upload_of;
use serde_json::Value;
use std::alloc::{AllocError, Global};
use table_types::is_table_name;
use traces::TableText;

/// The name of a table.
fn table_of(alloc: Global, value: &Value) -> Result<TableText, ValueFault>
    ensures read { IfOk result (λ table. view value.now ≡ string table) }
    ensures named { IfOk result IsTableName }
    ensures refused { (table : List ℕ) → view value.now ≡ string table → IsTableName table
        → IfErr result (λ fault. fault ≡ OutOfMemory) }
{
    let table = text_of(alloc, value)?;
    if is_table_name(table.as_bytes()) {
        Ok(TableText::new(table))
    } else {
        Err(ValueFault::Unfit)
    }
}

/// What this word asks with one thing more.
fn asked_of_one(alloc: Global, word: &str, value: &Value) -> Result<CallRequest, ValueFault>
    ensures read { IfOk result (Asks word.now (view value.now ∷ [])) }
    ensures refused { (asked : RequestMeaning) → Asks word.now (view value.now ∷ []) asked
        → IfErr result (λ fault. fault ≡ OutOfMemory) }
{
    match word {
        "put" => Ok(CallRequest::Put(upload_of(alloc, value)?)),
        "info" => Ok(CallRequest::Info(table_of(alloc, value)?)),
        _ => Err(ValueFault::Unfit),
    }
}

fn asked_of_two(
    alloc: Global,
    word: &str,
    table: &Value,
    version: &Value,
) -> Result<CallRequest, ValueFault>
    ensures read { IfOk result (Asks word.now (view table.now ∷ view version.now ∷ [])) }
    ensures refused { (asked : RequestMeaning) → Asks word.now (view table.now ∷ view version.now ∷ []) asked
        → IfErr result (λ fault. fault ≡ OutOfMemory) }
{
    match word {
        "get" => Ok(CallRequest::Get(ticket_of(alloc, table, version)?)),
        _ => Err(ValueFault::Unfit),
    }
}

/// What this word asks with what stands behind it.
fn asked_of(alloc: Global, word: &str, rest: &[Value]) -> Result<CallRequest, ValueFault>
    ensures read { IfOk result (Asks word.now (map view rest.now)) }
    ensures refused { (asked : RequestMeaning) → Asks word.now (map view rest.now) asked
        → IfErr result (λ fault. fault ≡ OutOfMemory) }
{
    match rest {
        [value] => asked_of_one(alloc, word, value),
        [table, version] => asked_of_two(alloc, word, table, version),
        _ => Err(ValueFault::Unfit),
    }
}

/// The call that an array tells.
fn call_of(alloc: Global, nodes: ClusterSize, value: &Value) -> Result<ScriptCall, ValueFault>
    ensures read { IfOk result (TellsCall nodes (view value.now)) }
    ensures refused { (call : Calling) → TellsCall nodes (view value.now) call
        → IfErr result (λ fault. fault ≡ OutOfMemory) }
{
    let Some(said) = words_of(value) else {
        return Err(ValueFault::Unfit);
    };
    if said.node >= u64::from(nodes.members().count()) {
        return Err(ValueFault::Unfit);
    }
    let asked = asked_of(alloc, said.word, said.rest)?;
    Ok(ScriptCall {
        node: said.node as u8,
        asked,
    })
}

/// The calls that these values tell, in order; or the place of the first that tells none.
pub(crate) fn calls_of(
    alloc: Global,
    nodes: ClusterSize,
    values: &[Value],
) -> Result<Result<Vec<ScriptCall>, usize>, AllocError>
    ensures { IfOk result (ReadsItems (TellsCall nodes) (map view values.now)) }
{
    let mut calls = Vec::new(alloc);
    for place in 0..values.len() {
        match call_of(alloc, nodes, &values[place]) {
            Ok(call) => calls.push(call)?,
            Err(ValueFault::Unfit) => return Ok(Err(place)),
            Err(ValueFault::OutOfMemory) => return Err(AllocError),
        }
    }
    Ok(Ok(calls))
}

//! A script, read from the file that tells it.

ghost use Rattle.std.specs.Prelude.{◌≡◌, List, ℕ, Some, None, Ok, Err, IfOk, IfErr, IfSome, IsSome, MatchResult, IsUtf8, codes};
ghost use Rattle.serde_json.specs.View.{view};
ghost use Rattle.run_files.specs.declared.fault.ScriptFault.TheVariants.{OutOfMemory};
ghost use Rattle.run_files.specs.declared.script.ClusterSize.{ClusterSize as Counted};
ghost use Rattle.run_files.specs.declared.script.ScriptCall.{ScriptCall as Calling};
ghost use Rattle.run_files.specs.Flaws.{IsScriptFlaw, ReadsScript};
ghost use Rattle.run_files.specs.JsonValues.{number_at};
ghost use Rattle.run_files.specs.ScriptFile.{MeansScript, node_count};

use crate::fault::ScriptFault;
use crate::flaw::ScriptFlaw;
use crate::json_values::{array_at, value_of};
use crate::script::{ClusterSize, Script};
use crate::script_words::calls_of;
use serde_json::Value;
use std::alloc::{AllocError, Global};

/// How many nodes there are.
fn nodes_of(value: &Value) -> Option<ClusterSize>
    ensures read { IfSome result (λ nodes. number_at (codes "nodes") (view value.now) ≡ Some (node_count nodes)) }
    ensures only { (nodes : Counted) → number_at (codes "nodes") (view value.now) ≡ Some (node_count nodes)
        → IsSome result }
{
    match value.get("nodes").and_then(Value::as_u64) {
        Some(3) => Some(ClusterSize::Three),
        Some(5) => Some(ClusterSize::Five),
        _ => None,
    }
}

/// The script in a file, or what is wrong with it.
fn script_in(alloc: Global, file: &[u8]) -> Result<Result<Script, ScriptFlaw>, AllocError>
    ensures read { IfOk result (ReadsScript file.now) }
    ensures memory { IfErr result (λ _. IsUtf8 file.now) }
{
    let value = match value_of(alloc, file)? {
        Ok(value) => value,
        Err(flaw) => return Ok(Err(ScriptFlaw::Text(flaw))),
    };
    let Some(nodes) = nodes_of(&value) else {
        return Ok(Err(ScriptFlaw::Nodes));
    };
    let Some(calls) = array_at(&value, "calls") else {
        return Ok(Err(ScriptFlaw::Calls));
    };
    match calls_of(alloc, nodes, calls)? {
        Ok(calls) => Ok(Ok(Script { nodes, calls })),
        Err(place) => Ok(Err(ScriptFlaw::Call(place))),
    }
}

/// The script that a file tells.
///
/// The file is a JSON object (RFC 8259) with a whole number `nodes`, 3 or 5, and an array `calls`; docs/FORMATS.md has what a
/// call is. Other members of the object, and of an upload's, are passed over, and of two members of one name the last one
/// counts. Such a file tells one script, and that is read. Any other file is a [`ScriptFault::BadScript`], and no such file is.
/// The only other fault is [`ScriptFault::OutOfMemory`], and only of a file that is UTF-8.
pub fn read_script(alloc: Global, file: &[u8]) -> Result<Script, ScriptFault>
    ensures read { IfOk result (λ script. MeansScript file.now script.nodes script.calls.items) }
    ensures only { (nodes : Counted) (calls : List Calling) → MeansScript file.now nodes calls
        → MatchResult result (λ script. (script.nodes ≡ nodes) × (script.calls.items ≡ calls))
        (λ fault. fault ≡ OutOfMemory) }
    ensures memory { result ≡ Err OutOfMemory → IsUtf8 file.now }
{
    match script_in(alloc, file) {
        Ok(Ok(script)) => Ok(script),
        Ok(Err(_)) => Err(ScriptFault::BadScript),
        Err(_) => Err(ScriptFault::OutOfMemory),
    }
}

/// The first thing that is wrong with a file that tells no script, as [`read_script`] reads it; none where it tells one.
/// [`AllocError`] says that memory was refused, and comes only of a file that is UTF-8.
pub fn script_flaw(alloc: Global, file: &[u8]) -> Result<Option<ScriptFlaw>, AllocError>
    ensures flaw { IfOk result (λ flaw. IfSome flaw (IsScriptFlaw file.now)) }
    ensures none { result ≡ Ok None → (nodes : Counted) × (calls : List Calling) × MeansScript file.now nodes calls }
    ensures memory { IfErr result (λ _. IsUtf8 file.now) }
{
    match script_in(alloc, file)? {
        Ok(_) => Ok(None),
        Err(flaw) => Ok(Some(flaw)),
    }
}

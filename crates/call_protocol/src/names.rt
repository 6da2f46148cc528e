//! What descriptors name: tables and uploads; and the descriptors that name them.

ghost use Rattle.std.specs.Prelude.{◌≡◌, ◌≢◌, IfOk, IfErr, IfSome, IfNone, OnOk, ℕ, List};
ghost use Rattle.table_types.specs.Valid.{IsTableName, IsId};
ghost use Rattle.proto_wire.specs.FlightValues.{descriptor_values};
ghost use Rattle.call_protocol.specs.Names.{id_text, NamesTable, NamesUpload, TableFault, UploadNameFault};
ghost use Rattle.call_protocol.specs.Names.{table_descriptor as of_table, upload_descriptor as of_upload};

use crate::refusal::CallRefusal;
use hex::FromHex;
use proto_wire::{DescriptorType, FlightDescriptor};
use std::alloc::{AllocError, Global};
use table_types::is_table_name;

/// The id of an upload in this text: 32 hexadecimal digits in lower case. `None` for any other text.
pub fn id_in(text: &[u8]) -> Option<[u8; 16]>
    ensures some { IfSome result (λ id. text.now ≡ id_text id) }
    ensures named { IfSome result IsId }
    ensures none { IfNone result ((id : List ℕ) → IsId id → text.now ≢ id_text id) }
{
    let Ok(id) = <[u8; 16] as FromHex>::from_hex(text) else {
        return None;
    };
    if id_digits(id).as_slice() != text {
        return None;
    }
    Some(id)
}

/// The id of an upload in 32 hexadecimal digits, in lower case.
pub fn id_digits(id: [u8; 16]) -> [u8; 32]
    ensures { result ≡ id_text id }
{
    let mut digits = [0; 32];
    match hex::encode_to_slice(&id, &mut digits) {
        Ok(()) => digits,
        Err(_) => unreachable!(),
    }
}

/// The table that a descriptor names by a path of one element; a command beside the path is passed over.
///
/// The refusals are [`CallRefusal::CmdDescriptor`] for a command, and [`CallRefusal::BadDescriptor`] for any other descriptor that
/// names no table.
pub fn table_in(descriptor: &FlightDescriptor) -> Result<&str, CallRefusal>
    ensures named { IfOk result (λ table. NamesTable (descriptor_values descriptor.now) table.now) }
    ensures fault { IfErr result (TableFault (descriptor_values descriptor.now)) }
{
    if descriptor.descriptor_type == DescriptorType::CMD {
        return Err(CallRefusal::CmdDescriptor);
    }
    if descriptor.descriptor_type != DescriptorType::PATH {
        return Err(CallRefusal::BadDescriptor);
    }
    match descriptor.path.as_slice() {
        [table] if is_table_name(table.as_bytes()) => Ok(table.as_str()),
        _ => Err(CallRefusal::BadDescriptor),
    }
}

/// The table and the upload's id that a descriptor names by a path of two elements; a command beside the path is
/// passed over.
///
/// The refusals are [`CallRefusal::CmdDescriptor`] for a command, and [`CallRefusal::BadDescriptor`] for any other descriptor that
/// does not name both.
pub fn upload_in(descriptor: &FlightDescriptor) -> Result<(&str, [u8; 16]), CallRefusal>
    ensures named { IfOk result
        (λ names. NamesUpload (descriptor_values descriptor.now) names.0.now names.1) }
    ensures fault { IfErr result (UploadNameFault (descriptor_values descriptor.now)) }
{
    if descriptor.descriptor_type == DescriptorType::CMD {
        return Err(CallRefusal::CmdDescriptor);
    }
    if descriptor.descriptor_type != DescriptorType::PATH {
        return Err(CallRefusal::BadDescriptor);
    }
    let [table, id] = descriptor.path.as_slice() else {
        return Err(CallRefusal::BadDescriptor);
    };
    if !is_table_name(table.as_bytes()) {
        return Err(CallRefusal::BadDescriptor);
    }
    match id_in(id.as_bytes()) {
        Some(id) => Ok((table.as_str(), id)),
        None => Err(CallRefusal::BadDescriptor),
    }
}

/// The descriptor of a table: a path of its name. [`AllocError`] says that memory was refused.
pub fn table_descriptor(alloc: Global, table: &str) -> Result<FlightDescriptor, AllocError>
    ensures { IfOk result (λ descriptor. descriptor_values descriptor ≡ of_table table.now) }
{
    let table = String::from_str(alloc, table)?;
    let mut path = Vec::new(alloc);
    path.push(table)?;
    Ok(FlightDescriptor {
        descriptor_type: DescriptorType::PATH,
        cmd: Vec::new(alloc),
        path,
    })
}

/// The descriptor of an upload: a path of its table's name and of its id in 32 hexadecimal digits, in lower case.
/// [`AllocError`] says that memory was refused.
pub fn upload_descriptor(
    alloc: Global,
    table: &str,
    id: [u8; 16],
) -> Result<FlightDescriptor, AllocError>
    ensures { IfOk result (λ descriptor. descriptor_values descriptor ≡ of_upload table.now id) }
{
    let table = String::from_str(alloc, table)?;
    let id = hex::encode(alloc, id)?;
    let mut path = Vec::new(alloc);
    path.push(table)?;
    path.push(id)?;
    Ok(FlightDescriptor {
        descriptor_type: DescriptorType::PATH,
        cmd: Vec::new(alloc),
        path,
    })
}

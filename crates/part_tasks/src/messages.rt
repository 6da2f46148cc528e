//! Messages of Arrow Flight read, or written, over and over.

use crate::fault::TaskFault;
use crate::shared::{last_byte, weight_of};
use proto_wire::{FlightData, FlightInfo, ProtoMessage};
use std::alloc::Global;

/// Reads a `FlightData` so many times. A repetition weighs what its body does.
pub fn decode_data(alloc: Global, count: u64, bytes: &[u8]) -> Result<u64, TaskFault> {
    let mut sum: u64 = 0;
    for _ in 0..count {
        sum = sum.wrapping_add(data_weight(alloc, bytes)?);
    }
    Ok(sum)
}

fn data_weight(alloc: Global, bytes: &[u8]) -> Result<u64, TaskFault> {
    let message = FlightData::decode(alloc, bytes)?;
    let weight = weight_of(&message.data_body);
    drop(message);
    Ok(weight)
}

/// Reads a `FlightData` once, and writes it so many times, each time in the place of what was written before. A
/// repetition weighs what is written.
pub fn encode_data(
    alloc: Global,
    count: u64,
    bytes: &[u8],
    written: &mut Vec<u8>,
) -> Result<u64, TaskFault> {
    let message = FlightData::decode(alloc, bytes)?;
    let sum = encode_often(count, &message, written);
    drop(message);
    sum
}

/// Reads a `FlightInfo` so many times. A repetition weighs the number of its endpoints and the last byte of its schema.
pub fn decode_info(alloc: Global, count: u64, bytes: &[u8]) -> Result<u64, TaskFault> {
    let mut sum: u64 = 0;
    for _ in 0..count {
        sum = sum.wrapping_add(info_weight(alloc, bytes)?);
    }
    Ok(sum)
}

fn info_weight(alloc: Global, bytes: &[u8]) -> Result<u64, TaskFault> {
    let message = FlightInfo::decode(alloc, bytes)?;
    let endpoints = message.endpoint.len() as u64;
    let weight = endpoints.wrapping_add(last_byte(&message.schema));
    drop(message);
    Ok(weight)
}

/// Reads a `FlightInfo` once, and writes it so many times, each time in the place of what was written before. A
/// repetition weighs what is written.
pub fn encode_info(
    alloc: Global,
    count: u64,
    bytes: &[u8],
    written: &mut Vec<u8>,
) -> Result<u64, TaskFault> {
    let message = FlightInfo::decode(alloc, bytes)?;
    let sum = encode_often(count, &message, written);
    drop(message);
    sum
}

fn encode_often<M: ProtoMessage>(
    count: u64,
    message: &M,
    written: &mut Vec<u8>,
) -> Result<u64, TaskFault> {
    let mut sum: u64 = 0;
    for _ in 0..count {
        written.clear();
        message.encode(written)?;
        sum = sum.wrapping_add(weight_of(written));
    }
    Ok(sum)
}

//! The calls of `proto_fields`, `proto_messages` and `grpc_frames` of which rows cannot tell: readers and writers that
//! fail, long inputs, a message of our own, and bytes that are shared.

mod appended;
mod frame_streams;
mod frames;
mod lent;
mod one_encoding;
mod refused_memory;
mod samples;
mod shared_bytes;
mod texts;

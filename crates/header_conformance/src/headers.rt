//! The calls of `flatbuf_meta`, where only code can test them.

mod faults;
mod refused_memory;

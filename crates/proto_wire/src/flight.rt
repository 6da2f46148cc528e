//! The messages of Arrow Flight (Apache Arrow, "Flight.proto"), each a struct with the fields that it has there.

pub(crate) mod data;
pub(crate) mod descriptor;
pub(crate) mod endpoint;
pub(crate) mod info;

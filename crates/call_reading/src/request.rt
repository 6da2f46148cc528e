//! What a call asks for.

use table_types::Ticket;
use uploads::Upload;

/// What a call asks for, of all that there is to ask (Apache Arrow, "Flight.proto", service `FlightService`).
#[derive(Debug, Drop)]
pub enum FlightRequest {
    /// What is told of the table of this name.
    GetFlightInfo(String),
    /// The schema of the table of this name.
    GetSchema(String),
    /// What is told of each table.
    ListFlights,
    /// The batches of a version of a table.
    DoGet(Ticket),
    /// To take an upload.
    DoPut(Upload),
}

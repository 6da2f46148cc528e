//! The calls of the service, and their paths.

ghost use Rattle.std.specs.Prelude.{◌≡◌, ◌≢◌, ◌↔◌, ◌++◌, ℕ, List, IsTrue, IfOk, IfErr, IfSome, IfNone};
ghost use Rattle.call_protocol.specs.Methods.{service_text, method_name, path_text, PathFault};
ghost use Rattle.call_protocol.specs.declared.method.Method.{Method as Named};

use crate::refusal::CallRefusal;

/// What stands in each path before the name of the method (gRPC over HTTP2, "Requests"; Apache Arrow, "Flight.proto").
pub const SERVICE: &str = "/arrow.flight.protocol.FlightService/";

/// A method of Apache Arrow's `FlightService` that is answered.
#[derive(Clone, Copy, Debug, PartialEq, Eq)]
pub enum Method {
    /// What is told of one table.
    GetFlightInfo,
    /// The schema of one table.
    GetSchema,
    /// What is told of each table.
    ListFlights,
    /// The batches of a version of a table.
    DoGet,
    /// An upload.
    DoPut,
}

/// The name of the method in a path of this service, `None` for other paths.
fn name_in(path: &[u8]) -> Option<&[u8]>
    ensures some { IfSome result (λ name. path.now ≡ service_text ++ name.now) }
    ensures none { IfNone result ((name : List ℕ) → path.now ≢ service_text ++ name) }
{
    path.strip_prefix(SERVICE.as_bytes())
}

impl Method {
    /// Its name in "Flight.proto".
    pub fn name(self) -> &'static str
        ensures { result.now ≡ method_name self }
    {
        match self {
            Method::GetFlightInfo => "GetFlightInfo",
            Method::GetSchema => "GetSchema",
            Method::ListFlights => "ListFlights",
            Method::DoGet => "DoGet",
            Method::DoPut => "DoPut",
        }
    }

    /// Whether this is its name.
    fn is_named(self, name: &[u8]) -> bool
        ensures { IsTrue result ↔ (name.now ≡ method_name self) }
    {
        self.name().as_bytes() == name
    }

    /// The method with this name, `None` where there is none that is answered.
    fn named(name: &[u8]) -> Option<Method>
        ensures some { IfSome result (λ method. name.now ≡ method_name method) }
        ensures none { IfNone result ((method : Named) → name.now ≢ method_name method) }
    {
        if Method::GetFlightInfo.is_named(name) {
            return Some(Method::GetFlightInfo);
        }
        if Method::GetSchema.is_named(name) {
            return Some(Method::GetSchema);
        }
        if Method::ListFlights.is_named(name) {
            return Some(Method::ListFlights);
        }
        if Method::DoGet.is_named(name) {
            return Some(Method::DoGet);
        }
        if Method::DoPut.is_named(name) {
            return Some(Method::DoPut);
        }
        None
    }

    /// The method that a path asks for.
    ///
    /// The refusals are [`CallRefusal::BadPath`] for a path that does not begin as those of this service do, and
    /// [`CallRefusal::NoCall`] for one of this service that names no method of these.
    pub fn of_path(path: &[u8]) -> Result<Method, CallRefusal>
        ensures method { IfOk result (λ method. path.now ≡ path_text method) }
        ensures fault { IfErr result (PathFault path.now) }
    {
        let Some(name) = name_in(path) else {
            return Err(CallRefusal::BadPath);
        };
        match Method::named(name) {
            Some(method) => Ok(method),
            None => Err(CallRefusal::NoCall),
        }
    }
}

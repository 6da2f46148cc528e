//! Addresses of servers.

ghost use Rattle.std.specs.Prelude.{◌≡◌, ◌<◌, ◌≤◌, ◌^◌, ℕ, MatchOption};
ghost use Rattle.std.specs.declared.net.socket_addr.SocketAddrV4.{SocketAddrV4 as Address};
ghost use Rattle.client_connections.specs.Addresses.{IsLocal, NamesNone, NamesServer, WritesAddress, WritesPort, IsLocation, IsNoLocation};

use std::net::{Ipv4Addr, SocketAddrV4};

/// What stands before the port where the host is this machine.
const LOCAL: &str = "localhost:";

/// What stands before the address in a location.
const SCHEME: &str = "plain+tcp://";

/// The address of the server that this text names, `HOST:PORT`: HOST is an IPv4 address in its dotted form, or
/// `localhost`, which is 127.0.0.1, and PORT a decimal number from 1 to 65535.
///
/// It is `None` exactly where the text is none such: it writes no address, or one whose port is 0.
pub fn address_of(text: &str) -> Option<SocketAddrV4>
    ensures { MatchOption result (NamesNone text.now) (NamesServer text.now) }
{
    match written(text) {
        Some(address) if address.port() > 0 => Some(address),
        _ => None,
    }
}

/// The address in the location of a server that this text is (RFC 3986, "URI Generic Syntax"): `plain+tcp://` and an
/// address, as [`address_of`] reads it. It is `None` exactly where the text is none such.
pub fn location_of(text: &str) -> Option<SocketAddrV4>
    ensures { MatchOption result (IsNoLocation text.now) (IsLocation text.now) }
{
    match text.strip_prefix(SCHEME) {
        Some(address) => address_of(address),
        None => None,
    }
}

/// The address that the text writes, whatever its port.
fn written(text: &str) -> Option<SocketAddrV4>
    ensures { MatchOption result ((a : Address) → ¬ WritesAddress text.now a) (WritesAddress text.now) }
{
    match text.parse::<SocketAddrV4>() {
        Ok(address) => Some(address),
        Err(_) => local(text),
    }
}

/// The address at this machine that the text writes.
fn local(text: &str) -> Option<SocketAddrV4>
    ensures { MatchOption result ((a : Address) → ¬ IsLocal text.now a) (IsLocal text.now) }
{
    match text.strip_prefix(LOCAL) {
        Some(digits) => match port_of(digits) {
            Some(port) => Some(SocketAddrV4::new(Ipv4Addr::new(127, 0, 0, 1), port)),
            None => None,
        },
        None => None,
    }
}

/// The port that these digits write, with no sign before them.
fn port_of(digits: &str) -> Option<u16>
    ensures { MatchOption result ((n : ℕ) → ¬ WritesPort digits.now n) (WritesPort digits.now) }
{
    match digits.as_bytes().first() {
        Some(b'+') => None,
        _ => digits.parse::<u16>().ok(),
    }
}

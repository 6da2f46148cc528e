//! Ports for three nodes.

use crate::support::Why;
use flight_service::bind_all;
use std::alloc::Global;
use std::net::{Ipv4Addr, Net, SocketAddr, TcpListener, TcpStream};

/// How many first ports are tried, [`PORT`] the first.
const TRIES: u16 = 100;

const PORT: u16 = 43_210;

/// The address of this port.
pub(crate) fn address_of(port: u16) -> SocketAddr {
    SocketAddr::from((Ipv4Addr::LOCALHOST, port))
}

/// Three ports, one behind the other, that can be had, and the first of them.
pub(crate) fn three_ports<R: Net<Listener = TcpListener, Stream = TcpStream>>(
    rt: &R,
    alloc: Global,
) -> Result<(u16, Vec<TcpListener>), Why> {
    for turn in 0..TRIES {
        let first = PORT + 3 * turn;
        if let Ok(listeners) = bind_all(rt, alloc, first, 3) {
            return Ok((first, listeners));
        }
    }
    Err("no ports")
}

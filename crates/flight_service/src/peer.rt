//! The peer of a connection.

use cluster_backend::Caller;
use std::io::ErrorKind;
use std::net::TcpStream;
use std::time::Duration;

/// The peer at the other end of a connection, and how long it is waited for what becomes of an upload, if not for ever.
///
/// It leaves by closing its end. A peer that only ends what it sends (`shutdown` of its side) cannot be told from one that has closed.
#[derive(Drop)]
pub(crate) struct Peer<'a> {
    stream: &'a TcpStream,
    longest: Option<Duration>,
}

impl<'a> Peer<'a> {
    /// The peer of this stream.
    pub(crate) fn new(stream: &'a TcpStream, longest: Option<Duration>) -> Peer<'a> {
        Peer { stream, longest }
    }
}

impl<'a> Caller for Peer<'a> {
    ghost may_leave = { Unit {0} };

    fn leaves(&self, waited: u64) -> bool {
        let is_over = match self.longest {
            Some(longest) => Duration::from_millis(waited) >= longest,
            None => false,
        };
        is_over || has_closed(self.stream)
    }
}

// Whether the peer has closed its end, or the connection is broken: a look that waits for no byte and takes none.
fn has_closed(stream: &TcpStream) -> bool {
    if stream.set_nonblocking(true).is_err() {
        return false;
    }
    let mut byte = [0u8; 1];
    let looked = stream.peek(&mut byte);
    // A stream that stays non-blocking can't be read or written in the way of this service.
    let is_as_before = stream.set_nonblocking(false).is_ok();
    match looked {
        Ok(count) => count == 0 || !is_as_before,
        Err(error) => match error.kind() {
            ErrorKind::WouldBlock | ErrorKind::Interrupted => !is_as_before,
            _ => true,
        },
    }
}

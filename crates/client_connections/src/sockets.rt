//! Connections over TCP.

ghost use Rattle.std.specs.Prelude.{◌≡◌};

use crate::connect::Connect;
use crate::fault::ConnectFault;
use crate::metered::Metered;
use std::alloc::Global;
use std::io::{BufReader, BufWriter, Eprint, Read, Write};
use std::net::{Net, SocketAddr, SocketAddrV4, TcpStream};
use std::time::{Clock, Duration};

/// How long is waited for a server to take a connection, in seconds.
pub const CONNECT_SECONDS: u64 = 10;

/// How long a server may let no byte pass while one is waited for, in seconds. A put is answered once it is decided,
/// however long that takes, so this is longer than a server waits for its clients.
pub const READ_SECONDS: u64 = 600;

/// How long a server may take no byte while one is written, in seconds.
pub const WRITE_SECONDS: u64 = 60;

/// Connections over TCP (RFC 9293). They tell no log, since no contract says what a socket gives or takes.
#[derive(Drop)]
pub struct Sockets<'a, R> {
    rt: &'a R,
    /// Whether a call that takes longer than a second says on standard error how far it has come.
    pub shows_progress: bool,
}

/// A connection's stream, with what is counted of it.
type Stream<'a, R> = Metered<'a, R, TcpStream>;

impl<'a, R> Sockets<'a, R> {
    /// Connections that are opened through this runtime. Where progress is to be shown, a call that takes longer than a second
    /// says on standard error how many MiB it has sent and received, at most once a second.
    pub fn new(rt: &'a R, shows_progress: bool) -> Sockets<'a, R>
        ensures { result.shows_progress ≡ shows_progress }
    {
        Sockets { rt, shows_progress }
    }
}

impl<'a, R: Net<Stream = TcpStream> + Clock + Eprint> Connect for Sockets<'a, R> {
    ghost use Rattle.std.specs.Prelude.{None};

    type Input = BufReader<Stream<'a, R>>;

    type Output = BufWriter<Stream<'a, R>>;

    ghost log = { λ _. None };

    fn open(
        &mut self,
        alloc: Global,
        address: SocketAddrV4,
    ) -> Result<(BufReader<Stream<'a, R>>, BufWriter<Stream<'a, R>>), ConnectFault> {
        let within = Duration::from_secs(CONNECT_SECONDS);
        let Ok(stream) = TcpStream::connect_timeout(self.rt, &SocketAddr::V4(address), within)
        else {
            return Err(ConnectFault::Connect);
        };
        // A stream without these options is used all the same.
        let _ = stream.set_read_timeout(Some(Duration::from_secs(READ_SECONDS)));
        let _ = stream.set_write_timeout(Some(Duration::from_secs(WRITE_SECONDS)));
        let _ = stream.set_nodelay(true);
        let Ok(other) = stream.try_clone() else {
            return Err(ConnectFault::Connect);
        };
        let input = Metered::new(self.rt, stream, "received", self.shows_progress);
        let output = Metered::new(self.rt, other, "sent", self.shows_progress);
        buffered(alloc, input, output)
    }

    fn close(&mut self, input: BufReader<Stream<'a, R>>, output: BufWriter<Stream<'a, R>>) {
        drop(output);
        drop(input);
    }
}

// The two sides of a connection, each with a buffer.
fn buffered<I: Read + Drop, O: Write + Drop>(
    alloc: Global,
    input: I,
    output: O,
) -> Result<(BufReader<I>, BufWriter<O>), ConnectFault> {
    let (Ok(input), Ok(output)) = (BufReader::new(alloc, input), BufWriter::new(alloc, output))
    else {
        return Err(ConnectFault::OutOfMemory);
    };
    Ok((input, output))
}

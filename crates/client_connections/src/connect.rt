//! Who opens connections.

ghost use Rattle.std.specs.Prelude.{ℕ, List, [], ◌∷◌, Option, IfOk, OnErr};
ghost use Rattle.client_connections.specs.Events.{ConnectionEvent, opened, refused, closed, Logs};

use crate::fault::ConnectFault;
use std::alloc::Global;
use std::io::{Read, Write};
use std::net::SocketAddrV4;

/// Who opens connections to servers, and closes them.
pub trait Connect {
    /// The side of a connection that is read.
    type Input: Read + Drop;

    /// The side of a connection that is written.
    type Output: Write + Drop;

    /// What was opened and closed, in that order; `None` of connections that do not tell it, as those over real
    /// sockets.
    ghost log: { Self → Option (List ConnectionEvent) };

    /// Opens a connection to the server at this address.
    ///
    /// - [`ConnectFault::Connect`]: the server could not be reached.
    /// - [`ConnectFault::OutOfMemory`]: memory was refused.
    fn open(
        &mut self,
        alloc: Global,
        address: SocketAddrV4,
    ) -> Result<(Self::Input, Self::Output), ConnectFault>
        ensures opened { IfOk result (λ ends. Logs (log self.old)
            (opened address (Self.Input.remaining ends.0) (Self.Output.contents ends.1) ∷ []) (log self.new)) }
        ensures refused { OnErr result (Logs (log self.old) (refused address ∷ []) (log self.new)) };

    /// Closes a connection.
    fn close(&mut self, input: Self::Input, output: Self::Output)
        ensures { Logs (log self.old)
            (closed (Self.Input.remaining input) (Self.Output.contents output) ∷ []) (log self.new) };
}

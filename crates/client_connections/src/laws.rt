//! Laws of the definitions that addresses and connections are proved against.

ghost use Rattle.std.specs.Prelude.{◌≡◌, ◌++◌, List, ℕ, Option, Some, codes};
ghost use Rattle.std.specs.declared.net.socket_addr.SocketAddrV4.{SocketAddrV4 as Address};
ghost use Rattle.std.specs.Net.Grammar.{IsSocketV4Text};
ghost use Rattle.client_connections.specs.Addresses.{IsLocal};
ghost use Rattle.client_connections.specs.Events.{ConnectionEvent, Logs};

/// With `localhost` for the host a text writes the address that it writes with 127.0.0.1.
pub fn localhost_is_127_0_0_1()
    ensures { (digits : List ℕ) (address : Address) → IsLocal (codes "localhost:" ++ digits) address
        → IsSocketV4Text (codes "127.0.0.1:" ++ digits) address }
{}

/// A log that is known has behind what it had what was opened and closed, and nothing else.
pub fn logs_are_one()
    ensures { (old events : List ConnectionEvent) (new : Option (List ConnectionEvent)) → Logs (Some old) events new
        → new ≡ Some (old ++ events) }
{}

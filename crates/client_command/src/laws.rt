//! Laws of the definitions that a client's words are proved against.

ghost use Rattle.std.specs.Prelude.{◌≤◌};
ghost use Rattle.client_command.specs.declared.fault.CommandFault.{CommandFault as Fault};
ghost use Rattle.client_command.specs.Faults.{status_of_fault};

/// No fault has the exit status 0, whatever status a service tells.
pub fn no_fault_is_success()
    ensures { (fault : Fault) → 1 ≤ status_of_fault fault }
{}

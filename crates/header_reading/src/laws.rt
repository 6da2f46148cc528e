//! Laws of the faults that the reader of headers tells.

ghost use Rattle.std.specs.Prelude.{ℕ, List};
ghost use Rattle.header_types.specs.declared.fault.MetaFault.{MetaFault};
ghost use Rattle.header_types.specs.Header.{Header, ShowsHeader};
ghost use Rattle.header_reading.specs.Faults.{HeaderFault};

/// Where a fault stands, no header is shown.
pub fn faults_stand_apart()
    ensures { (text : List ℕ) (e : MetaFault) (x : Header) → HeaderFault text e → ¬ ShowsHeader text x }
{}

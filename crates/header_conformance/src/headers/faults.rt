//! The name of the one fault that no bytes show.

use flatbuf_meta::MetaFault;
use std::test::Fail;

#[test]
fn prints_refused_memory_as_its_name(rt: HostRuntime) -> Result<(), Fail> {
    let fault = MetaFault::OutOfMemory;
    let printed = format!(in rt.alloc(); "{fault}")?;
    assert!(rt; printed.as_str() == "OutOfMemory");
    Ok(())
}

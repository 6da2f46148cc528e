//! For how many slots a configuration can be made.

use crate::support::members;
use agreement::AgreementConfig;
use std::test::Fail;

// How many members and slots the configuration has that is made for three members and so many slots.
fn made(slot_limit: u32) -> Result<Option<(u8, u32)>, Fail> {
    let config = AgreementConfig::new(members(3)?, slot_limit);
    Ok(config.map(|config| (config.members().count(), config.slot_limit())))
}

#[test]
fn a_config_is_for_one_slot_to_a_million(rt: HostRuntime) -> Result<(), Fail> {
    assert!(rt; made(0)?.is_none() && made(1_000_001)?.is_none());
    assert!(rt; made(1)? == Some((3, 1)) && made(1_000_000)? == Some((3, 1_000_000)));
    Ok(())
}

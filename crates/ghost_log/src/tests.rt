ghost use Rattle.std.specs.Prelude.{◌≡◌};

use super::*;
use std::marker::Brand;
use std::process::Abort;
use std::test::*;

#[test]
fn entries_are_counted(rt: HostRuntime) -> Result<(), Fail> {
    counts::<Brand, _>(&rt, Opened::new())
}

// Entries are added one behind the other; who knows of fewer than there are adds none.
fn counts<J: Naming, R: Abort>(rt: &R, log: Opened<u64>) -> Result<(), Fail>
    requires { log ≡ J.book }
{
    let (head, none) = log.named::<J>();
    assert_eq!(rt; none.len(), 0);
    let one = head.append(&none, &7).ok().ok_or("no first entry")?;
    assert!(rt; further(&head, &none)? == 1);
    let two = head.append(&one.again(), &8).ok().ok_or("no second entry")?;
    assert!(rt; further(&head, &one)? == 2);
    assert!(rt; further(&head, &none)? == 2);
    one.beside(&two);
    assert_eq!(rt; one.len(), 1);
    assert_eq!(rt; two.len(), 2);
    assert_eq!(rt; two.again().len(), 2);
    assert!(rt; head.append(&two, &8).is_ok());
    Ok(())
}

// How far the log has come, which adds no entry behind these.
fn further<J: Naming>(head: &Head<u64, J>, reached: &Reached<u64, J>) -> Result<u64, Fail> {
    match head.append(reached, &8) {
        Ok(_) => Err(Fail::from("it adds an entry in the midst")),
        Err(now) => Ok(now.len()),
    }
}

#[test]
fn a_long_log(rt: HostRuntime) -> Result<(), Fail> {
    grows::<Brand, _>(&rt, Opened::new())
}

// Thousands of entries.
fn grows<J: Naming, R: Abort>(rt: &R, log: Opened<u64>) -> Result<(), Fail>
    requires { log ≡ J.book }
{
    let (head, mut reached) = log.named::<J>();
    for number in 0..10_000 {
        reached = head.append(&reached, &number).ok().ok_or("no entry")?;
    }
    assert_eq!(rt; reached.len(), 10_000);
    Ok(())
}

use calendar::clock::later_by;
use calendar::week::Week;
use stations::cores::Core;
use stations::layers::Over;
use stations::loading::{LoadFault, Station};
use stations::machines::Machine;
use stations::moves::Way;
use stations::ovens::Oven;
use stations::piles::piled;
use std::test::*;

#[test]
fn machine_of_two_places(rt: HostRuntime) -> Result<(), Fail> {
    let mut machine = Machine::new(2, 10)?;
    assert_eq!(rt; machine.load(0)?, 10);
    assert_eq!(rt; machine.load(0)?, 10);
    assert_eq!(rt; machine.load(0)?, 20);
    assert_eq!(rt; machine.load(100)?, 110);
    Ok(())
}

#[test]
fn machine_at_the_end_of_the_clock(rt: HostRuntime) -> Result<(), Fail> {
    let mut machine = Machine::new(1, 10)?;
    assert_eq!(rt; machine.load(999_989)?, 999_999);
    machine.fresh();
    assert_eq!(rt; machine.load(999_990)?, 1_000_000);
    assert_eq!(rt; machine.load(1_000_000)?, 1_000_000);
    assert_eq!(rt; machine.load(1_000_001), Err(LoadFault::PastEnd));
    assert_eq!(rt; machine.load(u32::MAX), Err(LoadFault::PastEnd));
    assert_eq!(rt; machine.load(999_999), Err(LoadFault::OutOfOrder));
    Ok(())
}

#[test]
fn oven_by_its_cycle(rt: HostRuntime) -> Result<(), Fail> {
    let mut oven = Oven::new(30, 2, 25)?;
    assert_eq!(rt; oven.load(0)?, 25);
    assert_eq!(rt; oven.load(0)?, 25);
    assert_eq!(rt; oven.load(0)?, 55);
    oven.fresh();
    assert_eq!(rt; oven.load(1)?, 55);
    oven.fresh();
    assert_eq!(rt; oven.load(30)?, 55);
    Ok(())
}

#[test]
fn a_refusal_changes_nothing(rt: HostRuntime) -> Result<(), Fail> {
    let mut core = Core::machine(1, 10)?;
    assert_eq!(rt; core.load(50)?, 60);
    assert_eq!(rt; core.load(49), Err(LoadFault::OutOfOrder));
    assert_eq!(rt; core.load(1_000_001), Err(LoadFault::PastEnd));
    assert_eq!(rt; core.load(50)?, 70);
    Ok(())
}

#[test]
fn early_week(rt: HostRuntime) -> Result<(), Fail> {
    let early = Week::early();
    assert_eq!(rt; early.open_minutes(), 2400);
    assert_eq!(rt; early.open_before(360), 0);
    assert_eq!(rt; early.open_before(361), 1);
    assert_eq!(rt; early.time_by(480), 840);
    assert_eq!(rt; early.time_by(481), 1801);
    assert_eq!(rt; early.time_by(2401), 10_441);
    assert_eq!(rt; early.time_by(u32::MAX), 1_000_000);
    Ok(())
}

#[test]
fn week_that_is_always_open(rt: HostRuntime) -> Result<(), Fail> {
    let all = Week::all();
    assert_eq!(rt; all.open_before(u32::MAX), u32::MAX);
    assert_eq!(rt; all.time_by(999_999), 999_999);
    assert_eq!(rt; all.time_by(1_000_001), 1_000_000);
    assert_eq!(rt; later_by(u32::MAX, 1), 1_000_000);
    Ok(())
}

#[test]
fn layers_in_their_order(rt: HostRuntime) -> Result<(), Fail> {
    let mut pile = piled(Core::oven(30, 2, 25)?, Week::early(), Way::new(5)?);
    assert_eq!(rt; pile.load(355)?, 385);
    assert_eq!(rt; pile.load(354), Err(LoadFault::OutOfOrder));
    assert_eq!(rt; pile.load(1_000_001), Err(LoadFault::PastEnd));
    assert_eq!(rt; pile.load(900)?, 1825);
    pile.fresh();
    assert_eq!(rt; pile.load(0)?, 385);
    Ok(())
}

#[test]
fn a_layer_freshens_what_is_below(rt: HostRuntime) -> Result<(), Fail> {
    let mut machine = Machine::new(1, 10)?;
    assert_eq!(rt; machine.load(500)?, 510);
    let mut moved = Over::new(Way::new(5)?, machine);
    assert_eq!(rt; moved.load(3)?, 18);
    Ok(())
}

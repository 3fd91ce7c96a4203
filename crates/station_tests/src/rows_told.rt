use rows::banks::Bank;
use rows::joins::Joined;
use rows::loading::{Row, RowFault};
use rows::singles::Single;
use stations::loading::{LoadFault, Station};
use stations::machines::Machine;
use stations::numbers::StageNo;
use stations::ovens::Oven;
use std::test::*;

#[test]
fn two_stations_joined(rt: HostRuntime) -> Result<(), Fail> {
    let mut row = Joined::new(
        Single::new(Machine::new(1, 10)?),
        Single::new(Oven::new(30, 1, 25)?),
    );
    assert_eq!(rt; row.len(), 2);
    assert_eq!(rt;
        row.load(StageNo(0), 5),
        Err(RowFault::NoStation(StageNo(0)))
    );
    assert_eq!(rt;
        row.load(StageNo(3), 2_000_000),
        Err(RowFault::NoStation(StageNo(3)))
    );
    assert_eq!(rt; row.load(StageNo(1), 5), Ok(15));
    assert_eq!(rt; row.load(StageNo(2), 15), Ok(55));
    assert_eq!(rt;
        row.load(StageNo(1), 4),
        Err(RowFault::Refused(StageNo(1), LoadFault::OutOfOrder))
    );
    assert_eq!(rt;
        row.load(StageNo(2), 1_000_001),
        Err(RowFault::Refused(StageNo(2), LoadFault::PastEnd))
    );
    row.fresh();
    assert_eq!(rt; row.load(StageNo(2), 0), Ok(25));
    Ok(())
}

// A row of that many machines of one place and one minute.
fn machines(rt: &HostRuntime, count: u32) -> Result<Bank<Machine>, Fail> {
    let mut stations = Vec::new(rt.alloc());
    for _ in 0..count {
        stations.push(Machine::new(1, 1)?)?;
    }
    Ok(Bank::new(stations))
}

#[test]
fn no_station_past_number_64(rt: HostRuntime) -> Result<(), Fail> {
    let mut bank = machines(&rt, 65)?;
    assert_eq!(rt; bank.len(), 64);
    assert_eq!(rt; bank.load(StageNo(64), 7), Ok(8));
    assert_eq!(rt;
        bank.load(StageNo(65), 7),
        Err(RowFault::NoStation(StageNo(65)))
    );
    let mut row = Joined::new(machines(&rt, 40)?, machines(&rt, 40)?);
    assert_eq!(rt; row.len(), 64);
    assert_eq!(rt; row.load(StageNo(41), 7), Ok(8));
    assert_eq!(rt; row.load(StageNo(64), 7), Ok(8));
    assert_eq!(rt;
        row.load(StageNo(65), 7),
        Err(RowFault::NoStation(StageNo(65)))
    );
    assert_eq!(rt;
        row.load(StageNo(u32::MAX), 7),
        Err(RowFault::NoStation(StageNo(u32::MAX)))
    );
    assert_eq!(rt;
        row.load(StageNo(41), 6),
        Err(RowFault::Refused(StageNo(41), LoadFault::OutOfOrder))
    );
    Ok(())
}

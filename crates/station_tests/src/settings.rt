use calendar::house::{HouseWeek, UnknownWeek};
use calendar::settings::{Piece, SettingFault};
use calendar::shifts::Shift;
use calendar::week::Week;
use stations::loading::LoadFault;
use stations::machines::Machine;
use stations::moves::Way;
use stations::ovens::Oven;
use std::test::*;

fn off_range(piece: Piece, position: u32, value: u32) -> Option<SettingFault> {
    Some(SettingFault::OffRange {
        piece,
        position,
        value,
    })
}

fn shift_order(position: u32, begin: u32) -> Option<SettingFault> {
    Some(SettingFault::ShiftOrder { position, begin })
}

#[test]
fn machines(rt: HostRuntime) -> Result<(), Fail> {
    assert_eq!(rt; Machine::new(0, 0).err(), off_range(Piece::Machine, 1, 0));
    assert_eq!(rt; Machine::new(9, 10).err(), off_range(Piece::Machine, 1, 9));
    assert_eq!(rt;
        Machine::new(8, 1441).err(),
        off_range(Piece::Machine, 2, 1441)
    );
    assert_eq!(rt; Machine::new(8, 1440).err(), None);
    Ok(())
}

#[test]
fn ovens(rt: HostRuntime) -> Result<(), Fail> {
    assert_eq!(rt;
        Oven::new(1441, 0, 0).err(),
        off_range(Piece::Oven, 1, 1441)
    );
    assert_eq!(rt; Oven::new(30, 17, 0).err(), off_range(Piece::Oven, 2, 17));
    assert_eq!(rt; Oven::new(30, 16, 31).err(), off_range(Piece::Oven, 3, 31));
    assert_eq!(rt; Oven::new(30, 16, 30).err(), None);
    Ok(())
}

#[test]
fn ways(rt: HostRuntime) -> Result<(), Fail> {
    assert_eq!(rt; Way::new(1441).err(), off_range(Piece::Move, 1, 1441));
    assert_eq!(rt; Way::new(0).err(), None);
    Ok(())
}

fn shift(begin: u32, end: u32) -> Shift {
    Shift { begin, end }
}

#[test]
fn weeks(rt: HostRuntime) -> Result<(), Fail> {
    assert_eq!(rt; Week::new(&[]).err(), off_range(Piece::Week, 1, 0));
    assert_eq!(rt;
        Week::new(&[shift(0, 1); 17]).err(),
        off_range(Piece::Week, 17, 17)
    );
    assert_eq!(rt;
        Week::new(&[shift(5, 3), shift(0, 10_081)]).err(),
        off_range(Piece::Week, 2, 10_081)
    );
    assert_eq!(rt; Week::new(&[shift(3, 3)]).err(), shift_order(1, 3));
    assert_eq!(rt;
        Week::new(&[shift(1, 3), shift(3, 5)]).err(),
        shift_order(2, 3)
    );
    assert_eq!(rt; Week::new(&[shift(1, 3), shift(4, 10_080)]).err(), None);
    Ok(())
}

#[test]
fn house_weeks(rt: HostRuntime) -> Result<(), Fail> {
    assert_eq!(rt; HouseWeek::try_from(b"all".as_slice()), Ok(HouseWeek::All));
    assert_eq!(rt;
        HouseWeek::try_from(b"early".as_slice()),
        Ok(HouseWeek::Early)
    );
    assert_eq!(rt; HouseWeek::try_from(b"earl".as_slice()), Err(UnknownWeek));
    assert_eq!(rt; HouseWeek::try_from(b"late".as_slice()), Err(UnknownWeek));
    Ok(())
}

#[test]
fn faults_in_words(rt: HostRuntime) -> Result<(), Fail> {
    let oven = SettingFault::OffRange {
        piece: Piece::Oven,
        position: 3,
        value: 31,
    };
    let told = format!(in rt.alloc(); "{oven}")?;
    assert_eq!(rt; told.as_str(), "setting 3 of the oven is 31, off its range");
    let shift = SettingFault::ShiftOrder {
        position: 2,
        begin: 3,
    };
    let told = format!(in rt.alloc(); "{shift}")?;
    assert_eq!(rt; told.as_str(), "setting 2 of the week is 3, out of order");
    let load = LoadFault::OutOfOrder;
    let told = format!(in rt.alloc(); "{load}")?;
    assert_eq!(rt; told.as_str(), "before the last arrival");
    Ok(())
}

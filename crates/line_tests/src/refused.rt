use crate::shops::{bank, called, carded, machines};
use controls::extended::Extended;
use controls::kanban::Kanban;
use ledger::board::PlaceNo;
use lines::faults::LineFault;
use lines::line::Line;
use std::alloc::AllocGlobal;
use std::process::Abort;
use std::test::*;

// A line of so many machines is not made with so many stages.
fn not_made(rt: &(impl Abort + AllocGlobal), stations: u32, stages: u32) -> Result<(), Fail> {
    assert_eq!(rt;
        Line::new(bank(rt, stations)?, Kanban, stages).err(),
        Some(LineFault::Stages)
    );
    Ok(())
}

#[test]
fn stages_off_their_range(rt: HostRuntime) -> Result<(), Fail> {
    not_made(&rt, 1, 0)?;
    not_made(&rt, 1, 2)?;
    not_made(&rt, 1, u32::MAX)?;
    not_made(&rt, 9, 9)?;
    let _line = machines(&rt, Kanban, 8)?;
    Ok(())
}

// Refusals are tried from the smallest number, and leave the sheet as it was.
#[test]
fn a_refused_run(rt: HostRuntime) -> Result<(), Fail> {
    let mut line = machines(&rt, Extended, 2)?;
    let book = called(&rt, &[0])?;
    let mut short = [7; 6];
    assert_eq!(rt;
        line.run(&book, &carded(&rt, &[0, 0])?, &mut short),
        Err(LineFault::Places)
    );
    assert_eq!(rt;
        line.run(&book, &carded(&rt, &[1, 0, 1, 0])?, &mut short),
        Err(LineFault::Unlawful)
    );
    assert_eq!(rt;
        line.run(&book, &carded(&rt, &[1, 0, 1, 1])?, &mut short),
        Err(LineFault::ShortSheet)
    );
    assert!(rt; short == [7; 6]);
    let mut sheet = [7; 7];
    assert_eq!(rt;
        line.run(&book, &carded(&rt, &[1, 0, 1, 1])?, &mut sheet),
        Ok((0, None))
    );
    Ok(())
}

// A kanban count of 0 can be set, and is refused by the run.
#[test]
fn no_cards_at_a_stage(rt: HostRuntime) -> Result<(), Fail> {
    let mut line = machines(&rt, Kanban, 1)?;
    let book = called(&rt, &[0])?;
    let mut board = carded(&rt, &[1])?;
    let mut sheet = [7; 4];
    assert_eq!(rt; board.set(PlaceNo(1), 0), Ok(()));
    assert_eq!(rt;
        line.run(&book, &board, &mut sheet),
        Err(LineFault::Unlawful)
    );
    assert!(rt; sheet == [7; 4]);
    assert_eq!(rt; board.set(PlaceNo(1), 1), Ok(()));
    assert_eq!(rt; line.run(&book, &board, &mut sheet), Ok((0, None)));
    Ok(())
}

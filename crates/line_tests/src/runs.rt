use crate::shops::{called, carded, machines};
use controls::base::Base;
use controls::control::Control;
use controls::extended::Extended;
use controls::general::General;
use controls::kanban::Kanban;
use ledger::book::Book;
use ledger::faults::BookFault;
use rows::loading::Row;
use stations::numbers::PartNo;
use std::alloc::AllocGlobal;
use std::process::Abort;
use std::test::*;

// The deliveries of one stage are the last row of the sheet.
fn delivers<C: Control + Drop>(
    rt: &(impl Abort + AllocGlobal),
    control: C,
    counts: &[u32],
    calls: &[u32],
    sheet: &[u32],
) -> Result<(), Fail> {
    let mut line = machines(rt, control, 1)?;
    let book = called(rt, calls)?;
    let board = carded(rt, counts)?;
    let mut written = vec![in rt.alloc(); 7; sheet.len()]?;
    assert_eq!(rt; line.run(&book, &board, &mut written), Ok((0, None)));
    assert!(rt; written.as_slice() == sheet);
    Ok(())
}

#[test]
fn one_stage_by_hand(rt: HostRuntime) -> Result<(), Fail> {
    delivers(&rt, Base, &[0], &[5], &[5, 5, 15, 15])?;
    delivers(&rt, Base, &[1], &[5], &[5, 5, 15, 5])?;
    delivers(
        &rt,
        General,
        &[1, 1],
        &[0, 0],
        &[0, 10, 0, 10, 10, 20, 0, 10],
    )?;
    delivers(
        &rt,
        Extended,
        &[0, 1],
        &[0, 0],
        &[0, 0, 0, 10, 10, 20, 10, 20],
    )
}

// With no spare cards a release waits on the next stage, and the sheet past the rows is not touched.
#[test]
fn two_stages_without_spare_cards(rt: HostRuntime) -> Result<(), Fail> {
    let mut line = machines(&rt, Extended, 2)?;
    let book = called(&rt, &[0, 0])?;
    let board = carded(&rt, &[1, 1, 0, 0])?;
    let mut sheet = [7; 16];
    assert_eq!(rt; line.run(&book, &board, &mut sheet), Ok((0, None)));
    assert!(rt; sheet == [0, 0, 0, 0, 0, 10, 0, 10, 10, 20, 10, 20, 0, 10, 7, 7]);
    assert_eq!(rt; line.run(&book, &board, &mut sheet), Ok((0, None)));
    assert!(rt; sheet == [0, 0, 0, 0, 0, 10, 0, 10, 10, 20, 10, 20, 0, 10, 7, 7]);
    Ok(())
}

#[test]
fn an_empty_book(rt: HostRuntime) -> Result<(), Fail> {
    let mut line = machines(&rt, Kanban, 1)?;
    let book = called(&rt, &[])?;
    let board = carded(&rt, &[1])?;
    let mut sheet = [];
    assert_eq!(rt; line.run(&book, &board, &mut sheet), Ok((0, None)));
    Ok(())
}

// Parts at the last minutes of the clock: what works out later is at its end, and so misses every due minute.
#[test]
fn the_last_minutes(rt: HostRuntime) -> Result<(), Fail> {
    let mut line = machines(&rt, Base, 1)?;
    let mut book = Book::new(rt.alloc())?;
    assert_eq!(rt; book.book(999_990, 1_000_000), Err(BookFault::Due));
    assert_eq!(rt; book.book(999_980, 999_990), Ok(()));
    assert_eq!(rt; book.book(999_981, 999_999), Ok(()));
    assert_eq!(rt; book.book(999_999, 999_999), Ok(()));
    let board = carded(&rt, &[0])?;
    let mut sheet = [0; 12];
    assert_eq!(rt;
        line.run(&book, &board, &mut sheet),
        Ok((2, Some(PartNo(2))))
    );
    assert!(rt; sheet[9..] == [999_990, 1_000_000, 1_000_000]);
    Ok(())
}

// A card more, and no part is delivered later.
#[test]
fn one_card_more(rt: HostRuntime) -> Result<(), Fail> {
    let mut line = machines(&rt, Kanban, 1)?;
    let book = called(&rt, &[0, 1, 2])?;
    let mut sheet = [0; 12];
    assert_eq!(rt;
        line.run(&book, &carded(&rt, &[1])?, &mut sheet),
        Ok((0, None))
    );
    assert!(rt; sheet[9..] == [0, 10, 20]);
    assert_eq!(rt;
        line.run(&book, &carded(&rt, &[2])?, &mut sheet),
        Ok((0, None))
    );
    assert!(rt; sheet[9..] == [0, 1, 10]);
    Ok(())
}

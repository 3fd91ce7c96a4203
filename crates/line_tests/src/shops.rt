use controls::control::Control;
use ledger::board::Board;
use ledger::book::Book;
use lines::line::Line;
use rows::banks::Bank;
use stations::machines::Machine;
use std::alloc::AllocGlobal;
use std::test::*;

// A row of so many machines of one place and 10 minutes.
pub(crate) fn bank(rt: &impl AllocGlobal, count: u32) -> Result<Bank<Machine>, Fail> {
    let mut stations = Vec::new(rt.alloc());
    for _ in 0..count {
        stations.push(Machine::new(1, 10)?)?;
    }
    Ok(Bank::new(stations))
}

// A line of such a row.
pub(crate) fn machines<C: Control + Drop>(
    rt: &impl AllocGlobal,
    control: C,
    stages: u32,
) -> Result<Line<Bank<Machine>, C>, Fail> {
    Ok(Line::new(bank(rt, stages)?, control, stages)?)
}

// A book of parts that are called at these minutes, and due whenever.
pub(crate) fn called(rt: &impl AllocGlobal, calls: &[u32]) -> Result<Book, Fail> {
    let mut book = Book::new(rt.alloc())?;
    for call in calls {
        book.book(*call, 999_999)?;
    }
    Ok(book)
}

// A board that stands at these counts.
pub(crate) fn carded(rt: &impl AllocGlobal, counts: &[u32]) -> Result<Board, Fail> {
    Ok(Board::new(rt.alloc(), counts)?)
}

// Runs a line of the sample stations under a chosen control, and tells each step and the times of every part.
#![tactic(auto)]

mod sample;
mod stops;
mod tables;

use controls::base::Base;
use controls::control::Control;
use controls::extended::Extended;
use controls::general::General;
use controls::kanban::Kanban;
use inquiries::names::ControlName;
use inquiries::reading::{Inquiry, read_inquiry};
use ledger::board::Board;
use ledger::book::Book;
use ledger::bookings::Booking;
use lines::line::Line;
use rows::loading::Row;
use sample::{BOOKINGS, sample_row, tell_row};
use stations::numbers::PartNo;
use std::io;
use std::io::Read;
use std::process::ExitCode;
use stops::Stop;
use tables::tell_sheet;

// More than any inquiry has.
const MOST_READ: u64 = 1_024;

// Books the sample parts, and tells each.
fn book_parts(rt: &HostRuntime, book: &mut Book) -> io::Result<()> {
    for Booking { call, due } in BOOKINGS {
        match book.book(call, due) {
            Ok(()) => println!(rt; "booked: call {call}, due {due}")?,
            Err(fault) => {
                let number = fault.number();
                println!(rt; "not booked: call {call}, due {due}: refused {number}")?;
            }
        }
    }
    Ok(())
}

// Tells the answer of a run.
fn tell_answer(
    rt: &HostRuntime,
    parts: usize,
    missed: u32,
    first: Option<PartNo>,
) -> io::Result<()> {
    match first {
        None => println!(rt; "run: {parts} parts, none missed"),
        Some(PartNo(part)) => {
            println!(rt; "run: {parts} parts, {missed} missed, the first is part {part}")
        }
    }
}

// Tells the counts of a board.
fn tell_board(rt: &HostRuntime, board: &Board) -> io::Result<()> {
    print!(rt; "board:")?;
    for count in board.counts() {
        print!(rt; " {count}")?;
    }
    println!(rt; "")
}

// Makes the line, its book and its board, books the sample parts, runs them and tells their times.
fn run_sample<C: Control + Drop>(
    rt: &HostRuntime,
    control: C,
    inquiry: &Inquiry,
) -> Result<(), Stop> {
    let stages = inquiry.stages;
    let name = inquiry.control;
    let row = sample_row()?;
    tell_row(rt)?;
    let mut line = Line::new(row, control, stages).map_err(Stop::Line)?;
    println!(rt; "line: {stages} stages under {name}")?;
    let board = Board::new(rt.alloc(), inquiry.counts.as_slice())?;
    tell_board(rt, &board)?;
    let mut book = Book::new(rt.alloc())?;
    book_parts(rt, &mut book)?;
    let mut sheet = vec![in rt.alloc(); 0; 25 * 128]?;
    let (missed, first) = line.run(&book, &board, &mut sheet).map_err(Stop::Run)?;
    tell_answer(rt, book.parts().len(), missed, first)?;
    tell_sheet(rt, stages, book.parts(), &sheet)?;
    Ok(())
}

// Reads the inquiry, and runs the sample under its control.
fn answer(rt: &HostRuntime) -> Result<(), Stop> {
    let mut text = Vec::new(rt.alloc());
    rt.stdin().take(MOST_READ).read_to_end(&mut text)?;
    let inquiry = read_inquiry(text.as_slice())?;
    // A match by name: each control is a type of its own, and a `dyn Control` cannot have the constant.
    match inquiry.control {
        ControlName::Base => run_sample(rt, Base, &inquiry),
        ControlName::Kanban => run_sample(rt, Kanban, &inquiry),
        ControlName::General => run_sample(rt, General, &inquiry),
        ControlName::Extended => run_sample(rt, Extended, &inquiry),
    }
}

fn main(rt: HostRuntime) -> io::Result<ExitCode> {
    match answer(&rt) {
        Ok(()) => Ok(ExitCode::SUCCESS),
        Err(Stop::Io(error)) => Err(error),
        Err(stop) => {
            eprintln!(rt; "{stop}")?;
            Ok(ExitCode::FAILURE)
        }
    }
}

ghost use Rattle.std.specs.Iterator.{IsFinite};

use ledger::bookings::Booking;
use std::io;

// Tells a row of numbers, and ends the line.
fn tell_numbers<I: Iterator<Item = u32> + Drop>(rt: &HostRuntime, numbers: I) -> io::Result<()>
    requires can { I.can_next numbers }
    requires ends { IsFinite (I.remaining numbers) }
{
    for number in numbers {
        print!(rt; "{number:>9}")?;
    }
    println!(rt; "")
}

// Tells the first numbers of the sheet as a row, and answers what follows them.
fn tell_row<'s>(rt: &HostRuntime, sheet: &'s [u32], parts: usize) -> io::Result<&'s [u32]> {
    let (row, rest) = sheet.split_at(parts.min(sheet.len()));
    tell_numbers(rt, row.iter().copied())?;
    Ok(rest)
}

// Tells the numbers and the calls of the parts.
fn tell_parts(rt: &HostRuntime, book: &[Booking]) -> io::Result<()> {
    print!(rt; "        part")?;
    tell_numbers(rt, (1u32..).take(book.len()))?;
    print!(rt; "        call")?;
    tell_numbers(rt, book.iter().map(|booking| booking.call))
}

// Tells the times of the booked parts, a row for each event and a column for each part.
pub(crate) fn tell_sheet(
    rt: &HostRuntime,
    stages: u32,
    book: &[Booking],
    sheet: &[u32],
) -> io::Result<()> {
    tell_parts(rt, book)?;
    let mut rest = sheet;
    for kind in ["pass", "release", "completion"] {
        for stage in 1..=stages {
            print!(rt; "{kind:>10} {stage}")?;
            rest = tell_row(rt, rest, book.len())?;
        }
    }
    print!(rt; "    delivery")?;
    let _ = tell_row(rt, rest, book.len())?;
    print!(rt; "         due")?;
    tell_numbers(rt, book.iter().map(|booking| booking.due))
}

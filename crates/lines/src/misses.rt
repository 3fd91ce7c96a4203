ghost use Rattle.std.specs.Prelude.{◌≡◌, length, nat_lt};
ghost use Rattle.lines.specs.Missed.{how_many_missed, FirstMissed};

use ledger::book::Book;
use ledger::bookings::Booking;
use stations::numbers::PartNo;

// Whether a booked part is delivered after its due minute.
fn is_missed(booking: &Booking, delivery: u32) -> bool
    ensures { result ≡ nat_lt booking.now.due delivery }
{
    booking.due < delivery
}

// How many parts are missed.
fn how_many(book: &Book, deliveries: &[u32]) -> u32
    ensures { result ≡ how_many_missed book.now.parts.items deliveries.now }
{
    let parts = book.parts().iter().zip(deliveries);
    parts
        .filter(|(booking, delivery)| is_missed(booking, **delivery))
        .count() as u32
}

// The first part that is missed.
fn first(book: &Book, deliveries: &[u32]) -> Option<PartNo>
    requires { length deliveries.now ≡ length book.now.parts.items }
    ensures { FirstMissed book.now.parts.items deliveries.now result }
{
    let mut parts = book.parts().iter().zip(deliveries);
    let index = parts.position(|(booking, delivery)| is_missed(booking, *delivery))?;
    Some(PartNo(index as u32 + 1))
}

// How many parts are missed, and the first of them.
pub(crate) fn missed(book: &Book, deliveries: &[u32]) -> (u32, Option<PartNo>)
    requires { length deliveries.now ≡ length book.now.parts.items }
    ensures count { result.0 ≡ how_many_missed book.now.parts.items deliveries.now }
    ensures first { FirstMissed book.now.parts.items deliveries.now result.1 }
{
    (how_many(book, deliveries), first(book, deliveries))
}

ghost use Rattle.std.specs.Prelude.{◌≡◌, [], MatchResult};
ghost use Rattle.ledger.specs.Bookings.{last_call, booked, with_booking, withdrawn, without_last};
ghost use Rattle.ledger.specs.declared.faults.BookFault.TheVariants.{NoMemory};

use crate::book::Book;
use crate::bookings::Booking;
use crate::faults::BookFault;
use calendar::clock::END;
use std::alloc::Global;

const MOST_PARTS: usize = 128;

impl Book {
    // An empty book with room for all its bookings.
    pub fn new(heap: Global) -> Result<Book, BookFault>
        ensures { MatchResult result (λ b. b.parts.items ≡ []) (λ e. e ≡ NoMemory) }
    {
        let parts = Vec::with_capacity(heap, MOST_PARTS)?;
        Ok(Book { parts })
    }

    // The bookings, in part order.
    pub fn parts(&self) -> &[Booking]
        ensures { result.now ≡ self.now.parts.items }
    {
        self.parts.as_slice()
    }

    // The call of the last booking, or 0.
    fn last_call(&self) -> u32
        ensures { result ≡ last_call self.now.parts.items }
    {
        self.parts.last().map_or(0, |booking| booking.call)
    }

    // Books a part behind those that stand.
    pub fn book(&mut self, call: u32, due: u32) -> Result<(), BookFault>
        ensures answer { result ≡ booked self.old.parts.items call due }
        ensures after { self.new.parts.items
            ≡ with_booking (booked self.old.parts.items call due) self.old.parts.items call due }
    {
        if self.parts.len() >= MOST_PARTS {
            return Err(BookFault::Full);
        }
        if due >= END || due < call {
            return Err(BookFault::Due);
        }
        if call < self.last_call() {
            return Err(BookFault::CallOrder);
        }
        self.parts.push_reserved(Booking { call, due });
        Ok(())
    }

    // Takes the last booking away.
    pub fn withdraw(&mut self) -> Result<(), BookFault>
        ensures answer { result ≡ withdrawn self.old.parts.items }
        ensures after { self.new.parts.items ≡ without_last self.old.parts.items }
    {
        self.parts.pop().map(|_| ()).ok_or(BookFault::Empty)
    }
}

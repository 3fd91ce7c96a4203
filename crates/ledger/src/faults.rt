ghost use Rattle.std.specs.Prelude.{◌≡◌};
ghost use Rattle.ledger.specs.Faults.{book_number, board_number};
ghost use Rattle.ledger.specs.declared.faults.BookFault.TheVariants as book;
ghost use Rattle.ledger.specs.declared.faults.BoardFault.TheVariants as board;

use std::alloc::AllocError;

// Why a call on a book is refused.
#[derive(Clone, Copy, PartialEq, Eq, Debug)]
pub enum BookFault {
    // 128 bookings stand.
    Full,
    // The due minute is at or past the end of the clock, or before the call.
    Due,
    // The call is before that of the last booking.
    CallOrder,
    // There is no booking to withdraw.
    Empty,
    // There is no memory for the book.
    NoMemory,
}

impl BookFault {
    // The number of the refusal; want of memory has 0.
    pub fn number(&self) -> u32
        ensures { result ≡ book_number self.now }
    {
        match self {
            BookFault::Full => 6,
            BookFault::Due => 7,
            BookFault::CallOrder => 8,
            BookFault::Empty => 9,
            BookFault::NoMemory => 0,
        }
    }
}

impl From<AllocError> for BookFault {
    ghost from_gives = { λ _ r. r ≡ book.NoMemory };

    fn from(_none: AllocError) -> BookFault {
        BookFault::NoMemory
    }
}

// Why a call on a board is refused.
#[derive(Clone, Copy, PartialEq, Eq, Debug)]
pub enum BoardFault {
    // There is no such place, or a number is off the board's ranges.
    OffRange,
    // There is no memory for the board.
    NoMemory,
}

impl BoardFault {
    // The number of the refusal; want of memory has 0.
    pub fn number(&self) -> u32
        ensures { result ≡ board_number self.now }
    {
        match self {
            BoardFault::OffRange => 10,
            BoardFault::NoMemory => 0,
        }
    }
}

impl From<AllocError> for BoardFault {
    ghost from_gives = { λ _ r. r ≡ board.NoMemory };

    fn from(_none: AllocError) -> BoardFault {
        BoardFault::NoMemory
    }
}

use ledger::board::{Board, PlaceNo};
use ledger::book::Book;
use ledger::bookings::Booking;
use ledger::faults::{BoardFault, BookFault};
use std::process::Abort;
use std::test::Fail;

#[test]
fn bookings_in_order(rt: HostRuntime) -> Result<(), Fail> {
    let mut book = Book::new(rt.alloc())?;
    assert_eq!(rt; book.withdraw(), Err(BookFault::Empty));
    assert_eq!(rt; book.book(100, 99), Err(BookFault::Due));
    assert_eq!(rt; book.book(100, 1_000_000), Err(BookFault::Due));
    assert_eq!(rt; book.book(100, 999_999), Ok(()));
    assert_eq!(rt; book.book(99, 99), Err(BookFault::CallOrder));
    assert_eq!(rt; book.book(99, 98), Err(BookFault::Due));
    assert_eq!(rt; book.book(100, 100), Ok(()));
    let second = Booking {
        call: 100,
        due: 100,
    };
    assert_eq!(rt; book.parts().last().copied(), Some(second));
    assert_eq!(rt; book.withdraw(), Ok(()));
    assert_eq!(rt; book.parts().len(), 1);
    Ok(())
}

#[test]
fn a_book_of_128(rt: HostRuntime) -> Result<(), Fail> {
    let mut book = Book::new(rt.alloc())?;
    for call in 0..128 {
        assert_eq!(rt; book.book(call, call), Ok(()));
    }
    assert_eq!(rt; book.book(0, u32::MAX), Err(BookFault::Full));
    assert_eq!(rt; book.withdraw(), Ok(()));
    assert_eq!(rt; book.book(127, 127), Ok(()));
    assert_eq!(rt; book.parts().len(), 128);
    Ok(())
}

// No board can have these maxima.
fn refused(rt: &(impl Abort + AllocGlobal), maxima: &[u32]) {
    assert_eq!(rt;
        Board::new(rt.alloc(), maxima).err(),
        Some(BoardFault::OffRange)
    );
}

#[test]
fn boards(rt: HostRuntime) -> Result<(), Fail> {
    refused(&rt, &[]);
    refused(&rt, &[1; 17]);
    refused(&rt, &[64, 65]);
    let mut board = Board::new(rt.alloc(), &[64, 3])?;
    assert!(rt; board.counts() == [64, 3].as_slice());
    assert_eq!(rt; board.set(PlaceNo(0), 1), Err(BoardFault::OffRange));
    assert_eq!(rt; board.set(PlaceNo(3), 1), Err(BoardFault::OffRange));
    assert_eq!(rt; board.set(PlaceNo(2), 4), Err(BoardFault::OffRange));
    assert_eq!(rt; board.set(PlaceNo(2), 0), Ok(()));
    assert!(rt; board.counts() == [64, 0].as_slice());
    assert_eq!(rt; board.set(PlaceNo(2), 3), Ok(()));
    assert!(rt; board.counts() == [64, 3].as_slice());
    assert!(rt; board.maxima() == [64, 3].as_slice());
    Ok(())
}

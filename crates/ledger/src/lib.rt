// The book of the parts that are asked for, and the board of the counts of cards.
#![tactic(auto)]

pub mod board;
pub mod book;
pub mod bookings;
pub mod faults;

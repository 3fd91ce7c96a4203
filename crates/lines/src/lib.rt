// Lines: a row of stations under a control, and the run of the booked parts.
#![tactic(auto)]

mod asking;
pub mod faults;
pub mod line;
mod misses;
mod orders;
mod parts;
mod plans;
mod running;
mod sheets;

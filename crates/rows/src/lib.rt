// Rows of stations: a load names a station by its number.
#![tactic(auto)]

pub mod banks;
pub mod joins;
pub mod loading;
pub mod singles;

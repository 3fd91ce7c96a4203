// The clock, the settings that a piece is made with, and the week with its look-ups.
#![tactic(auto)]

pub mod clock;
pub mod house;
pub mod settings;
pub mod shifts;
pub mod week;

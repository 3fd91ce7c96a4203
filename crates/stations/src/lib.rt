// Stations: each is loaded with the arrival minutes of its parts and answers their departure minutes.
#![tactic(auto)]

pub mod cores;
pub mod layers;
pub mod loading;
pub mod machines;
pub mod moves;
pub mod numbers;
pub mod ovens;
pub mod piles;
mod places;
pub mod served;
pub mod weekly;

#![tactic(auto)]

pub mod cursor;
mod lines;
mod numbers;
pub mod stages;
mod words;

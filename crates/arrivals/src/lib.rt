#![tactic(auto)]

pub mod lines;
pub mod lists;

// An inquiry about a control: its name, how many stages the line has, and the counts.
#![tactic(auto)]

pub mod counts;
pub mod names;
pub mod reading;

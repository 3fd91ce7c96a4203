// A job: an arrival list that is worked through at its station.
#![tactic(auto)]

pub mod answers;
pub mod making;
pub mod messages;
pub mod runs;
pub mod whole;

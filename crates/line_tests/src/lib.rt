// Worked examples of lines: deliveries that follow from the definitions, and tests of the run.
#![tactic(auto)]

pub mod by_hand;
#[cfg(test)]
mod refused;
#[cfg(test)]
mod runs;
#[cfg(test)]
mod shops;

// Controls: what the cards of a line let each event wait for, and what follows for the times of every line.
#![tactic(auto)]

pub mod base;
pub mod cards;
pub mod control;
pub mod events;
pub mod evolution;
pub mod extended;
pub mod general;
pub mod kanban;
pub mod theorems;

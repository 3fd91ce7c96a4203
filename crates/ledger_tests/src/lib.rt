// Tests of the book and the board at their limits.
#![tactic(auto)]

#[cfg(test)]
mod limits;

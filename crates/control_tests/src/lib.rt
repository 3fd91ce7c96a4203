// Tests of the controls: which counts are lawful, what each event waits for, and what is read of an inquiry.
#![tactic(auto)]

#[cfg(test)]
mod inquiries_read;
#[cfg(test)]
mod waiting;

// Tests of stations, weeks, rows and whole jobs on worked examples.
#![tactic(auto)]

#[cfg(test)]
mod jobs_told;
#[cfg(test)]
mod minutes;
#[cfg(test)]
mod rows_told;
#[cfg(test)]
mod settings;

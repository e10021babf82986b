//! Tests recordings in files, their clocks, and the pauses of jobs.
#![tactic(auto)]

#[cfg(test)]
mod checks;
#[cfg(test)]
mod jobs;
#[cfg(test)]
mod lulls;
#[cfg(test)]
mod recordings;

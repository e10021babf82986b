//! Tests the turn cell, jobs in parallel, callers of the shared server, worked serve runs.
#![tactic(auto)]

#[cfg(test)]
mod callers;
#[cfg(test)]
mod checks;
#[cfg(test)]
mod counter;
#[cfg(test)]
mod jobs;
#[cfg(test)]
mod recorded;
#[cfg(test)]
mod serving;
#[cfg(test)]
mod threads;

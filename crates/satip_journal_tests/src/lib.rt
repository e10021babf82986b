//! Tests journals over memory: bursts, sinks that fail, the journals of all jobs, their verdict.
#![tactic(auto)]

#[cfg(test)]
mod checks;
#[cfg(test)]
mod journals_of_jobs;
#[cfg(test)]
mod judging;
#[cfg(test)]
mod kits;
#[cfg(test)]
mod one_journal;
#[cfg(test)]
mod questions;
#[cfg(test)]
mod runs;
#[cfg(test)]
mod serving;

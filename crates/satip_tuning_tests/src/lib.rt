//! Tests numbers, texts, tunings, queries, configurations, and messages in pieces.
#![tactic(auto)]

#[cfg(test)]
mod base;
#[cfg(test)]
mod checks;
#[cfg(test)]
mod config;
#[cfg(test)]
mod cuts;
#[cfg(test)]
mod query;
#[cfg(test)]
mod tune;

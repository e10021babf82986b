//! Tests lanes, callers of a tunnel, its connections and workers, and what long messages cost.
#![tactic(auto)]

#[cfg(test)]
mod callers;
#[cfg(test)]
mod checks;
#[cfg(test)]
mod connections;
#[cfg(test)]
mod drips;
#[cfg(test)]
mod lanes;
#[cfg(test)]
mod requests;
#[cfg(test)]
mod setting;
#[cfg(test)]
mod steps;
#[cfg(test)]
mod streaming;
#[cfg(test)]
mod tunnel_streaming;
#[cfg(test)]
mod worker;

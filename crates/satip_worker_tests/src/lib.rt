//! Tests connections and workers over memory and a scripted service.
#![tactic(auto)]

#[cfg(test)]
mod worker;

//! Tests pumps and the ticker over memory and a scripted service.
#![tactic(auto)]

#[cfg(test)]
mod pump;

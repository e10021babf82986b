//! Tests the devices over memory, and a recording client's exchanges and whole recordings.
#![tactic(auto)]

#[cfg(test)]
mod asking;
#[cfg(test)]
mod devices;
#[cfg(test)]
mod recording;
#[cfg(test)]
mod world;

//! Tests sockets over loopback, the system's clocks and the kits.
#![tactic(auto)]

#[cfg(test)]
mod checks;
#[cfg(test)]
mod clocks;
#[cfg(test)]
mod dialed;
#[cfg(test)]
mod doors;
#[cfg(test)]
mod kits;
#[cfg(test)]
mod outlets;
#[cfg(test)]
mod sending;
#[cfg(test)]
mod sockets;
#[cfg(test)]
mod status;
#[cfg(test)]
mod stops;
#[cfg(test)]
mod waits;

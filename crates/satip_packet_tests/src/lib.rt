//! Tests the path of packets: recordings in pieces, datagrams, catching, selection and lanes.
#![tactic(auto)]

#[cfg(test)]
mod catching;
#[cfg(test)]
mod checks;
#[cfg(test)]
mod filled;
#[cfg(test)]
mod flow;
#[cfg(test)]
mod lanes;
#[cfg(test)]
mod reading;
#[cfg(test)]
mod rtp;
#[cfg(test)]
mod transport;

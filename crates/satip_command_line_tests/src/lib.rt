//! Tests commands over devices that fail and over long inputs; `serve` over loopback.
#![tactic(auto)]

#[cfg(test)]
mod audits;
#[cfg(test)]
mod changes;
#[cfg(test)]
mod checks;
#[cfg(test)]
mod journals;
#[cfg(test)]
mod real_desk;
#[cfg(test)]
mod recordings;
#[cfg(test)]
mod replays;
#[cfg(test)]
mod runs;
#[cfg(test)]
mod stress;
#[cfg(test)]
mod talks;
#[cfg(test)]
mod words;

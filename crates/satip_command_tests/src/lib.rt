//! Tests scripts, entries, replays, definitions of stress runs, and lines of outcomes.
#![tactic(auto)]

#[cfg(test)]
mod checks;
#[cfg(test)]
mod outcomes;
#[cfg(test)]
mod records;
#[cfg(test)]
mod replay;
#[cfg(test)]
mod script;
#[cfg(test)]
mod stress;

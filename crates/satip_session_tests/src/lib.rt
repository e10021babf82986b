//! Tests PID sets, deadlines, front ends and the table of sessions and streams.
#![tactic(auto)]

#[cfg(test)]
mod checks;
#[cfg(test)]
mod fronts;
#[cfg(test)]
mod pids;
#[cfg(test)]
mod table;
#[cfg(test)]
mod timer;

//! Tests each status of `serve`, `journal` and `tunnel` by the top call, over memory.
#![tactic(auto)]

#[cfg(test)]
mod faults;
#[cfg(test)]
mod kits;
#[cfg(test)]
mod noting;
#[cfg(test)]
mod refusing;
#[cfg(test)]
mod runs;
#[cfg(test)]
mod served;

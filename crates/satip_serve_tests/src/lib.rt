//! Tests `serve`, `journal` and `tunnel` by the top call, with jobs that wait for each other.
#![tactic(auto)]

#[cfg(test)]
mod counting;
#[cfg(test)]
mod deeds;
#[cfg(test)]
mod journals;
#[cfg(test)]
mod outcomes;
#[cfg(test)]
mod reel;
#[cfg(test)]
mod runs;
#[cfg(test)]
mod together;
#[cfg(test)]
mod tunnelling;
#[cfg(test)]
mod waiting;
#[cfg(test)]
mod waiting_desk;

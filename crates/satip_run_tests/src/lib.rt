//! Tests connections and pumps over the one-thread server: broken input, failing devices, locks.
#![tactic(auto)]

#[cfg(test)]
mod checks;
#[cfg(test)]
mod given;
#[cfg(test)]
mod locks;
#[cfg(test)]
mod pumps;
#[cfg(test)]
mod served_connections;
#[cfg(test)]
mod sessions;
#[cfg(test)]
mod solo;

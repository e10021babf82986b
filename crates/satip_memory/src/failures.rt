//! Decides which calls of a device over memory fail.

use satip_base::Want;
use std::alloc::Global;

/// Calls that are counted from 1, and the numbers of those that are to fail.
#[derive(Drop)]
pub(crate) struct Failures {
    calls: u64,
    failing: Vec<u64>,
}

impl Failures {
    pub(crate) fn make(alloc: Global, failing: &[u64]) -> Result<Failures, Want> {
        match Vec::from_slice(alloc, failing) {
            Ok(failing) => Ok(Failures { calls: 0, failing }),
            Err(_) => Err(Want),
        }
    }

    /// Counts the call that begins, and tells whether it is to fail.
    pub(crate) fn meets_one(&mut self) -> bool {
        self.calls = self.calls.saturating_add(1);
        self.failing.contains(&self.calls)
    }
}

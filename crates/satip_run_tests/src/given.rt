//! What a call of a fixture gives.

use std::process::Abort;
use std::test::Fail;

/// Returns what a call gave; ends the test if it failed.
pub(crate) fn given<T>(rt: &impl Abort, call: Result<T, Fail>) -> T {
    match call {
        Ok(value) => value,
        Err(_failure) => panic!(rt; "a fixture failed"),
    }
}

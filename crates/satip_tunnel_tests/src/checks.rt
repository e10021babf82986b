//! Asserts values by a name, which says where a value is, and takes what fixtures give.

use std::fmt::Debug;
use std::process::Abort;
use std::test::Fail;

/// Asserts that a value is this one.
pub fn check<T: PartialEq + Debug + Drop>(rt: &impl Abort, name: &str, got: T, wanted: T) {
    assert_eq!(rt; got, wanted, "{name}");
}

/// Returns what a call of a fixture gave; ends the test if it failed.
pub fn given<T>(rt: &impl Abort, call: Result<T, Fail>) -> T {
    match call {
        Ok(value) => value,
        Err(_failure) => panic!(rt; "a fixture failed"),
    }
}

//! Asserts values by a name, which says where a value is.

use std::fmt::Debug;
use std::process::Abort;
use std::test::Fail;

/// Asserts that a value is this one.
pub(crate) fn check<T: PartialEq + Debug + Drop>(rt: &impl Abort, name: &str, got: T, wanted: T) {
    assert_eq!(rt; got, wanted, "{name}");
}

/// Asserts that a count of bytes is greater than this one.
pub(crate) fn check_above(rt: &impl Abort, name: &str, count: usize, limit: usize) {
    assert!(rt; count > limit, "{name}: {count} bytes");
}

/// Returns what a call of a fixture gave. Ends the test if it failed.
pub(crate) fn given<T>(rt: &impl Abort, call: Result<T, Fail>) -> T {
    match call {
        Ok(value) => value,
        Err(_failure) => panic!(rt; "a fixture failed"),
    }
}

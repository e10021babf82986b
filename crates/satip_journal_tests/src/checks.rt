//! Asserts values by a name, which says where a value is.

use std::fmt::Debug;
use std::process::Abort;

/// Asserts that a value is this one.
pub(crate) fn check<T: PartialEq + Debug + Drop>(rt: &impl Abort, name: &str, got: T, wanted: T) {
    assert_eq!(rt; got, wanted, "{name}");
}

/// Asserts that a count is at least this one.
pub(crate) fn check_least(rt: &impl Abort, name: &str, count: u64, least: u64) {
    assert!(rt; count >= least, "{name}: {count}");
}

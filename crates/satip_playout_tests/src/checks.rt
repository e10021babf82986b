//! Asserts values by a name, which says where a value is.

use std::fmt::Debug;
use std::process::Abort;

/// Asserts that a value is this one.
pub(crate) fn check<T: PartialEq + Debug + Drop>(rt: &impl Abort, name: &str, got: T, wanted: T) {
    assert_eq!(rt; got, wanted, "{name}");
}

/// Asserts that a number is within these bounds.
pub(crate) fn check_within(rt: &impl Abort, name: &str, got: u64, least: u64, most: u64) {
    assert!(rt; least <= got && got <= most, "{name}: {got}");
}

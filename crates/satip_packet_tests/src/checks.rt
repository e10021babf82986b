//! Asserts the values of rows.

use std::fmt::Debug;
use std::process::Abort;

/// Asserts that a value of the row with this name is this one.
pub(crate) fn check<T: PartialEq + Debug + Drop>(rt: &impl Abort, name: &str, got: T, wanted: T) {
    assert_eq!(rt; got, wanted, "{name:?}");
}

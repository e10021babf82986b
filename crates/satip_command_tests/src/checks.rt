//! Asserts the values of rows, and gives what fixtures make.

use std::fmt::Debug;
use std::process::Abort;
use std::test::Fail;

/// Texts, each repeated this number of times.
pub(crate) type Parts = &'static [(&'static [u8], usize)];

/// Asserts that a value of the row with this name is this one.
pub(crate) fn check<T: PartialEq + Debug + Drop>(rt: &impl Abort, name: &str, got: T, wanted: T) {
    assert_eq!(rt; got, wanted, "{name:?}");
}

/// Returns what a fixture gave; ends the test if it failed.
pub(crate) fn given<T>(rt: &impl Abort, call: Result<T, Fail>) -> T {
    match call {
        Ok(value) => value,
        Err(_failure) => panic!(rt; "a fixture failed"),
    }
}

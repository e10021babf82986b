//! Jobs that have not begun, and what a file says that asks a server to end.

use crate::starts::Starts;
use crate::stop::{Limit, limit_of};

#[test]
fn jobs_that_have_not_begun_are_told_once(rt: HostRuntime) {
    let starts = Starts::expect(12);
    assert_eq!(rt; starts.untold(1_000), None);
    for late in 0..7 {
        starts.begin(100 + late);
    }
    assert_eq!(rt; starts.untold(104), None);
    assert_eq!(rt; starts.untold(105), Some(5));
    assert_eq!(rt; starts.untold(106), None);
}

#[test]
fn jobs_that_have_all_begun_are_not_told(rt: HostRuntime) {
    let starts = Starts::expect(2);
    starts.begin(100);
    starts.begin(104);
    assert_eq!(rt; starts.untold(1_000), None);
}

// A row's name, the start of a file, and what it says.
const LIMITS: &[(&str, &[u8], Limit)] = &[
    ("empty", b"", Limit::None),
    ("an empty line", b"\nmore", Limit::None),
    ("at once", b"0\n", Limit::Seconds(0)),
    ("no end of line", b"20", Limit::Seconds(20)),
    ("blanks", b" 20 \r\nmore", Limit::Seconds(20)),
    ("a day", b"86400\n", Limit::Seconds(86_400)),
    ("more than a day", b"86401\n", Limit::Other),
    ("a sign", b"-1\n", Limit::Other),
    ("a word", b"now\n", Limit::Other),
];

#[test]
fn first_lines_say_for_how_long(rt: HostRuntime) {
    for (name, text, limit) in LIMITS {
        assert_eq!(rt; limit_of(text), *limit, "{name}");
    }
}

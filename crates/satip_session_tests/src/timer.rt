//! The keys of small timers, worked out by hand, and those of a timer as of a plain list.

mod plain;

use crate::checks::check;
use plain::Plain;
use satip_fixtures::draws::{FIRST_DRAW, next_draw};
use satip_timer::Timer;
use std::process::Abort;

// A call of a timer, or the key that it shows.
#[derive(Clone, Copy)]
enum Step {
    /// Sets the deadline of a key.
    Set(u16, u64),
    Drop(u16),
    /// The key that is due at a moment.
    Due(u64, Option<u16>),
}

// Three deadlines, two of which are equal.
const THREE: &[Step] = &[Step::Set(9, 40), Step::Set(3, 40), Step::Set(5, 70)];

// Steps behind those three.
const ROWS: &[(&str, &[Step])] = &[
    (
        "deadlines are due from their moment on",
        &[Step::Due(39, None), Step::Due(40, Some(3))],
    ),
    (
        "dropped keys are not due",
        &[
            Step::Drop(3),
            Step::Due(80, Some(9)),
            Step::Drop(9),
            Step::Due(80, Some(5)),
            Step::Drop(5),
            Step::Due(80, None),
        ],
    ),
    (
        "a deadline is replaced",
        &[
            Step::Set(3, 90),
            Step::Due(60, Some(9)),
            Step::Set(63, 0),
            Step::Due(60, Some(63)),
        ],
    ),
];

// Takes steps, and asserts which keys are due.
fn take(rt: &impl Abort, timer: &mut Timer, steps: &[Step], name: &str) {
    for step in steps {
        match *step {
            Step::Set(key, moment) => timer.set(key % 64, moment),
            Step::Drop(key) => timer.drop_key(key % 64),
            Step::Due(now, key) => check(rt, name, &(now, timer.due(now)), &(now, key)),
        }
    }
}

#[test]
fn keys_are_due_as_their_rows_say(rt: HostRuntime) {
    for (name, steps) in ROWS {
        let mut timer = Timer::make(rt.alloc()).expect(&rt, "out of memory");
        take(&rt, &mut timer, THREE, name);
        take(&rt, &mut timer, steps, name);
    }
}

// Sets a deadline in both, or drops it, as a draw says.
fn call_both(timer: &mut Timer, plain: &mut Plain, draw: u32, moment: u64) {
    let key = (draw >> 26) as usize;
    if (draw >> 8) % 3 == 0 {
        timer.drop_key(key as u16);
        plain.dues[key] = None;
    } else {
        timer.set(key as u16, moment);
        plain.dues[key] = Some(moment);
    }
}

#[test]
fn ten_thousand_calls_are_as_on_a_plain_list(rt: HostRuntime) {
    let mut timer = Timer::make(rt.alloc()).expect(&rt, "out of memory");
    let mut plain = Plain { dues: [None; 64] };
    let mut draw = FIRST_DRAW;
    for _ in 0..10000 {
        draw = next_draw(draw);
        let moment = ((draw >> 12) % 128) as u64;
        call_both(&mut timer, &mut plain, draw, moment);
        for now in [moment / 2, moment, 127] {
            assert_eq!(rt; timer.due(now), plain.due(now));
        }
    }
}

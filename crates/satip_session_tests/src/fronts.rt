//! Two front ends and two multiplexes, with answers worked out by hand.

use crate::checks::check;
use satip_fixtures::{FIRST_MUX, SECOND_MUX, config_with};
use satip_fronts::{FrontState, Fronts};
use satip_tune::{Mux, Pol, System, Tuning};
use std::alloc::{AllocError, Global};

/// 10744 MHz, horizontal, DVB-S: no multiplex of the two.
const UNKNOWN_MUX: Mux = Mux {
    src: 1,
    freq: 10744000,
    pol: Pol::H,
    msys: System::Dvbs,
    sr: 22000,
};

fn fronts(alloc: Global) -> Result<Fronts, AllocError> {
    let config = config_with(alloc, 2, &[FIRST_MUX, SECOND_MUX])?;
    Ok(Fronts::make(config.fronts, config.muxes))
}

/// A tuning that means this multiplex, at the front end of this number where one is wanted.
fn tuning(fe: Option<u16>, mux: Mux) -> Tuning {
    Tuning {
        fe,
        src: mux.src,
        freq: mux.freq,
        pol: mux.pol,
        ro: None,
        msys: mux.msys,
        mtype: None,
        plts: None,
        sr: mux.sr,
        fec: None,
    }
}

/// What is done to front ends, and what they answer or do behind it.
#[derive(Clone, Copy)]
enum Step {
    /// A stream is tuned to a multiplex, at the front end of this number where one is wanted; the
    /// front end that it gets.
    Take(u16, Option<u16>, Mux, Option<u16>),
    Leave(u16),
    /// The recording of a tune number ends at a front end; whether it was that front end's.
    End(u16, u64, bool),
    /// How many streams a front end has whose recording hasn't ended, its multiplex and its tune
    /// number.
    Does(u16, u16, Option<u16>, u64),
    /// How many streams a front end has whose recording has ended.
    Ended(u16, u16),
    /// Whether a front end serves a stream.
    Serves(u16, u16, bool),
    /// Whether there is a front end of this number.
    Front(u16, bool),
}

/// Whether a stream gets this front end.
fn takes(fronts: &mut Fronts, stream: u16, tuning: &Tuning, front: Option<u16>) -> bool {
    if stream < 1 || stream > 64 {
        return false;
    }
    fronts.take(stream, tuning) == front
}

fn leaves(fronts: &mut Fronts, stream: u16) -> bool {
    if stream < 1 || stream > 64 {
        return false;
    }
    fronts.leave(stream);
    true
}

fn does(fronts: &Fronts, front: u16, wanted: FrontState) -> bool {
    fronts.state(front) == Some(wanted)
}

fn has_ended(fronts: &Fronts, front: u16, streams: u16) -> bool {
    match fronts.state(front) {
        Some(state) => state.ended && state.streams == streams,
        None => false,
    }
}

/// Whether front ends answer so.
fn is_answered(fronts: &mut Fronts, step: Step) -> bool {
    match step {
        Step::Take(stream, fe, mux, front) => takes(fronts, stream, &tuning(fe, mux), front),
        Step::Leave(stream) => leaves(fronts, stream),
        Step::End(front, tune, current) => fronts.end(front, tune) == current,
        Step::Does(front, streams, mux, tune) => {
            let wanted = FrontState {
                streams,
                mux,
                tune,
                ended: false,
            };
            does(fronts, front, wanted)
        }
        Step::Ended(front, streams) => has_ended(fronts, front, streams),
        Step::Serves(front, stream, served) => fronts.serves(front, stream) == served,
        Step::Front(front, there) => {
            fronts.front(front).is_some() == there && fronts.state(front).is_some() == there
        }
    }
}

/// Takes all steps; the place of the first that isn't answered so.
fn take_all(fronts: &mut Fronts, steps: &[Step]) -> Option<usize> {
    for (place, step) in steps.iter().enumerate() {
        if !is_answered(fronts, *step) {
            return Some(place);
        }
    }
    None
}

const ROWS: &[(&str, &[Step])] = &[
    (
        "streams of one multiplex share a front end",
        &[
            Step::Take(1, None, FIRST_MUX, Some(1)),
            Step::Take(2, None, FIRST_MUX, Some(1)),
            Step::Does(1, 2, Some(1), 1),
            Step::Take(3, None, SECOND_MUX, Some(2)),
            Step::Take(4, None, UNKNOWN_MUX, None),
            Step::Does(2, 1, Some(2), 1),
        ],
    ),
    (
        "the last stream frees its front end",
        &[
            Step::Take(1, None, FIRST_MUX, Some(1)),
            Step::Take(2, None, FIRST_MUX, Some(1)),
            Step::Leave(1),
            Step::Does(1, 1, Some(1), 1),
            Step::Serves(1, 2, true),
            Step::Serves(1, 1, false),
            Step::Leave(2),
            Step::Does(1, 0, None, 1),
            Step::Take(3, None, UNKNOWN_MUX, Some(1)),
            Step::Does(1, 1, None, 2),
        ],
    ),
    (
        "a stream moves to the front end of its multiplex",
        &[
            Step::Take(1, None, FIRST_MUX, Some(1)),
            Step::Take(2, None, SECOND_MUX, Some(2)),
            Step::Take(1, None, SECOND_MUX, Some(2)),
            Step::Does(1, 0, None, 1),
            Step::Does(2, 2, Some(2), 1),
            Step::Take(2, None, FIRST_MUX, Some(1)),
            Step::Take(2, None, UNKNOWN_MUX, Some(1)),
            Step::Does(1, 1, None, 3),
        ],
    ),
    (
        "the wanted front end is taken",
        &[
            Step::Take(1, Some(2), FIRST_MUX, Some(2)),
            Step::Take(2, Some(2), UNKNOWN_MUX, None),
            Step::Does(1, 0, None, 0),
            Step::Front(2, true),
            Step::Front(3, false),
        ],
    ),
    (
        "a recording ends until the front end is tuned anew",
        &[
            Step::End(1, 0, false),
            Step::Take(1, None, FIRST_MUX, Some(1)),
            Step::End(1, 0, false),
            Step::End(1, 1, true),
            Step::End(3, 1, false),
            Step::Take(2, None, FIRST_MUX, Some(1)),
            Step::Ended(1, 2),
            Step::Leave(2),
            Step::Take(1, None, SECOND_MUX, Some(1)),
            Step::Does(1, 1, Some(2), 2),
        ],
    ),
];

#[test]
fn front_ends_answer_as_their_rows_say(rt: HostRuntime) {
    for (name, steps) in ROWS {
        let mut fronts = fronts(rt.alloc()).expect(&rt, "out of memory");
        check(&rt, name, &take_all(&mut fronts, steps), &None);
    }
}

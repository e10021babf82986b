//! A recording, from its first request to its last.

ghost use Rattle.std.specs.Prelude.{◌≡◌, ℕ, ◌+◌, ◌<◌, ◌≤◌, false, List};
ghost use Rattle.satip_rtp_receiver.specs.Catching.{catching};
ghost use Rattle.satip_config.specs.Lines.{Says};
ghost use Rattle.satip_config.specs.Outcomes.{line_of};
ghost use Rattle.satip_recorder.specs.Outcomes.{outcome_of as outcome_for};
ghost use Rattle.satip_recorder.specs.Outsides.{device_tells, outside, task};
ghost use Rattle.satip_recorder.specs.Recordings.{Ends, IsFresh, Records, Runs, end_for};
ghost use Rattle.satip_recorder.specs.Tapes.{Tells};

use crate::opening::{leave, open};
use crate::outcome::outcome_of;
use crate::recorder::Recorder;
use crate::tape::{Tape, tell};
use crate::turns::receive;
use crate::wish::Wish;
use satip_base::{Sink, Strip};
use satip_client::RecordEnd;
use satip_config::Outcome;
use satip_world::{Clock, Conn, Inlet};
use std::alloc::Global;

/// How a recording ended, with the connection, the inlet and the clock that it used.
#[derive(Drop)]
pub struct Recorded<W, I, M> {
    pub end: RecordEnd,
    pub wire: W,
    pub inlet: I,
    pub moment: M,
}

// Sets the stream up, receives it and gives it back.
fn run<W: Conn, I: Inlet, M: Clock, O: Sink, E: Sink>(
    wire: &mut W,
    inlet: &mut I,
    moment: &mut M,
    recorder: &mut Recorder,
    output: &mut O,
    errors: &mut E,
) -> Result<(), RecordEnd>
    requires few { recorder.old.pulse.cseq + recorder.old.turns < 4294967295 }
    requires some { 0 < recorder.old.tape.left }
    requires catcher { recorder.old.catcher ≡ catching }
    ensures runs { (count : ℕ) → IsFresh count recorder.old
        → Runs (device_tells W.tells I.tells O.tells E.tells)
        (outside (W.line wire.old) (M.dial moment.old) (I.inbox inlet.old) (O.drain output.old))
        (outside (W.line wire.new) (M.dial moment.new) (I.inbox inlet.new) (O.drain output.new))
        (E.drain errors.old) (E.drain errors.new)
        (task recorder.old.page.address recorder.old.page.query count)
        recorder.new.tape.muted result }
{
    let lease = open(
        wire,
        moment,
        inlet.port(),
        &mut recorder.page,
        &mut recorder.pulse.mark,
    )?;
    receive(wire, inlet, moment, &lease, recorder, output, errors)?;
    let cseq = recorder.pulse.cseq;
    leave(wire, &lease, cseq, &mut recorder.page)
}

fn end_of(outcome: Result<(), RecordEnd>) -> RecordEnd
    ensures end { result ≡ end_for outcome }
{
    match outcome {
        Ok(()) => RecordEnd::Done,
        Err(end) => end,
    }
}

// Logs the line of an end.
fn say<E: Sink>(end: RecordEnd, tape: &mut Tape, errors: &mut E)
    ensures tells { Tells E.tells (E.drain errors.old) (E.drain errors.new)
        (line_of (outcome_for end)) tape.old.muted tape.new.muted }
{
    let mut line = Strip::new();
    outcome_of(end).print(&mut line);
    if line.bytes().is_empty() {
        return;
    }
    tell(line.bytes(), tape, errors);
}

// Logs that memory was refused before the recording began.
fn say_want<E: Sink>(errors: &mut E) -> RecordEnd
    ensures end { result ≡ RecordEnd.OutOfMemory }
    ensures said { Says E.tells (E.drain errors.old) (E.drain errors.new)
        (line_of Outcome.OutOfMemory) }
{
    let mut tape = Tape {
        left: 0,
        muted: false,
    };
    say(RecordEnd::OutOfMemory, &mut tape, errors);
    RecordEnd::OutOfMemory
}

// Records and logs the line of the end.
fn record<W: Conn, I: Inlet, M: Clock, O: Sink, E: Sink>(
    alloc: Global,
    wire: &mut W,
    inlet: &mut I,
    moment: &mut M,
    wish: &Wish,
    output: &mut O,
    errors: &mut E,
) -> RecordEnd
    requires some { 1 ≤ wish.now.count }
    requires few { wish.now.count ≤ 1000000 }
    ensures ends { Ends E.tells (E.drain errors.old) (E.drain errors.new) result
        (λ (lines : List ℕ). Records (device_tells W.tells I.tells O.tells E.tells)
        (outside (W.line wire.old) (M.dial moment.old) (I.inbox inlet.old) (O.drain output.old))
        (outside (W.line wire.new) (M.dial moment.new) (I.inbox inlet.new) (O.drain output.new))
        (task wish.now.address.now wish.now.query.now wish.now.count) lines result) }
{
    let Ok(mut recorder) = Recorder::make(alloc, wish) else {
        return say_want(errors);
    };
    let end = end_of(run(wire, inlet, moment, &mut recorder, output, errors));
    say(end, &mut recorder.tape, errors);
    end
}

/// Records `count` packets of a stream, from 1 to 1000000 (RFC 2326, section 10; RFC 3550, section
/// 5.1; SAT>IP 1.2.2, section 3.5; docs/PROTOCOL.md, Recording a stream).
///
/// Sends SETUP with the query and the inlet's port and, after it is accepted, PLAY. Then receives
/// datagrams, puts them in order, and writes their packets. Before each receive it reads the clock,
/// and sends OPTIONS if half of the session's time is over since the mark. Sends TEARDOWN after all
/// packets are written. Replies to OPTIONS and TEARDOWN aren't read. Takes all its memory before
/// the first request.
///
/// Logs a line for each gap, and then the line of the end, unless it is `Done`. After a line that
/// couldn't be logged it logs none.
pub fn record_by<W: Conn, I: Inlet, M: Clock, O: Sink, E: Sink>(
    alloc: Global,
    wire: W,
    inlet: I,
    moment: M,
    wish: &Wish,
    output: &mut O,
    errors: &mut E,
) -> Recorded<W, I, M>
    requires some { 1 ≤ wish.now.count }
    requires few { wish.now.count ≤ 1000000 }

    // With `Done` the requests were sent, and the first packets caught were written. With any other
    // end a prefix of that was done, for the cause of this end; with `OutOfMemory` nothing was.
    ensures ends { Ends E.tells (E.drain errors.old) (E.drain errors.new) result.end
        (λ (lines : List ℕ). Records (device_tells W.tells I.tells O.tells E.tells)
        (outside (W.line wire) (M.dial moment) (I.inbox inlet) (O.drain output.old))
        (outside (W.line result.wire) (M.dial result.moment) (I.inbox result.inlet)
        (O.drain output.new))
        (task wish.now.address.now wish.now.query.now wish.now.count) lines result.end) }
{
    let mut wire = wire;
    let mut inlet = inlet;
    let mut moment = moment;
    let end = record(
        alloc,
        &mut wire,
        &mut inlet,
        &mut moment,
        wish,
        output,
        errors,
    );
    Recorded {
        end,
        wire,
        inlet,
        moment,
    }
}

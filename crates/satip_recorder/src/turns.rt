//! Receiving, turn by turn, until all packets are written.

ghost use Rattle.std.specs.Prelude.{◌≡◌, ◌+◌, ◌<◌, ◌≤◌, IfOk, false, length};
ghost use Rattle.satip_rtp_receiver.specs.Catching.{catching};
ghost use Rattle.satip_client.specs.Pulses.{talk};
ghost use Rattle.satip_recorder.specs.Courses.{Catches, IsReady, TakesTurn, Turns, Winds, reel, station};
ghost use Rattle.satip_recorder.specs.Outsides.{device_tells};

use crate::recorder::Recorder;
use crate::tape::{Tape, put_items};
use satip_base::{Put, Sink};
use satip_client::{Lease, RecordEnd, keep_alive};
use satip_rtp_receiver::{Catcher, read_rtp};
use satip_world::{Clock, Conn, Inlet, Received};

/// The bytes of the longest datagram that is read whole.
const ROOM: usize = 2048;

/// Takes turns until all packets are written, at most as many as the recorder has left. Without all
/// packets then, the end is `Silent`.
pub(crate) fn receive<W: Conn, I: Inlet, M: Clock, O: Sink, E: Sink>(
    wire: &mut W,
    inlet: &mut I,
    moment: &mut M,
    lease: &Lease,
    recorder: &mut Recorder,
    output: &mut O,
    errors: &mut E,
) -> Result<(), RecordEnd>
    requires few { recorder.old.pulse.cseq + recorder.old.turns < 4294967295 }
    requires some { 0 < recorder.old.tape.left }
    requires fresh { recorder.old.catcher ≡ catching }
    ensures turns { Turns (device_tells W.tells I.tells O.tells E.tells)
        (station (talk (W.line wire.old) (M.dial moment.old) recorder.old.pulse) (I.inbox inlet.old)
        (reel recorder.old.catcher recorder.old.tape (O.drain output.old) (E.drain errors.old)))
        (station (talk (W.line wire.new) (M.dial moment.new) recorder.new.pulse) (I.inbox inlet.new)
        (reel recorder.new.catcher recorder.new.tape (O.drain output.new) (E.drain errors.new)))
        recorder.old.page.address lease.now recorder.old.turns result }
    ensures address { recorder.new.page.address ≡ recorder.old.page.address }
    ensures whole { IfOk result (λ _. recorder.new.tape.left ≡ 0) }
    ensures few { recorder.new.pulse.cseq < 4294967295 }
{
    'turns: while recorder.turns > 0 {
        take_turn(wire, inlet, moment, lease, recorder, output, errors)?;
        if recorder.tape.left == 0 {
            return Ok(());
        }
        recorder.turns -= 1;
    }
    Err(RecordEnd::Silent)
}

// Keeps the session alive, and receives once.
fn take_turn<W: Conn, I: Inlet, M: Clock, O: Sink, E: Sink>(
    wire: &mut W,
    inlet: &mut I,
    moment: &mut M,
    lease: &Lease,
    recorder: &mut Recorder,
    output: &mut O,
    errors: &mut E,
) -> Result<(), RecordEnd>
    requires few { recorder.old.pulse.cseq < 4294967295 }
    requires some { 0 < recorder.old.tape.left }
    requires ready { IsReady recorder.old.catcher }
    ensures turns { TakesTurn (device_tells W.tells I.tells O.tells E.tells)
        (station (talk (W.line wire.old) (M.dial moment.old) recorder.old.pulse) (I.inbox inlet.old)
        (reel recorder.old.catcher recorder.old.tape (O.drain output.old) (E.drain errors.old)))
        (station (talk (W.line wire.new) (M.dial moment.new) recorder.new.pulse) (I.inbox inlet.new)
        (reel recorder.new.catcher recorder.new.tape (O.drain output.new) (E.drain errors.new)))
        recorder.old.page.address lease.now recorder.old.turns result }
    ensures address { recorder.new.page.address ≡ recorder.old.page.address }
    ensures ready { IfOk result (λ _. 0 < recorder.new.tape.left
        → IsReady recorder.new.catcher) }
    ensures counted { recorder.new.pulse.cseq ≤ recorder.old.pulse.cseq + 1 }
    ensures same { recorder.new.turns ≡ recorder.old.turns }
{
    keep_alive(wire, moment, lease, &mut recorder.pulse, &mut recorder.page)?;
    take_in(
        inlet,
        &mut recorder.catcher,
        &mut recorder.tape,
        output,
        errors,
    )
}

// Receives once, and writes the packets that can be handed up then.
fn take_in<I: Inlet, O: Sink, E: Sink>(
    inlet: &mut I,
    catcher: &mut Catcher,
    tape: &mut Tape,
    output: &mut O,
    errors: &mut E,
) -> Result<(), RecordEnd>
    requires some { 0 < tape.old.left }
    requires ready { IsReady catcher.old }
    ensures catches { Catches I.tells O.tells E.tells (I.inbox inlet.old) (I.inbox inlet.new)
        (reel catcher.old tape.old (O.drain output.old) (E.drain errors.old))
        (reel catcher.new tape.new (O.drain output.new) (E.drain errors.new)) result }
    ensures ready { IfOk result (λ _. 0 < tape.new.left → IsReady catcher.new) }
{
    let mut buf = [0; ROOM];
    match inlet.receive(&mut buf) {
        Received::Got(size) => match wind(&buf[..size], catcher, tape, output, errors) {
            Put::Whole => Ok(()),
            Put::Failed => Err(RecordEnd::OutputFault),
        },
        Received::Idle => Ok(()),
        Received::End => unreachable!(),
        Received::Failed => Err(RecordEnd::PeerFault),
    }
}

// Takes one datagram, and writes the packets that can be handed up then.
fn wind<O: Sink, E: Sink>(
    bytes: &[u8],
    catcher: &mut Catcher,
    tape: &mut Tape,
    output: &mut O,
    errors: &mut E,
) -> Put
    requires ready { IsReady catcher.old }
    ensures winds { Winds O.tells E.tells
        (reel catcher.old tape.old (O.drain output.old) (E.drain errors.old))
        (reel catcher.new tape.new (O.drain output.new) (E.drain errors.new)) bytes.now result }
    ensures ready { result ≡ Put.Whole → 0 < tape.new.left → IsReady catcher.new }
{
    let Some(view) = read_rtp(bytes) else {
        return Put::Whole;
    };
    catcher.take(&view);
    put_items(catcher, tape, output, errors)
}

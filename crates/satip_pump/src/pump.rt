//! The pump of a front end.
ghost use Rattle.std.specs.Prelude.{◌≡◌, ◌+◌, ◌-◌, ◌<◌, ◌≤◌, ℕ, max, List, true, false, length, None};
ghost use Rattle.satip_plain.specs.Histories.{Item};
ghost use Rattle.satip_pump.specs.Pauses.{Paced, PumpPauses, owed_by};
ghost use Rattle.satip_pump.specs.PumpRuns.{PumpRun, PumpState, play_state, pump_state};
ghost use Rattle.satip_pump.specs.Readings.{held};
ghost use Rattle.satip_pump.specs.Runs.{Runs, Answered, pump_now};
ghost use Rattle.satip_pump.specs.Works.{Works};

use crate::batch::Batch;
use crate::buffer::PLACES;
use crate::ends::{JobEnd, end_of};
use crate::reading::{Reading, fill, hand_back, turn_to};
use crate::works::{give, make_work};
use satip_base::Out;
use satip_base::limits::LONGEST_HISTORY;
use satip_desk::PumpKit;
use satip_plain::{Event, Service, ServiceFault, Work};
use satip_world::{MuxStore, Outlet, Pacer};
use std::sync::Wait;

// A pump: its front end, its reading, the number of packets that it gave since it last paused for
// packets, and the room for the events of its bursts.
#[derive(Drop)]
struct Pump<F, R> {
    front: u16,
    reading: Reading<F>,
    since: usize,
    room: R,
}

// Submits the end of the recording. No source is held then.
fn tell_end<S: Service, F, O: Outlet>(
    service: &mut S,
    outlet: &mut O,
    pump: &Pump<F, S::Room>,
    tune: u64,
    out: &mut Out,
) -> Result<Work, ServiceFault>
    requires handed_back { pump.now.reading.source ≡ None }
    requires free { (O.outbox outlet.old).held ≡ false }
    ensures free { (O.outbox outlet.new).held ≡ false }
    ensures same { S.same service.old service.new }
    ensures works { Works (S.may_want service.old) (S.known service.old) (S.known service.new)
        O.tells (O.outbox outlet.old) (O.outbox outlet.new) (Event.Ended pump.now.front tune)
        result }
{
    let ended = Event::Ended {
        front: pump.front,
        tune,
    };
    make_work(service, outlet, &ended, out)
}

// Reads for a tuning, as the last answer named it. Gives the packets that wait or are read, and
// pauses after 64. Submits the end of the recording if there are none.
fn tune<R: Wait, S: Service, M: MuxStore, O: Outlet, P: Pacer>(
    rt: &R,
    service: &mut S,
    store: &mut M,
    outlet: &mut O,
    pacer: &mut P,
    pump: &mut Pump<M::From, S::Room>,
    tuning: (u16, u64),
    out: &mut Out,
    batch: &mut Batch,
) -> Result<Work, ServiceFault>
    requires paced { pump.old.since < 64 }
    requires few { pump.old.since + length pump.old.reading.buffer.packets ≤ 64 }
    requires free { (O.outbox outlet.old).held ≡ false }
    ensures free { (O.outbox outlet.new).held ≡ false }
    ensures same { S.same service.old service.new }
    ensures answered { (o : PumpState)
        → Runs O.tells M.From.tells M.From.feed pump.old.front o
        (pump_now S.known M.shelf O.outbox service.old store.old outlet.old pump.old.reading)
        (Work.Tune tuning.0 tuning.1)
        → Answered (S.may_want service.old) O.tells M.From.tells M.From.feed pump.old.front o
        (pump_now S.known M.shelf O.outbox service.new store.new outlet.new pump.new.reading)
        result }
    ensures paces { (own : List Item) (first : ℕ)
        → Paced own (S.known service.old).own first (P.pauses pacer.old) pump.old.since 0
        → Paced own (S.known service.new).own first (P.pauses pacer.new) pump.new.since
        (owed_by result) }
    ensures recordings { (M.shelf store.new).recording ≡ (M.shelf store.old).recording }
    ensures front { pump.new.front ≡ pump.old.front }
    ensures paced { pump.new.since < 64 }
    ensures few { pump.new.since + length pump.new.reading.buffer.packets ≤ 64 }
    ensures lent { held pump.old.reading.source ≤ (M.shelf store.old).lent
        → (M.shelf store.new).lent + held pump.old.reading.source
        ≡ (M.shelf store.old).lent + held pump.new.reading.source }
    ensures peak { (M.shelf store.new).peak
        ≤ max (M.shelf store.old).peak ((M.shelf store.old).lent - held
        pump.old.reading.source + 1) }
{
    let (mux, tune) = tuning;
    turn_to(&mut pump.reading, store, mux, tune);
    fill(rt, &mut pump.reading, store, PLACES - pump.since);
    let before = pump.reading.buffer.count();
    if before == 0 {
        return tell_end(service, outlet, pump, tune, out);
    }
    let answer = give(
        service,
        outlet,
        (pump.front, tune),
        Work::Tune { mux, tune },
        &mut pump.reading.buffer,
        &mut pump.room,
        out,
        batch,
    );
    pump.since += before - pump.reading.buffer.count();
    if pump.since == PLACES {
        pacer.pause();
        pump.since = 0;
    }
    answer
}

/// Asks what to read for a front end, reads it, and gives its packets and its end, until the
/// service stops. Gives packets in bursts of at most 64, and sends the datagrams of a burst after
/// it. Pauses after every 64 packets, and after each answer that there is nothing to do. Hands each
/// source back to the store before it submits the end of the recording, before another start, and
/// when the pump ends. Blocks.
pub fn play_recordings<R: Wait + Sync, S: Service, M: MuxStore, O: Outlet, P: Pacer>(
    rt: &R,
    service: &mut S,
    front: u16,
    store: &mut M,
    outlet: &mut O,
    pacer: &mut P,
    out: &mut Out,
    batch: &mut Batch,
) -> JobEnd
    requires free { (O.outbox outlet.old).held ≡ false }
    ensures free { (O.outbox outlet.new).held ≡ false }
    ensures same { S.same service.old service.new }
    ensures run { PumpRun O.tells front
        (play_state S.known M.shelf O.outbox service.old store.old outlet.old)
        (play_state S.known M.shelf O.outbox service.new store.new outlet.new) result }
    ensures pauses { PumpPauses (S.known service.old).own (S.known service.new).own
        (P.pauses pacer.old) (P.pauses pacer.new) }
    ensures spent { result ≡ JobEnd.Spent → (S.known service.new).length ≡ LONGEST_HISTORY }
    ensures want { result ≡ JobEnd.Want → S.may_want service.old ≡ true }
    ensures recordings { (M.shelf store.new).recording ≡ (M.shelf store.old).recording }
    ensures lent { (M.shelf store.new).lent ≡ (M.shelf store.old).lent }
    ensures one_at_a_time { (M.shelf store.new).peak
        ≤ max (M.shelf store.old).peak ((M.shelf store.old).lent + 1) }
{
    let mut pump = Pump {
        front,
        reading: Reading::new(),
        since: 0,
        room: S::room(),
    };
    let mut answer = make_work(service, outlet, &Event::Ask { front }, out);
    for _ in rt.forever() {
        match answer {
            Ok(Work::Tune { mux, tune: number }) => answer = tune(
                rt,
                service,
                store,
                outlet,
                pacer,
                &mut pump,
                (mux, number),
                out,
                batch,
            ),
            Ok(Work::Nothing) => {
                pacer.pause();
                answer = make_work(service, outlet, &Event::Ask { front }, out);
            }
            Ok(Work::Stopping) => {
                hand_back(&mut pump.reading, store);
                return JobEnd::Stopped;
            }
            Err(fault) => {
                hand_back(&mut pump.reading, store);
                return end_of(fault);
            }
        }
    }
    unreachable!()
}

/// Plays recordings with the devices of a kit, as `play_recordings` does. Blocks.
pub fn run_pump<R: Wait + Sync, S: Service, M: MuxStore, O: Outlet, P: Pacer>(
    rt: &R,
    service: &mut S,
    front: u16,
    kit: &mut PumpKit<M, O, P>,
    out: &mut Out,
    batch: &mut Batch,
) -> JobEnd
    requires free { (O.outbox kit.old.outlet).held ≡ false }
    ensures free { (O.outbox kit.new.outlet).held ≡ false }
    ensures same { S.same service.old service.new }
    ensures run { PumpRun O.tells front (pump_state S.known M.shelf O.outbox service.old kit.old)
        (pump_state S.known M.shelf O.outbox service.new kit.new) result }
    ensures pauses { PumpPauses (S.known service.old).own (S.known service.new).own
        (P.pauses kit.old.pacer) (P.pauses kit.new.pacer) }
    ensures spent { result ≡ JobEnd.Spent → (S.known service.new).length ≡ LONGEST_HISTORY }
    ensures want { result ≡ JobEnd.Want → S.may_want service.old ≡ true }
    ensures recordings { (M.shelf kit.new.store).recording ≡ (M.shelf kit.old.store).recording }
    ensures lent { (M.shelf kit.new.store).lent ≡ (M.shelf kit.old.store).lent }
    ensures one_at_a_time { (M.shelf kit.new.store).peak
        ≤ max (M.shelf kit.old.store).peak ((M.shelf kit.old.store).lent + 1) }
{
    play_recordings(
        rt,
        service,
        front,
        &mut kit.store,
        &mut kit.outlet,
        &mut kit.pacer,
        out,
        batch,
    )
}

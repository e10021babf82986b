//! Pumps and a ticker over memory and a scripted service.
ghost use Rattle.std.specs.Prelude.{◌≡◌, ℕ, List, [], ◌∷◌, false, IfOk, None, Some};
ghost use Rattle.satip_base.specs.Output.{empty};
ghost use Rattle.satip_base.specs.History.{entry};
ghost use Rattle.satip_plain.specs.Pumping.{Asking, Feeding, Finished, after_entry, tuned, moved, early_end, Pumps};
ghost use Rattle.satip_pump.specs.PumpRuns.{last_from};
ghost use Rattle.satip_pump.specs.Pauses.{idle_in, one_if_unmade, packets_in};
ghost use Rattle.satip_pump.specs.Readings.{held};

mod plain;
mod script;
mod sides;

use satip_base::{Out, Want};
use satip_desk::{PumpKit, TickKit};
use satip_fixtures::packet_bytes;
use satip_fixtures::texts::{is_joined, repeated};
use satip_memory::{MemoryClock, MemoryOutlet, MemoryPacer, MemoryStore};
use satip_plain::{Answer, Beat, Event, Work};
use satip_pump::{Batch, JobEnd, run_pump, run_ticker};
use satip_ts::Packet;
use script::{ASK, ENDED, Note, Scripted, TICK};
use std::alloc::Global;
use std::sync::Wait;
use std::test::Fail;

type Kit = PumpKit<MemoryStore, MemoryOutlet, MemoryPacer>;

const FIRST: Work = Work::Tune { mux: 1, tune: 1 };

const SECOND: Work = Work::Tune { mux: 2, tune: 2 };

// An answer that names the number that is read for leaves the recording as it is, another begins
// one.
fn rows_of_tunings(a: Packet, b: Packet)
    ensures told { after_entry (λ _. None) (Asking None)
        (entry 0 (Event.Ask 1) (Answer.Work (Work.Tune 1 5)) empty)
        ≡ Feeding (record { tune = 5; left = None }) }
    ensures idle { after_entry (λ _. None) (Asking None)
        (entry 0 (Event.Ask 1) (Answer.Work Work.Nothing) empty) ≡ Asking None }
    ensures stopped { after_entry (λ _. None) (Asking None)
        (entry 0 (Event.Ask 1) (Answer.Work Work.Stopping) empty) ≡ Finished }
    ensures same { tuned (λ _. None) (Some (record { tune = 5; left = Some (a ∷ []) })) 2 5
        ≡ record { tune = 5; left = Some (a ∷ []) } }
    ensures other { tuned (λ _. None) (Some (record { tune = 5; left = Some (a ∷ []) })) 2 6
        ≡ record { tune = 6; left = None } }
    ensures packet { moved (Event.Packet 1 5 a) (record { tune = 5; left = Some (a ∷ b ∷ []) })
        ≡ record { tune = 5; left = Some (b ∷ []) } }
    ensures early { early_end (Feeding (record { tune = 5; left = Some (a ∷ []) }))
        (entry 0 (Event.Ended 1 5) (Answer.Work Work.Nothing) empty) ≡ 1 }
    ensures late { early_end (Feeding (record { tune = 5; left = Some [] }))
        (entry 0 (Event.Ended 1 5) (Answer.Work Work.Nothing) empty) ≡ 0 }
    ensures last { last_from None (entry 0 (Event.Ask 1) (Answer.Work Work.Nothing) empty ∷ [])
        ≡ Some (Answer.Work Work.Nothing) }
{
    let _ = (a, b);
}

// A pump that is told to read one packet: it gives it, tells its end and is stopped.
fn row_of_a_run(a: Packet)
    ensures run { Pumps 1 (λ _. None) (Feeding (record { tune = 5; left = Some (a ∷ []) }))
        (entry 0 (Event.Packet 1 5 a) (Answer.Work (Work.Tune 1 5)) empty
        ∷ entry 0 (Event.Ended 1 5) (Answer.Work Work.Nothing) empty
        ∷ entry 0 (Event.Ask 1) (Answer.Work Work.Stopping) empty ∷ []) Finished 0 }
{
    let _ = a;
}

// A pause is owed for 64 packets, and for each answer that there is nothing to do.
fn rows_of_pauses(a: Packet)
    ensures packets { packets_in (entry 0 (Event.Packet 1 5 a) (Answer.Work (Work.Tune 1 5)) empty
        ∷ entry 0 (Event.Ended 1 5) (Answer.Work Work.Nothing) empty ∷ []) ≡ 1 }
    ensures idle { idle_in (entry 0 (Event.Ended 1 5) (Answer.Work Work.Nothing) empty
        ∷ entry 0 (Event.Ask 1) (Answer.Work Work.Nothing) empty
        ∷ entry 0 (Event.Ask 1) (Answer.Work Work.Stopping) empty ∷ []) ≡ 2 }
    ensures ticked { one_if_unmade JobEnd.Stopped ≡ 0 }
    ensures unmade { one_if_unmade JobEnd.Spent ≡ 1 }
{
    let _ = a;
}

// At most one source is held.
fn rows_of_sources(a: Packet)
    ensures none { held {F = List ℕ} None ≡ 0 }
    ensures one { held (Some a) ≡ 1 }
{
    let _ = a;
}

fn kit(alloc: Global, store: MemoryStore, sends: &[u64]) -> Result<Kit, Fail>
    ensures free { IfOk result (λ kit. kit.outlet.held ≡ false) }
{
    Ok(PumpKit {
        store,
        outlet: MemoryOutlet::make(alloc, sends)?,
        pacer: MemoryPacer::new(),
    })
}

fn pump<R: Wait + Sync>(
    rt: &R,
    alloc: Global,
    service: &mut Scripted,
    kit: &mut Kit,
) -> Result<JobEnd, Want>
    requires free { kit.old.outlet.held ≡ false }
{
    let mut out = Out::make(alloc)?;
    let mut batch = Batch::make(alloc)?;
    Ok(run_pump(rt, service, 1, kit, &mut out, &mut batch))
}

// The kinds of the entries, a letter each; a packet of PID 2 in lower case.
fn letters(alloc: Global, notes: &[Note]) -> Result<Vec<u8>, Fail> {
    let mut letters = Vec::new(alloc);
    for note in notes {
        letters.push(letter(note))?;
    }
    Ok(letters)
}

fn letter(note: &Note) -> u8 {
    if let Some(packet) = note.packet {
        return if packet.pid() == 2 { b'p' } else { b'P' };
    }
    if note.kind == ASK {
        b'A'
    } else if note.kind == ENDED {
        b'E'
    } else {
        b'T'
    }
}

// What a pump is run over: how many packets of PID 1 the first multiplex's recording has, and of
// PID 2 the second's, sends that fail, another work from a call on, and where the service stops or
// has no more room.
#[derive(Clone, Copy)]
struct Case {
    first: usize,
    second: usize,
    sends: &'static [u64],
    later: Option<(usize, Work)>,
    stop: usize,
    room: usize,
}

// Recordings without a packet, and nothing that fails.
const WHOLE: Case = Case {
    first: 0,
    second: 0,
    sends: &[],
    later: None,
    stop: 0,
    room: usize::MAX,
};

// What a pump came to: its end, its entries, the last answer, the datagrams that left, its pauses,
// and how many sources are out, and were out at most.
#[derive(Drop)]
struct Pumped {
    end: JobEnd,
    entries: Vec<u8>,
    last: Option<Answer>,
    datagrams: usize,
    pauses: u64,
    lent: u64,
    peak: u64,
}

// Adds a multiplex's recording of so many packets of a PID.
fn add(
    alloc: Global,
    store: &mut MemoryStore,
    mux: u16,
    pid: u8,
    count: usize,
) -> Result<(), Fail> {
    let text = repeated(alloc, &[(packet_bytes(pid).as_slice(), count)])?;
    store.add(mux, &text, &[], &[])?;
    Ok(())
}

// The recordings of both multiplexes.
fn store_of(alloc: Global, case: &Case) -> Result<MemoryStore, Fail> {
    let mut store = MemoryStore::make(alloc, &[])?;
    add(alloc, &mut store, 1, 1, case.first)?;
    add(alloc, &mut store, 2, 2, case.second)?;
    Ok(store)
}

fn last_answer(notes: &[Note]) -> Option<Answer> {
    notes.last().map(|note| note.answer)
}

// What a pump that ended came to.
fn outcome(alloc: Global, notes: &[Note], kit: &Kit, end: JobEnd) -> Result<Pumped, Fail> {
    Ok(Pumped {
        end,
        entries: letters(alloc, notes)?,
        last: last_answer(notes),
        datagrams: kit.outlet.count(),
        pauses: kit.pacer.pauses(),
        lent: kit.store.lent(),
        peak: kit.store.peak(),
    })
}

fn run_case<R: Wait + Sync>(rt: &R, alloc: Global, case: &Case) -> Result<Pumped, Fail> {
    let mut kit = kit(alloc, store_of(alloc, case)?, case.sends)?;
    let mut service = Scripted::new(alloc, FIRST, case.later, case.stop).with_room(case.room);
    let end = pump(rt, alloc, &mut service, &mut kit)?;
    outcome(alloc, &service.notes, &kit, end)
}

// A case, and what a pump is to come to over it; a number is looked at where it is given.
#[derive(Clone, Copy)]
struct Row {
    name: &'static str,
    case: Case,
    end: JobEnd,
    entries: &'static [u8],
    datagrams: Option<usize>,
    pauses: Option<u64>,
    peak: Option<u64>,
}

const ROWS: &[Row] = &[
    Row {
        name: "a pump gives the packets of a recording",
        case: Case {
            first: 2,
            stop: 4,
            ..WHOLE
        },
        end: JobEnd::Stopped,
        entries: b"APPEA",
        datagrams: Some(2),
        pauses: Some(1),
        peak: None,
    },
    Row {
        name: "a pump that is stopped hands its source back",
        case: Case {
            first: 70,
            stop: 3,
            ..WHOLE
        },
        end: JobEnd::Stopped,
        entries: b"APPP",
        datagrams: None,
        pauses: None,
        peak: None,
    },
    Row {
        name: "a new tuning drops the old packets",
        case: Case {
            first: 9,
            second: 2,
            later: Some((3, SECOND)),
            stop: 7,
            ..WHOLE
        },
        end: JobEnd::Stopped,
        entries: b"APPPppEA",
        datagrams: None,
        pauses: None,
        peak: Some(1),
    },
    Row {
        name: "a pump ends where there is no memory",
        case: Case {
            first: 9,
            stop: 99,
            room: 3,
            ..WHOLE
        },
        end: JobEnd::Want,
        entries: b"APP",
        datagrams: Some(2),
        pauses: None,
        peak: None,
    },
];

// Whether a pump came to the numbers that a row gives.
fn has_numbers(row: &Row, seen: &Pumped) -> bool {
    seen.datagrams == row.datagrams.unwrap_or(seen.datagrams)
        && seen.pauses == row.pauses.unwrap_or(seen.pauses)
        && seen.peak == row.peak.unwrap_or(seen.peak)
}

// Whether a pump came to what its row says, with no source out, and its last answer told it to stop
// just where it ended so.
fn is_met(row: &Row, seen: &Pumped) -> bool {
    let is_stopped = seen.last == Some(Answer::Work(Work::Stopping));
    seen.end == row.end
        && is_stopped == (row.end == JobEnd::Stopped)
        && seen.entries.as_slice() == row.entries
        && seen.lent == 0
        && has_numbers(row, seen)
}

#[test]
fn pumps_come_to_what_their_rows_say(rt: HostRuntime) -> Result<(), Fail> {
    for row in ROWS {
        let seen = run_case(&rt, rt.alloc(), &row.case)?;
        let name = row.name;
        assert!(rt; is_met(row, &seen), "{name}");
    }
    Ok(())
}

#[test]
fn a_pump_gives_130_packets_in_bursts(rt: HostRuntime) -> Result<(), Fail> {
    let case = Case {
        sends: &[3],
        first: 130,
        stop: 132,
        ..WHOLE
    };
    let packets = [b'P'; 130];
    let texts = [b"A".as_slice(), packets.as_slice(), b"EA".as_slice()];
    let seen = run_case(&rt, rt.alloc(), &case)?;
    assert!(rt; is_joined(&seen.entries, &texts));
    // the third datagram couldn't be sent
    assert!(rt; (seen.end, seen.datagrams, seen.pauses) == (JobEnd::Stopped, 129, 3));
    Ok(())
}

// What a ticker came to: its end, its entries and its pauses.
#[derive(Drop)]
struct Ticked {
    end: JobEnd,
    notes: Vec<Note>,
    pauses: u64,
}

// A ticker whose clock shows these moments, over a service that stops at a call.
fn run_ticks<R: Wait + Sync>(
    rt: &R,
    alloc: Global,
    moments: &[u64],
    stop: usize,
) -> Result<Ticked, Fail> {
    let mut out = Out::make(alloc)?;
    let mut kit = TickKit {
        clock: MemoryClock::make(alloc, moments)?,
        outlet: MemoryOutlet::make(alloc, &[])?,
        pacer: MemoryPacer::new(),
    };
    let mut service = Scripted::new(alloc, Work::Nothing, None, stop);
    let end = run_ticker(rt, &mut service, &mut kit, &mut out);
    Ok(Ticked {
        end,
        notes: service.notes,
        pauses: kit.pacer.pauses(),
    })
}

// Whether the entries are ticks at these moments.
fn are_ticks_at(notes: &[Note], moments: &[u64]) -> bool {
    for (note, moment) in notes.iter().zip(moments) {
        if note.kind != TICK || note.number != *moment {
            return false;
        }
    }
    notes.len() == moments.len()
}

#[test]
fn a_ticker_ticks_until_it_is_stopped(rt: HostRuntime) -> Result<(), Fail> {
    let seen = run_ticks(&rt, rt.alloc(), &[5, 7, 6], 2)?;
    assert!(rt; (seen.end, seen.pauses) == (JobEnd::Stopped, 3));
    assert!(rt; are_ticks_at(&seen.notes, &[5, 7, 6]));
    assert!(rt; last_answer(&seen.notes) == Some(Answer::Beat(Beat::Stopping)));
    Ok(())
}

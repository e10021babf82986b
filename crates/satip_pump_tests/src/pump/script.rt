//! A one-thread service that answers pumps and a ticker as it is told beforehand.
ghost use Rattle.std.proofs.Common.{rules};
ghost use Rattle.std.proofs.lemmas.Grind.{common_steps};
ghost use Rattle.std.specs.Prelude.{◌≡◌, ◌∷◌, ◌++◌, [], map, true, false, IsTrue, IfSome, MatchResult, refl};
ghost use Rattle.satip_base.specs.History.{entry};
ghost use Rattle.satip_plain.specs.Suits.{Suits};
ghost use Rattle.satip_pump_tests.specs.PumpScripts.{known_of, event_of, item_of, out_of, AsksOrTicks, test_setting};

use satip_base::{Address, Out};
use satip_plain::{Answer, Beat, Event, Lot, Service, ServiceFault, Work};
use satip_ts::Packet;
use std::alloc::Global;

const CLIENT: Address = Address {
    ip: 0x7f00_0001,
    port: 1400,
};

pub(crate) const ASK: u8 = 0;

pub(crate) const ENDED: u8 = 1;

pub(crate) const TICK: u8 = 2;

// An entry: a packet's, which sends a datagram, or one of the other kinds. The number is a
// tuning's, or a moment.
#[derive(Clone, Copy, Debug, PartialEq, Eq)]
pub(crate) struct Note {
    pub kind: u8,
    pub front: u16,
    pub number: u64,
    pub packet: Option<Packet>,
    pub answer: Answer,
    pub sends: bool,
}

// What it answers: work until the recording is ended, other work from a call on, and that it stops
// from a call on, counted from 0.
#[derive(Drop)]
pub(crate) struct Scripted {
    pub notes: Vec<Note>,
    work: Work,
    ended: bool,
    later: Option<(usize, Work)>,
    stop: usize,
    room: usize,
}

// An entry that has this event and answer.
fn note_of(event: &Event, answer: Answer) -> Option<Note>
    ensures event { IfSome result (λ n. event_of n.kind n.front n.number n.packet ≡ event.now) }
    ensures answer { IfSome result (λ n. n.answer ≡ answer) }
    ensures suits { IfSome result (λ _. AsksOrTicks event.now) }
{
    let note = Note {
        kind: ASK,
        front: 0,
        number: 0,
        packet: None,
        answer,
        sends: false,
    };
    match event {
        Event::Ask { front } => Some(Note {
            front: *front,
            ..note
        }),
        Event::Packet {
            front,
            tune,
            packet,
        } => Some(Note {
            front: *front,
            number: *tune,
            packet: Some(*packet),
            sends: true,
            ..note
        }),
        Event::Ended { front, tune } => Some(Note {
            kind: ENDED,
            front: *front,
            number: *tune,
            ..note
        }),
        Event::Tick { now } => Some(Note {
            kind: TICK,
            number: *now,
            ..note
        }),
        _ => None,
    }
}

// Appends an entry; `false` where there is no memory for it.
fn keep(notes: &mut Vec<Note>, note: Note) -> bool
    ensures kept { IsTrue result → notes.new.items ≡ notes.old.items ++ note ∷ [] }
    ensures same { result ≡ false → notes.new.items ≡ notes.old.items }
{
    let packet: Option<Packet> = note.packet;
    let answer: Answer = note.answer;
    notes
        .push(Note {
            packet,
            answer,
            ..note
        })
        .is_ok()
}

fn write_to(out: &mut Out, sends: bool)
    ensures out { out.new ≡ out_of sends }
{
    out.clear();
    if sends {
        out.begin(CLIENT);
    }
}

impl Scripted {
    pub(crate) fn new(
        alloc: Global,
        work: Work,
        later: Option<(usize, Work)>,
        stop: usize,
    ) -> Scripted {
        Scripted {
            notes: Vec::new(alloc),
            work,
            ended: false,
            later,
            stop,
            room: usize::MAX,
        }
    }

    // It has no memory for more entries than these.
    pub(crate) fn with_room(self, room: usize) -> Scripted {
        let Scripted {
            notes,
            work,
            ended,
            later,
            stop,
            room: _,
        } = self;
        Scripted {
            notes,
            work,
            ended,
            later,
            stop,
            room,
        }
    }

    fn next_work(&mut self, event: &Event) -> Work
        ensures same { self.new.notes ≡ self.old.notes }
    {
        let call = self.notes.len();
        if let Some((at, work)) = self.later {
            if call == at {
                self.work = work;
                self.ended = false;
            }
        }
        if let Event::Ended { front: _, tune: _ } = event {
            self.ended = true;
        }
        if call >= self.stop {
            return Work::Stopping;
        }
        if self.ended {
            return Work::Nothing;
        }
        self.work
    }

    fn answer(&mut self, event: &Event) -> Answer
        ensures suits { AsksOrTicks event.now → Suits event.now result }
        ensures same { self.new.notes ≡ self.old.notes }
    {
        if let Event::Tick { now: _ } = event {
            if self.notes.len() >= self.stop {
                return Answer::Beat(Beat::Stopping);
            }
            return Answer::Beat(Beat::Going);
        }
        Answer::Work(self.next_work(event))
    }

    // Makes an event.
    fn make(&mut self, event: &Event, out: &mut Out) -> Result<Answer, ServiceFault>
        ensures made { MatchResult result
            (λ answer. (map (λ n. item_of n.kind n.front n.number n.packet n.answer n.sends)
            self.new.notes.items ≡ map (λ n. item_of n.kind n.front n.number n.packet n.answer
            n.sends) self.old.notes.items ++ entry 0 event.now answer out.new ∷ [])
            × Suits event.now answer)
            (λ fault. (self.new.notes.items ≡ self.old.notes.items) × (fault ≡ ServiceFault.Want)) }
    {
        if self.notes.len() >= self.room {
            return Err(ServiceFault::Want);
        }
        let answer = self.answer(event);
        let Some(note) = note_of(event, answer) else {
            return Err(ServiceFault::Want);
        };
        write_to(out, note.sends);
        if keep(&mut self.notes, note) {
            return Ok(answer);
        }
        Err(ServiceFault::Want)
    }
}

impl Service for Scripted {
    type Room = Event;

    ghost setting = { λ _. test_setting };

    ghost legal = { λ _ _. Unit {0} };

    ghost known = { λ s. known_of (map (λ n. item_of n.kind n.front n.number n.packet n.answer
        n.sends) s.notes.items) };

    ghost may_want = { λ _. true };

    ghost same = { λ _ _. Unit {0} };

    ghost is_legal = { λ _. tt };

    ghost is_short = { λ s. let x = s.notes.ok in let y = s.notes.small in Prim.search
        (rules, common_steps) };

    ghost same_self = { λ _. tt };

    ghost same_then = { λ _ _ _ _ _. tt };

    ghost same_setting = { λ _ _ _. refl };

    ghost same_want = { λ _ _ _. refl };

    fn room() -> Event {
        Event::Stop
    }

    fn call(&mut self, event: &Event, out: &mut Out) -> Result<Answer, ServiceFault> {
        self.make(event, out)
    }

    fn burst<L: Lot>(
        &mut self,
        lot: &mut L,
        room: &mut Event,
        out: &mut Out,
    ) -> Result<(), ServiceFault> {
        for made in 0..64u32 {
            if !lot.next(room) {
                return Ok(());
            }
            let _ = made;
            match self.make(room, out) {
                Ok(answer) => lot.took(&answer, out),
                Err(fault) => return Err(fault),
            }
        }
        Ok(())
    }
}

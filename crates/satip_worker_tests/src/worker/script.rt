//! A one-thread service that answers the events of connections as it is told beforehand.
ghost use Rattle.std.specs.Prelude.{◌≡◌, ◌≤◌, ◌∷◌, ◌++◌, [], length, map, true, false, IsTrue, IfSome, MatchResult, refl};
ghost use Rattle.satip_base.specs.Output.{Wrote, empty};
ghost use Rattle.satip_base.specs.History.{entry};
ghost use Rattle.satip_plain.specs.Suits.{Suits, closes};
ghost use Rattle.satip_worker_tests.specs.WorkerScripts.{known_of, event_of, out_of, begun, reply_text, test_setting, all_noted, short_notes};

use satip_base::{Address, Draw, Out, Peer, SessionId};
use satip_http::HttpRequest;
use satip_plain::{Answer, Closed, Event, GetAnswer, Lot, Pulled, Replied, Service, ServiceFault};
use satip_rtsp::{Refusal, Request};

const CLIENT: Address = Address {
    ip: 0x7f00_0001,
    port: 1400,
};

const SESSION: SessionId = SessionId { count: 1, word: 7 };

const NO_DRAW: Draw = Draw {
    word: 0,
    ssrc: 0,
    first: 0,
};

// An entry: its event by its parts, its answer, and what was written.
#[derive(Clone, Copy, Debug, PartialEq, Eq)]
pub(crate) struct Note {
    pub request: Option<Request>,
    pub get: Option<HttpRequest>,
    pub closes: bool,
    pub peer: Peer,
    pub draw: Draw,
    pub session: SessionId,
    pub answer: Answer,
    pub code: u8,
    pub sends: bool,
}

// The entries, of which there is room for four.
#[derive(Drop)]
pub(crate) struct Notes {
    first: Option<Note>,
    second: Option<Note>,
    third: Option<Note>,
    fourth: Option<Note>,
}

// Whether a GET starts a session, what its pulls find, whether each call sends a datagram, and how
// many entries are made at most.
#[derive(Drop)]
pub(crate) struct Scripted {
    notes: Notes,
    starts: bool,
    pulls: [Pulled; 4],
    next: usize,
    sends: bool,
    room: u8,
    count: u8,
}

fn closing(request: &Request) -> bool
    ensures closes { result ≡ closes request.now.refusal }
{
    match &request.refusal {
        Some(Refusal::Broken) => true,
        Some(Refusal::TooLong) => true,
        Some(Refusal::NoCseq) => false,
        Some(Refusal::Version) => false,
        Some(Refusal::Method) => false,
        Some(Refusal::Require(_)) => false,
        Some(Refusal::Target) => false,
        Some(Refusal::Query(_)) => false,
        None => false,
    }
}

fn code_of(answer: Answer) -> u8 {
    match answer {
        Answer::Replied(
            Replied {
                status: _,
                closing: false,
            },
        ) => 1,
        Answer::Replied(_) => 2,
        Answer::Get(GetAnswer::Started(_)) => 3,
        Answer::Get(GetAnswer::Refused(_)) => 2,
        Answer::Pulled(Pulled::Bytes(_)) => 1,
        _ => 0,
    }
}

fn note_of(event: &Event, answer: Answer, code: u8, sends: bool) -> Option<Note>
    ensures event { IfSome result (λ n. event_of n.request n.get n.closes n.peer n.draw n.session
        ≡ event.now) }
    ensures answer { IfSome result (λ n. n.answer ≡ answer) }
    ensures code { IfSome result (λ n. n.code ≡ code) }
    ensures sends { IfSome result (λ n. n.sends ≡ sends) }
{
    let note = Note {
        request: None,
        get: None,
        closes: false,
        peer: Peer { ip: 0 },
        draw: NO_DRAW,
        session: SESSION,
        answer,
        code,
        sends,
    };
    match event {
        Event::Request {
            peer,
            draw,
            request,
        } => Some(Note {
            request: Some(*request),
            peer: *peer,
            draw: *draw,
            ..note
        }),
        Event::Get {
            peer,
            draw,
            request,
        } => Some(Note {
            get: Some(*request),
            peer: *peer,
            draw: *draw,
            ..note
        }),
        Event::Pull { session } => Some(Note {
            session: *session,
            ..note
        }),
        Event::Close { session } => Some(Note {
            closes: true,
            session: *session,
            ..note
        }),
        _ => None,
    }
}

// Appends an entry; `false` where there is no room for it.
fn keep(notes: &mut Notes, note: Note) -> bool
    ensures kept { IsTrue result → all_noted notes.new.first notes.new.second notes.new.third
        notes.new.fourth
        ≡ all_noted notes.old.first notes.old.second notes.old.third notes.old.fourth ++ note ∷ [] }
    ensures same { result ≡ false → notes.new ≡ notes.old }
{
    match (&notes.first, &notes.second, &notes.third, &notes.fourth) {
        (None, None, None, None) => {
            notes.first = Some(note);
            true
        }
        (Some(_), None, None, None) => {
            notes.second = Some(note);
            true
        }
        (Some(_), Some(_), None, None) => {
            notes.third = Some(note);
            true
        }
        (Some(_), Some(_), Some(_), None) => {
            notes.fourth = Some(note);
            true
        }
        _ => false,
    }
}

fn begin(out: &mut Out, sends: bool)
    ensures out { out.new ≡ begun sends }
{
    out.clear();
    if sends {
        out.begin(CLIENT);
    }
}

#[tactic(auto, unfolding(crate::specs::WorkerScripts::reply_text))]
fn write_reply(out: &mut Out, code: u8)
    requires room { 131072 ≤ out.old.reply_spare }
    ensures wrote { Wrote out.old (reply_text code) out.new }
{
    if code == 1 {
        out.write(b"RTSP/1.0 200 OK\r\n\r\n");
    } else if code == 2 {
        out.write(b"RTSP/1.0 400 Bad Request\r\n\r\n");
    } else if code == 3 {
        out.write(b"HTTP/1.1 200 OK\r\n");
    } else {
        out.write(b"");
    }
}

fn write_to(out: &mut Out, code: u8, sends: bool)
    ensures out { out.new ≡ out_of code sends }
{
    begin(out, sends);
    write_reply(out, code);
}

fn kind_of(note: &Option<Note>) -> u8 {
    let Some(note) = note else {
        return b'-';
    };
    if note.request.is_some() {
        return b'R';
    }
    if note.get.is_some() {
        return b'G';
    }
    if note.closes {
        return b'C';
    }
    b'P'
}

fn draw_of(note: &Option<Note>) -> Option<Draw> {
    note.as_ref().map(|note| note.draw)
}

impl Scripted {
    pub(crate) fn new(starts: bool, pulls: [Pulled; 4], sends: bool, room: u8) -> Scripted {
        Scripted {
            notes: Notes {
                first: None,
                second: None,
                third: None,
                fourth: None,
            },
            starts,
            pulls,
            next: 0,
            sends,
            room,
            count: 0,
        }
    }

    // The kinds of the entries: R for a request, G for a GET, P for a pull and C for a close.
    pub(crate) fn kinds(&self) -> [u8; 4] {
        [
            kind_of(&self.notes.first),
            kind_of(&self.notes.second),
            kind_of(&self.notes.third),
            kind_of(&self.notes.fourth),
        ]
    }

    // The draw of the entry at a place, from 0.
    pub(crate) fn draw(&self, place: usize) -> Option<Draw> {
        match place {
            0 => draw_of(&self.notes.first),
            1 => draw_of(&self.notes.second),
            2 => draw_of(&self.notes.third),
            _ => draw_of(&self.notes.fourth),
        }
    }

    fn pull(&mut self) -> Pulled
        ensures same { self.new.notes ≡ self.old.notes }
    {
        let found = self.pulls.get(self.next).copied();
        self.next = self.next.saturating_add(1);
        found.unwrap_or(Pulled::Gone)
    }

    fn answer(&mut self, event: &Event) -> Option<Answer>
        ensures suits { IfSome result (λ answer. Suits event.now answer) }
        ensures same { self.new.notes ≡ self.old.notes }
    {
        match event {
            Event::Request {
                peer: _,
                draw: _,
                request,
            } => Some(Answer::Replied(Replied {
                status: 200,
                closing: closing(request),
            })),
            Event::Get {
                peer: _,
                draw: _,
                request: _,
            } => {
                if self.starts {
                    return Some(Answer::Get(GetAnswer::Started(SESSION)));
                }
                Some(Answer::Get(GetAnswer::Refused(503)))
            }
            Event::Pull { session: _ } => Some(Answer::Pulled(self.pull())),
            Event::Close { session: _ } => Some(Answer::Closed(Closed::Yes)),
            _ => None,
        }
    }

    // Makes an event.
    fn make(&mut self, event: &Event, out: &mut Out) -> Result<Answer, ServiceFault>
        ensures made { MatchResult result
            (λ answer. (map (λ n. entry 0 (event_of n.request n.get n.closes n.peer n.draw
            n.session) n.answer (out_of n.code n.sends))
            (all_noted self.new.notes.first self.new.notes.second self.new.notes.third
            self.new.notes.fourth)
            ≡ map (λ n. entry 0 (event_of n.request n.get n.closes n.peer n.draw n.session) n.answer
            (out_of n.code n.sends)) (all_noted self.old.notes.first self.old.notes.second
            self.old.notes.third self.old.notes.fourth) ++ entry 0 event.now answer out.new ∷ [])
            × Suits event.now answer)
            (λ fault. (self.new.notes ≡ self.old.notes) × (fault ≡ ServiceFault.Want)) }
    {
        if self.count >= self.room {
            return Err(ServiceFault::Want);
        }
        let Some(answer) = self.answer(event) else {
            return Err(ServiceFault::Want);
        };
        let Some(note) = note_of(event, answer, code_of(answer), self.sends) else {
            return Err(ServiceFault::Want);
        };
        write_to(out, note.code, note.sends);
        self.count = self.count.saturating_add(1);
        if keep(&mut self.notes, note) {
            return Ok(answer);
        }
        Err(ServiceFault::Want)
    }
}

impl Service for Scripted {
    type Room = Event;

    ghost setting = { λ _. test_setting };

    ghost legal = { λ _ _. Unit {0} };

    ghost known = { λ s. known_of (map (λ n. entry 0
        (event_of n.request n.get n.closes n.peer n.draw n.session) n.answer
        (out_of n.code n.sends)) (all_noted s.notes.first s.notes.second s.notes.third
        s.notes.fourth)) };

    ghost may_want = { λ _. true };

    ghost same = { λ _ _. Unit {0} };

    ghost is_legal = { λ _. tt };

    ghost is_short = { λ s. short_notes (λ n. entry 0
        (event_of n.request n.get n.closes n.peer n.draw n.session) n.answer
        (out_of n.code n.sends)) s.notes.first s.notes.second s.notes.third s.notes.fourth };

    ghost same_self = { λ _. tt };

    ghost same_then = { λ _ _ _ _ _. tt };

    ghost same_setting = { λ _ _ _. refl };

    ghost same_want = { λ _ _ _. refl };

    fn room() -> Event {
        Event::Stop
    }

    fn call(&mut self, event: &Event, out: &mut Out) -> Result<Answer, ServiceFault> {
        self.make(event, out)
    }

    // It makes no bursts.
    fn burst<L: Lot>(
        &mut self,
        lot: &mut L,
        room: &mut Event,
        _out: &mut Out,
    ) -> Result<(), ServiceFault> {
        if lot.next(room) {
            return Err(ServiceFault::Want);
        }
        Ok(())
    }
}

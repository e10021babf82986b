//! `Journal`, a caller that writes down its entries.
ghost use Rattle.std.specs.Prelude.{◌≡◌, false};
ghost use Rattle.satip_journal.specs.Owning.{KnowsOwn, knows_own_prop};
ghost use Rattle.satip_journal.specs.Logs.{Logs};

use satip_base::{Out, Put, Spent};
use satip_desk::JobSink;
use satip_entry_writer::{LineRoom, write_entry};
use satip_plain::{Answer, Event, Lot, Service, ServiceFault};
use satip_shared::Caller;
use std::sync::Wait;

/// A caller of the shared server, and a sink that gets a line of each of its entries. A line has
/// the entry's place in the history, the number of the caller's job, and the entry's record. After
/// a put that failed the sink gets nothing more.
#[derive(Drop)]
pub struct Journal<'a, R: Wait + Sync, K: JobSink> {
    /// The caller.
    pub caller: Caller<'a, R>,
    /// The number of the caller's job, which may differ from the caller's number.
    pub number: u64,
    /// The sink of its lines.
    pub sink: K,
    /// The room for one line.
    pub line: LineRoom,
    /// Whether a put failed.
    pub failed: bool,
    pub ghost own: { KnowsOwn caller.pass } by { knows_own_prop caller.pass },
}

impl<'a, R: Wait + Sync, K: JobSink> Journal<'a, R, K> {
    /// Creates the journal of the job of this number, before any line.
    pub fn new(caller: Caller<'a, R>, number: u64, sink: K, line: LineRoom) -> Journal<'a, R, K>
        requires own { KnowsOwn caller.pass }
        ensures server { result.caller.server.now ≡ caller.entry.server.now }
        ensures pass { result.caller.pass ≡ caller.entry.pass }
        ensures number { result.number ≡ number }
        ensures job { K.job result.sink ≡ K.job sink }
        ensures sink { K.drain result.sink ≡ K.drain sink }
        ensures open { result.failed ≡ false }
    {
        Journal {
            caller,
            number,
            sink,
            line,
            failed: false,
        }
    }
}

// Puts a line. Returns whether that failed.
pub(crate) fn fails_to_put<K: JobSink>(sink: &mut K, line: &[u8]) -> bool
    ensures job { K.job sink.new ≡ K.job sink.old }
    ensures logs { Logs K.tells (K.drain sink.old) (K.drain sink.new) false result line.now }
{
    match sink.put(line) {
        Put::Whole => false,
        Put::Failed => true,
    }
}

impl<'a, R: Wait + Sync, K: JobSink> Service for Journal<'a, R, K> {
    type Room = Event;

    ghost use Rattle.std.specs.Prelude.{[], ◌∷◌, MatchResult, refl};
    ghost use Rattle.satip_base.specs.History.{entry};
    ghost use Rattle.satip_plain.specs.Histories.{Legal};
    ghost use Rattle.satip_plain.specs.Calls.{Called, Bursts};
    ghost use Rattle.satip_shared.specs.Calling.{known_by, same_caller_setting};
    ghost use Rattle.satip_turn.specs.Shown.{Knows, Turned, Looked};
    ghost use Rattle.satip_journal.specs.Keeping.{kept, SameJournal};
    ghost use Rattle.satip_journal.specs.Continuing.{same_journal, same_journal_then};

    ghost setting = { λ s. s.caller.server.now.setting };

    ghost legal = { λ c h. Legal c h };

    ghost known = { λ s. known_by s.caller.pass };

    ghost may_want = { λ _. false };

    ghost same = { λ s t. SameJournal K.tells
        (kept s.caller.server.now s.caller.pass s.number (K.job s.sink) (K.drain s.sink) s.failed)
        (kept t.caller.server.now t.caller.pass t.number (K.job t.sink) (K.drain t.sink) t.failed) };

    ghost is_legal = { λ s. s.caller.lawful };

    ghost is_short = { λ s. s.caller.short };

    ghost same_self = { λ s. same_journal K.tells
        (kept s.caller.server.now s.caller.pass s.number (K.job s.sink) (K.drain s.sink) s.failed) };

    ghost same_then = { λ r s t a b. same_journal_then K.tells
        (kept r.caller.server.now r.caller.pass r.number (K.job r.sink) (K.drain r.sink) r.failed)
        (kept s.caller.server.now s.caller.pass s.number (K.job s.sink) (K.drain s.sink) s.failed)
        (kept t.caller.server.now t.caller.pass t.number (K.job t.sink) (K.drain t.sink) t.failed)
        a b };

    ghost same_setting = { λ s t a. same_caller_setting s.caller.server.now s.caller.pass
        t.caller.server.now t.caller.pass a.caller };

    ghost same_want = { λ _ _ _. refl };

    fn room() -> Event {
        Event::Stop
    }

    /// Executes the event, and then puts the line of its entry, unless a put failed before. A put
    /// that fails doesn't change the answer.
    fn call(&mut self, event: &Event, out: &mut Out) -> Result<Answer, ServiceFault>
        ensures same { SameJournal K.tells
            (kept self.old.caller.server.now self.old.caller.pass self.old.number
            (K.job self.old.sink) (K.drain self.old.sink) self.old.failed)
            (kept self.new.caller.server.now self.new.caller.pass self.new.number
            (K.job self.new.sink) (K.drain self.new.sink) self.new.failed) }
        ensures called { Called false (known_by self.old.caller.pass)
            (known_by self.new.caller.pass) event.now out.new result }

        // the entry has the number of the caller's pass
        ensures turned { MatchResult result
            (λ answer. Turned self.old.caller.pass self.new.caller.pass
            (entry self.old.caller.pass.number event.now answer out.new ∷ []))
            (λ _. Looked self.old.caller.pass self.new.caller.pass) }
        ensures knows { Knows (Legal self.old.caller.server.now.setting) self.new.caller.pass }
    {
        // lent whole, since the contracts speak of the caller as a whole
        let caller = &mut self.caller;
        match caller.server.call(caller.rt, &mut caller.pass, event, out) {
            Ok(answer) => {
                let place = caller.pass.place() - 1;
                write_entry(place, self.number, event, &answer, out, &mut self.line);
                if self.failed {
                    return Ok(answer);
                }
                self.failed = fails_to_put(&mut self.sink, self.line.bytes());
                Ok(answer)
            }
            Err(Spent) => Err(ServiceFault::Spent),
        }
    }

    /// Executes the events of the lot as calls one after another, each with its line.
    fn burst<L: Lot>(
        &mut self,
        lot: &mut L,
        room: &mut Event,
        out: &mut Out,
    ) -> Result<(), ServiceFault> {
        for made in 0..64u32 {
            if !lot.next(room) {
                return Ok(());
            }
            let _ = made;
            match self.call(room, out) {
                Ok(answer) => lot.took(&answer, out),
                Err(fault) => return Err(fault),
            }
        }
        Ok(())
    }
}

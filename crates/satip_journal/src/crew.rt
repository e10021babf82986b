//! Journals of callers that are split off from one and joined into it again.
ghost use Rattle.std.specs.Prelude.{◌≡◌, false};
ghost use Rattle.satip_plain.specs.declared.events.Event.TheVariants.{Stop};
ghost use Rattle.satip_plain.specs.Histories.{Legal};
ghost use Rattle.satip_entry_writer.specs.Lines.{start_line};
ghost use Rattle.satip_journal.specs.Gears.{gear_of};
ghost use Rattle.satip_journal.specs.Keeping.{kept, SameJournal};
ghost use Rattle.satip_journal.specs.Logs.{Logs};

use crate::journal::{Journal, fails_to_put};
use satip_base::Out;
use satip_desk::JobSink;
use satip_entry_writer::{LineRoom, write_start};
use satip_plain::{Answer, Event, Service};
use satip_shared::{Caller, Crew, ServeEnd};
use std::sync::Wait;

/// The parts of a job's journal without its caller: the job's number, the sink, the room of its
/// lines, and whether a put failed.
#[derive(Drop)]
pub struct JournalGear<K> {
    /// The job's number.
    pub number: u64,
    /// The sink of its lines.
    pub sink: K,
    /// The room for one line.
    pub line: LineRoom,
    /// Whether a put failed.
    pub failed: bool,
}

impl<K: JobSink> JournalGear<K> {
    /// Creates the journal of the job of this number, before any line.
    pub fn new(number: u64, sink: K, line: LineRoom) -> JournalGear<K>
        ensures number { result.number ≡ number }
        ensures sink { result.sink ≡ sink }
        ensures open { result.failed ≡ false }
    {
        JournalGear {
            number,
            sink,
            line,
            failed: false,
        }
    }

    /// Puts the line of the moment at which the history starts, in milliseconds.
    pub fn start(&mut self, now: u64)
        requires open { self.old.failed ≡ false }
        ensures number { self.new.number ≡ self.old.number }
        ensures job { K.job self.new.sink ≡ K.job self.old.sink }
        ensures logs { Logs K.tells (K.drain self.old.sink) (K.drain self.new.sink) false
            self.new.failed (start_line now) }
    {
        write_start(now, &mut self.line);
        self.failed = fails_to_put(&mut self.sink, self.line.bytes());
    }
}

impl<'a, R: Wait + Sync, K: JobSink + Send + Drop> Crew for Journal<'a, R, K> {
    type Asks = Event;

    type Answers = Answer;

    type Gear = JournalGear<K>;

    ghost cell = { λ s. s.caller.server.now };

    ghost pass = { λ s. s.caller.pass };

    ghost gear = { λ s. gear_of s.number s.sink s.line s.failed };

    ghost legal = { λ c h. Legal c h };

    ghost is_stop = { λ e. e.event ≡ Stop };

    ghost goes_on = { λ s t. SameJournal K.tells
        (kept s.caller.server.now s.caller.pass s.number (K.job s.sink) (K.drain s.sink) s.failed)
        (kept t.caller.server.now t.caller.pass t.number (K.job t.sink) (K.drain t.sink) t.failed) };

    fn split(&mut self, given: JournalGear<K>) -> Self {
        let JournalGear {
            number,
            sink,
            line,
            failed,
        } = given;
        let caller = &mut self.caller;
        let pass = caller.server.split(&mut caller.pass);
        Journal {
            caller: Caller {
                rt: caller.rt,
                server: caller.server,
                pass,
            },
            number,
            sink,
            line,
            failed,
        }
    }

    fn join(&mut self, other: Self) -> JournalGear<K> {
        let Journal {
            caller: joined,
            number,
            sink,
            line,
            failed,
        } = other;
        let Caller {
            rt: _,
            server: _,
            pass,
        } = joined;
        let caller = &mut self.caller;
        caller.server.join(&mut caller.pass, pass);
        JournalGear {
            number,
            sink,
            line,
            failed,
        }
    }

    /// Executes the event `Stop`, and puts its line. It waits.
    fn stop(&mut self, out: &mut Out) -> ServeEnd {
        match self.call(&Event::Stop, out) {
            Ok(_answer) => ServeEnd::Served,
            Err(_fault) => ServeEnd::HistoryFull,
        }
    }
}

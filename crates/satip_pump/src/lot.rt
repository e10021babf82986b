//! The packets of a burst.
ghost use Rattle.std.specs.Prelude.{◌≡◌, ◌++◌, true, not, option_map, refl};
ghost use Rattle.satip_pump.specs.Loads.{Took, given_event, may_give, is_of, took_none, datagrams_left};
ghost use Rattle.satip_plain.specs.Pumping.{work_told};

use crate::batch::Batch;
use crate::buffer::Buffer;
use satip_base::Out;
use satip_plain::{Answer, Event, Lot, Work};
use satip_ts::Packet;
use std::snapshot::Snapshot;

/// The least count of datagrams that are sent from the output of their event. That saves their copy
/// into the batch, and takes one turn more.
const MANY: usize = 4;

/// Gives the waiting packets as events of a front end for one tune number. It goes on while the
/// answers name that number and the batch has room for the datagrams of any event, until an event
/// has many datagrams. These stay in the event's output, and the others are in the batch.
#[derive(Drop)]
pub(crate) struct Load<'a> {
    pub front: u16,
    pub tune: u64,
    /// The work that the last answer named.
    pub work: Work,
    pub given: bool,
    pub ended: bool,
    /// Whether the datagrams of the last event stay in its output.
    pub is_left: bool,
    /// The output of the last event; the one before the burst if there was none.
    pub last: &'a mut Snapshot<Out>,
    pub buffer: &'a mut Buffer,
    pub batch: &'a mut Batch,
}

/// Returns the work that an answer names; an answer of another kind names none.
pub(crate) fn work_of(answer: &Answer) -> Work
    ensures work { result ≡ work_told answer.now }
{
    match answer {
        Answer::Work(work) => *work,
        _ => Work::Stopping,
    }
}

/// Returns whether the work is to read for this tune number.
pub(crate) fn is_for(work: Work, number: u64) -> bool
    ensures tune { result ≡ is_of number work }
{
    match work {
        Work::Tune { mux: _, tune } => tune == number,
        Work::Nothing => false,
        Work::Stopping => false,
    }
}

// Writes a packet's event over an event. If that is a packet's too, writes its fields alone: a whole
// event has 3 kB, since it may be a request, and all of it would be cleared and copied.
fn put_packet(event: &mut Event, front_now: u16, tune_now: u64, packet_now: Packet)
    ensures put { event.new ≡ Event.Packet front_now tune_now packet_now }
{
    match event {
        Event::Packet {
            front,
            tune,
            packet,
        } => {
            *front = front_now;
            *tune = tune_now;
            *packet = packet_now;
        }
        _ => {
            *event = Event::Packet {
                front: front_now,
                tune: tune_now,
                packet: packet_now,
            };
        }
    }
}

impl Load<'_> {
    // Returns the packet that is given next.
    fn next_packet(&self) -> Option<Packet>
        ensures next { option_map (Event.Packet self.now.front self.now.tune) result
            ≡ given_event true
            (may_give self.now.tune self.now.work self.now.batch.now (not self.now.is_left))
            self.now.front self.now.tune self.now.buffer.now.packets }
    {
        if !is_for(self.work, self.tune) || !self.batch.has_room() || self.is_left {
            return None;
        }
        self.buffer.first()
    }
}

impl Lot for Load<'_> {
    ghost given = { λ l. given_event l.given
        (may_give l.tune l.work l.batch.now (not l.is_left)) l.front l.tune l.buffer.now.packets };

    ghost ended = { λ l. l.ended };

    // the load still has the same buffer
    ghost has_taken = { λ f g ts. (g.buffer.ghost_name ≡ f.buffer.ghost_name) × Took
        (record {
          front = f.front;
          tune = f.tune;
          work = f.work;
          buffered = f.buffer.now;
          datagrams = f.batch.now.datagrams ++ datagrams_left f.is_left f.last.now.value;
        })
        (record {
          front = g.front;
          tune = g.tune;
          work = g.work;
          buffered = g.buffer.now;
          datagrams = g.batch.now.datagrams ++ datagrams_left g.is_left g.last.now.value;
        })
        ts };

    ghost took_last = { λ l o. l.last.now.value ≡ o };

    ghost none_taken = { λ l. (
      refl,
      took_none
          (record {
            front = l.front;
            tune = l.tune;
            work = l.work;
            buffered = l.buffer.now;
            datagrams = l.batch.now.datagrams ++ datagrams_left l.is_left l.last.now.value;
          }),
    ) };

    fn next(&mut self, event: &mut Event) -> bool {
        match self.next_packet() {
            Some(packet) => {
                self.given = true;
                put_packet(event, self.front, self.tune, packet);
                true
            }
            None => {
                self.given = false;
                self.ended = true;
                false
            }
        }
    }

    fn took(&mut self, answer: &Answer, out: &Out) {
        self.given = false;
        self.work = work_of(answer);
        self.buffer.pass();
        *self.last = Snapshot::of(out);
        let is_left = out.count() >= MANY;
        self.is_left = is_left;
        if !is_left {
            self.batch.append(out);
        }
    }
}

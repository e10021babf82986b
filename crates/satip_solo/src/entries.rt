//! Keeps the entries of a history.
ghost use Rattle.std.specs.Prelude.{◌≡◌, ◌+◌, ◌<◌, ◌≤◌, ◌∷◌, ◌++◌, if◌then◌else◌, [], List, length, vec_len, vec_capacity, IfSome, IsTrue, true, false, None};
ghost use Rattle.satip_base.specs.Output.{empty};
ghost use Rattle.satip_base.specs.History.{entry};
ghost use Rattle.satip_plain.specs.Histories.{Item};
ghost use Rattle.satip_core.specs.Serving.{StandsAfter};
ghost use Rattle.satip_solo.specs.Log.{is_at};
ghost use Rattle.satip_solo.specs.Inside.{Stopped};

use crate::copies::copy_out;
use satip_base::{Entry, Out, Served};
use satip_core::Server;
use satip_plain::{Answer, Beat, Event, copy_of};
use std::alloc::Global;

pub(crate) type Entries = Vec<Entry<Event, Answer, Out>>;

/// Makes room for two entries, and for the output of one of them. Returns None if it is out of
/// memory.
pub(crate) fn reserve(alloc: Global, entries: &mut Entries) -> Option<Out>
    ensures same { entries.new.items ≡ entries.old.items }
    ensures room { IfSome result (λ room. room ≡ empty) }
    ensures places { IfSome result (λ _. vec_len entries.new + 2 ≤ vec_capacity entries.new) }
{
    match entries.reserve(2) {
        Ok(()) => {}
        Err(_) => return None,
    }
    match Out::make(alloc) {
        Ok(room) => Some(room),
        Err(_) => None,
    }
}

// Keeps an entry in the room that was reserved for it.
fn keep(entries: &mut Entries, entry: Entry<Event, Answer, Out>)
    requires places { vec_len entries.old < vec_capacity entries.old }
    ensures kept { entries.new.items ≡ entries.old.items ++ entry ∷ [] }
    ensures places { vec_len entries.new ≡ vec_len entries.old + 1 }
    ensures capacity { vec_capacity entries.old ≤ vec_capacity entries.new }
{
    entries.push_reserved(entry);
}

/// Executes an event of caller 0, and keeps its entry in the room.
pub(crate) fn enter(
    server: &mut Server,
    entries: &mut Entries,
    event: &Event,
    out: &mut Out,
    mut room: Out,
) -> Answer
    requires room { room ≡ empty }
    requires places { vec_len entries.old < vec_capacity entries.old }
    ensures setting { server.new.setting ≡ server.old.setting }
    ensures stands { (h : List Item) → StandsAfter server.old h
        → StandsAfter server.new (h ++ entry 0 event.now result out.new ∷ []) }
    ensures kept { entries.new.items ≡ entries.old.items ++ entry 0 event.now result out.new ∷ [] }
{
    let answer = server.serve(event, out);
    copy_out(out, &mut room);
    keep(
        entries,
        Entry {
            caller: 0,
            event: copy_of(event),
            answer,
            out: room,
        },
    );
    answer
}

// Executes the Stop of caller 1, and keeps its entry in the room.
fn enter_stop(server: &mut Server, entries: &mut Entries, mut room: Out)
    requires places { vec_len entries.old < vec_capacity entries.old }
    ensures stopped { Stopped true server.old entries.old.items server.new entries.new.items }
    ensures places { vec_len entries.new ≡ vec_len entries.old + 1 }
    ensures capacity { vec_capacity entries.old ≤ vec_capacity entries.new }
{
    let _beat = server.stop(&mut room);
    keep(
        entries,
        Entry {
            caller: 1,
            event: Event::Stop,
            answer: Answer::Beat(Beat::Stopping),
            out: room,
        },
    );
}

// Tells whether the Stop comes before the call with this number.
fn is_due(stop: Option<u64>, calls: usize) -> bool
    ensures due { result ≡ is_at stop calls }
{
    match stop {
        Some(at) => at == calls as u64,
        None => false,
    }
}

/// Executes the Stop of caller 1 if it is due. Returns false if it is out of memory.
pub(crate) fn stop_where_due(
    alloc: Global,
    server: &mut Server,
    entries: &mut Entries,
    stop: &mut Option<u64>,
) -> bool
    requires places { vec_len entries.old + 2 ≤ vec_capacity entries.old }
    ensures stopped { IsTrue result
        → Stopped (is_at stop.old (length entries.old.items)) server.old entries.old.items
        server.new entries.new.items }
    ensures then_stop { IsTrue result → stop.new
        ≡ (if is_at stop.old (length entries.old.items) then None else stop.old) }
    ensures places { IsTrue result → vec_len entries.new < vec_capacity entries.new }
    ensures same { result ≡ false → (server.new ≡ server.old)
        × (entries.new.items ≡ entries.old.items) × (stop.new ≡ stop.old) }
{
    if !is_due(*stop, entries.len()) {
        return true;
    }
    let Ok(room) = Out::make(alloc) else {
        return false;
    };
    *stop = None;
    enter_stop(server, entries, room);
    true
}

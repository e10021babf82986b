//! Whole entries, read from the bytes of a record.

ghost use Rattle.std.specs.Prelude.{◌≡◌, ◌≢◌, ◌≤◌, ◌<◌, [], ◌++◌, length, IfSome, IsNone, None, Some};
ghost use Rattle.std.specs.Bool.{MatchBool};
ghost use Rattle.satip_base.specs.Output.{empty};
ghost use Rattle.satip_entry_writer.specs.Records.{record_text};
ghost use Rattle.satip_entry_reader.specs.Taking.{TakesDatagram, TakesDatagrams, TakesPayload, TakesReply};
ghost use Rattle.satip_entry_reader.specs.ReadingEntries.{IsNoRecord, entry_behind, datagram_read, datagrams_read, entry_read};

use crate::events::read_event;
use crate::reading::Reading;
use satip_base::limits::{EVENT_DATAGRAMS, REPLY_BYTES};
use satip_base::{Address, Out};
use satip_plain::{Answer, Event};

/// Reads the record of an entry. Returns its answer, and writes its event over `event`, and its
/// reply and its datagrams into `out`. Returns None exactly if the bytes are no record; `event` is
/// then unspecified, and `out` is empty. It takes no memory.
pub fn read_record(bytes: &[u8], event: &mut Event, out: &mut Out) -> Option<Answer>
    ensures right { IfSome result (λ answer. bytes.now ≡ record_text event.new answer out.new.reply
        out.new.datagrams) }
    ensures read { IfSome result (λ answer. entry_read bytes.now
        ≡ entry_behind event.new (Some answer) out.new []) }
    ensures none { IsNone result → IsNoRecord bytes.now }
    ensures empty { IsNone result → out.new ≡ empty }
{
    out.clear();
    let mut reading = Reading::new(bytes);
    let Some(answer) = read_entry(&mut reading, event, out) else {
        out.clear();
        return None;
    };
    if !is_end(&mut reading) {
        out.clear();
        return None;
    }
    Some(answer)
}

// Tells whether nothing is left to read.
fn is_end(bytes: &mut Reading<'_>) -> bool
    ensures end { MatchBool result (bytes.old ≡ []) (bytes.old ≢ []) }
{
    let Some(_byte) = bytes.read_u8() else {
        return true;
    };
    false
}

#[tactic(auto, unfolding(crate::specs::ReadingEntries::entry_read, crate::specs::ReadingEntries::read_datagram_list, crate::specs::ReadingEntries::read_counted, satip_entry_writer::specs::Records::record_text))]
fn read_entry(bytes: &mut Reading<'_>, event: &mut Event, out: &mut Out) -> Option<Answer>
    requires empty { out.old ≡ empty }
    ensures read { entry_behind event.new result out.new bytes.new ≡ entry_read bytes.old }
    ensures front { IfSome result (λ answer. bytes.old ≡ record_text event.new answer out.new.reply
        out.new.datagrams ++ bytes.new) }
{
    if !read_event(bytes, event) {
        return None;
    }
    let Some(answer) = bytes.read_answer() else {
        return None;
    };
    let Some(length) = bytes.read_u32() else {
        return None;
    };
    if length as usize > REPLY_BYTES {
        return None;
    }
    if !read_reply(length, bytes, out) {
        return None;
    }
    let Some(count) = bytes.read_u16() else {
        return None;
    };
    if count as usize > EVENT_DATAGRAMS {
        return None;
    }
    if !read_datagrams(count, bytes, out) {
        return None;
    }
    Some(answer)
}

// Reads `count` bytes and appends them to the reply. Returns false if there are fewer.
fn read_reply(count: u32, bytes: &mut Reading<'_>, out: &mut Out) -> bool
    requires room { count ≤ out.old.reply_spare }
    ensures read { MatchBool result (TakesReply count bytes.old bytes.new out.old out.new)
        (length bytes.old < count) }
{
    let Some(reply) = bytes.read_bytes(count as usize) else {
        return false;
    };
    out.write(reply);
    true
}

// Reads `count` bytes as a datagram. Returns false if there are fewer.
fn read_payload(to: Address, count: u32, bytes: &mut Reading<'_>, out: &mut Out) -> bool
    requires count_room { out.old.count_spare ≢ 0 }
    requires room { count ≤ out.old.datagram_spare }
    ensures read { MatchBool result (TakesPayload to count bytes.old bytes.new out.old out.new)
        (length bytes.old < count) }
{
    let Some(payload) = bytes.read_bytes(count as usize) else {
        return false;
    };
    out.begin(to);
    out.extend(payload);
    true
}

// Reads a datagram within the room that is left. Returns false if there is none.
#[tactic(auto, unfolding(crate::specs::ReadingEntries::datagram_read, crate::specs::ReadingEntries::read_address, crate::specs::ReadingEntries::read_counted))]
fn read_datagram(bytes: &mut Reading<'_>, out: &mut Out) -> bool
    requires count_room { out.old.count_spare ≢ 0 }
    ensures read { MatchBool result (TakesDatagram bytes.old bytes.new out.old out.new)
        (None ≡ datagram_read out.old.datagram_spare bytes.old) }
{
    let Some(ip) = bytes.read_u32() else {
        return false;
    };
    let Some(port) = bytes.read_u16() else {
        return false;
    };
    let Some(count) = bytes.read_u32() else {
        return false;
    };
    if count as usize > out.room() {
        return false;
    }
    read_payload(Address { ip, port }, count, bytes, out)
}

// Reads `count` datagrams. Returns false if there are fewer, or if they don't fit.
fn read_datagrams(count: u16, bytes: &mut Reading<'_>, out: &mut Out) -> bool
    requires none { out.old.datagrams ≡ [] }
    requires room { count ≤ out.old.count_spare }
    ensures read { MatchBool result (TakesDatagrams count bytes.old bytes.new out.old out.new)
        (None ≡ datagrams_read count out.old.datagram_spare bytes.old) }
{
    'datagrams: for place in 0..count {
        if !read_datagram(bytes, out) {
            return false;
        }
    }
    true
}

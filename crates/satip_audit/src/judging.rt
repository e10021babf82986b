//! The verdict on journals: the server executes the entries' events again, in the order of their
//! places.

ghost use Rattle.std.specs.Prelude.{◌≡◌, ◌<◌, ◌≤◌, ◌^◌, [], List, length, take, drop, IfOk, IfErr};
ghost use Rattle.std.specs.Bool.{MatchBool};
ghost use Rattle.std.specs.List.{All};
ghost use Rattle.satip_fronts.specs.FrontEnds.{IsNumbered};
ghost use Rattle.satip_plain.specs.Histories.{Item, Legal, opening};
ghost use Rattle.satip_core.specs.Serving.{Stands};
ghost use Rattle.satip_entry_reader.specs.ReadingEntries.{IsEntry, entry_text};
ghost use Rattle.satip_audit.specs.Journals.{Placed};
ghost use Rattle.satip_audit.specs.Verdicts.{setting};
ghost use Rattle.satip_audit.specs.Indexes.{IsFaultOf};
ghost use Rattle.satip_audit.specs.Replaying.{AreLed, DoesOther, DoesSo, Finds, IsInside, IsJudged};
ghost use Rattle.satip_audit.specs.LegalTexts.{IsLegalIfYes};

use crate::comparing::{same_answer, same_output};
use crate::index::{Spot, first_missing, first_repeated, sort_spots};
use crate::indexing::index_journals;
use crate::journals::{JournalFault, Starts};
use crate::verdicts::Verdict;
use satip_base::{Out, Want};
use satip_config::Config;
use satip_core::Server;
use satip_entry_reader::read_record;
use satip_plain::Event;
use std::alloc::Global;

/// Returns the verdict on journals by a configuration. Returns the number of the first wrong line,
/// from 1, if there is one. A line ends with LF, the last one too. Beyond the server's memory it
/// takes room for one entry and its line, and 16 bytes an entry. It writes over the text.
pub fn verdict(alloc: Global, config: Config, text: &mut [u8]) -> Result<Verdict, JournalFault>
    requires short { length text.old < 2 ^ 32 }
    requires few { length config.fronts ≤ 16 }
    requires numbered { IsNumbered 1 config.fronts }
    requires received { length config.muxes ≤ 256 }
    ensures verdict { IfOk result (IsJudged config text.old) }
    ensures legal { IfOk result (IsLegalIfYes config text.old) }
    ensures fault { IfErr result (IsFaultOf text.old) }
{
    let mut index = index_journals(alloc, text)?;
    let Starts::One(start) = index.starts else {
        return Ok(Verdict::NoStart);
    };
    sort_spots(&mut index.spots);
    if let Some(place) = first_repeated(&index.spots) {
        return Ok(Verdict::Repeated(place));
    }
    if let Some(place) = first_missing(&index.spots) {
        return Ok(Verdict::Missing(place));
    }
    match first_differing(alloc, config, start, text, &index.spots) {
        Ok(None) => Ok(Verdict::Yes(index.spots.len() as u64)),
        Ok(Some(place)) => Ok(Verdict::Differs(place)),
        Err(Want) => Err(JournalFault::OutOfMemory),
    }
}

// Returns the first place whose record differs from the server's entry after the records before it,
// or None if no record does.
fn first_differing(
    alloc: Global,
    config: Config,
    start: u64,
    records: &[u8],
    spots: &[Spot],
) -> Result<Option<u64>, Want>
    requires inside { All (IsInside records.now) spots.now }
    requires few { length config.fronts ≤ 16 }
    requires numbered { IsNumbered 1 config.fronts }
    requires received { length config.muxes ≤ 256 }
    ensures finds { IfOk result (λ place. (h : List Item) → AreLed records.now h spots.now
        → Finds (setting config start) h place) }
    ensures opens { IfOk result (λ _. Legal (setting config start) []) }
{
    let Ok(mut said) = Out::make(alloc) else {
        return Err(Want);
    };
    let Ok(mut out) = Out::make(alloc) else {
        return Err(Want);
    };
    let mut server = Server::make(alloc, config, start)?;
    Ok(replay_records(&mut server, records, spots, &mut said, &mut out))
}

fn replay_records(
    server: &mut Server,
    records: &[u8],
    spots: &[Spot],
    said: &mut Out,
    out: &mut Out,
) -> Option<u64>
    requires inside { All (IsInside records.now) spots.now }
    ensures finds { (h : List Item) → Stands server.old (opening server.old.setting)
        → AreLed records.now h spots.now → Finds server.old.setting h result }
{
    let mut event = Event::Stop;
    'places: for place in 0..spots.len() {
        let bytes = record_at(records, spots[place]);
        if !does_so(server, bytes, &mut event, said, out) {
            return Some(place as u64);
        }
    }
    None
}

// Returns the record of a spot.
fn record_at(records: &[u8], spot: Spot) -> &[u8]
    requires inside { IsInside records.now spot }
    ensures bytes { result.now ≡ take spot.len (drop spot.at records.now) }
{
    let (_before, behind) = records.split_at(spot.at as usize);
    let (bytes, _rest) = behind.split_at(spot.len as usize);
    bytes
}

// Reads a record, and executes its event. Tells whether the server's answer, reply and datagrams are those
// of the record.
fn does_so(
    server: &mut Server,
    bytes: &[u8],
    event: &mut Event,
    said: &mut Out,
    out: &mut Out,
) -> bool
    ensures setting { server.new.setting ≡ server.old.setting }
    ensures does { (p : Placed) → IsEntry p.entry → bytes.now ≡ entry_text p.entry
        → MatchBool result (DoesSo server.old p server.new) (DoesOther server.old p) }
{
    let Some(answer) = read_record(bytes, event, said) else {
        return false;
    };
    let done = server.event(event, out);
    if !same_answer(done, answer) {
        return false;
    }
    same_output(out, said)
}

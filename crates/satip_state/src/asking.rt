//! The changes that a query makes to a stream's tuning and PIDs.

ghost use Rattle.std.specs.Prelude.{◌≡◌, false, true, Ok, Err, IfOk, MatchOption, None, if◌then◌else◌};
ghost use Rattle.std.specs.Result.{result_err};
ghost use Rattle.satip_pids.specs.Pids.{Pids, add_pids, choose_pids, if_given, remove_pids};
ghost use Rattle.satip_tune.specs.Tunings.{gives_any};
ghost use Rattle.satip_plain.specs.Streams.{asked_pids as pids_asked, changed_tuning as tuning_changed, choice_of, other_than as tuning_other_than, to_set as tuning_to_set};
ghost use Rattle.satip_state.specs.Asking.{gives_pids};

use satip_pids::{PidFault, PidList, PidSet};
use satip_query::{PidsGiven, Query};
use satip_tune::{Change, Key, Tuning, first, merge};

/// Returns the tuning after a change with at least one key, from the old tuning or from none.
/// Without an old tuning, a needed key may be missing: then returns the first such key.
pub fn changed_tuning(old: Option<Tuning>, change: &Change) -> Result<Tuning, Key>
    ensures changed { result ≡ tuning_changed old change.now }
{
    match old {
        None => first(change),
        Some(old) => Ok(merge(&old, change)),
    }
}

/// Returns the tuning to set: one that is asked for, and differs from the old one. Returns the
/// first missing key if a change without an old tuning lacks a needed one.
pub fn to_set(old: Option<Tuning>, change: &Change) -> Result<Option<Tuning>, Key>
    ensures to_set { IfOk result (λ tuning. tuning ≡ tuning_to_set old change.now) }
    ensures missing { result_err result
        ≡ (if gives_any change.now then result_err (tuning_changed old change.now) else None) }
{
    if !change.any() {
        return Ok(None);
    }
    match changed_tuning(old, change) {
        Ok(tuning) => Ok(other_than(old, tuning)),
        Err(key) => Err(key),
    }
}

// Returns the new tuning, if it differs from the old one.
fn other_than(old: Option<Tuning>, new: Tuning) -> Option<Tuning>
    ensures other { result ≡ tuning_other_than old new }
{
    match old {
        None => Some(new),
        Some(old) => { if old == new { None } else { Some(new) } }
    }
}

/// Changes a set of PIDs by a query: first the whole list, then the added, then the removed PIDs.
/// Returns the first fault; the caller then drops the set.
fn asked_pids(pids: &mut PidSet, query: &Query) -> Option<PidFault>
    ensures asked { MatchOption result (pids_asked pids.old query.now ≡ Ok pids.new)
        (λ fault. pids_asked pids.old query.now ≡ Err fault) }
{
    if let Some(fault) = choose(pids, &query.pids) {
        return Some(fault);
    }
    if let Some(fault) = add(pids, &query.addpids) {
        return Some(fault);
    }
    remove(pids, &query.delpids)
}

/// Sets `pids` to those that a query makes of a stream's own. Returns the first fault, and `pids`
/// is then of no use. Without a list `pids` stays: a set is large.
pub fn ask_pids(pids: &mut PidSet, own: &PidSet, query: &Query) -> Option<PidFault>
    ensures asked { gives_pids query.now ≡ true → result ≡ None
        → pids_asked own.now query.now ≡ Ok pids.new }
    ensures fault { result ≡ result_err (pids_asked own.now query.now) }
{
    if !asks_pids(query) {
        return None;
    }
    if !query.pids.are_given() {
        pids.copy_from(own);
    }
    asked_pids(pids, query)
}

/// Returns whether a query gives a list of PIDs; without one the PIDs stay as they are.
pub fn asks_pids(query: &Query) -> bool
    ensures asks { result ≡ gives_pids query.now }
    ensures stay { result ≡ false → (old : Pids) → pids_asked old query.now ≡ Ok old }
{
    query.pids.are_given() || query.addpids.is_some() || query.delpids.is_some()
}

fn choose(pids: &mut PidSet, given: &PidsGiven) -> Option<PidFault>
    ensures chosen { MatchOption result (choose_pids pids.old (choice_of given.now) ≡ Ok pids.new)
        (λ fault. choose_pids pids.old (choice_of given.now) ≡ Err fault) }
{
    match given {
        PidsGiven::Absent => None,
        PidsGiven::All => {
            pids.set_all();
            None
        }
        PidsGiven::Empty => pids.set(&[]).err(),
        PidsGiven::List(list) => pids.set(list.as_slice()).err(),
    }
}

fn add(pids: &mut PidSet, list: &Option<PidList>) -> Option<PidFault>
    ensures added { MatchOption result (if_given add_pids list.now pids.old ≡ Ok pids.new)
        (λ fault. if_given add_pids list.now pids.old ≡ Err fault) }
{
    match list {
        None => None,
        Some(list) => pids.add(list.as_slice()).err(),
    }
}

fn remove(pids: &mut PidSet, list: &Option<PidList>) -> Option<PidFault>
    ensures removed { MatchOption result (if_given remove_pids list.now pids.old ≡ Ok pids.new)
        (λ fault. if_given remove_pids list.now pids.old ≡ Err fault) }
{
    match list {
        None => None,
        Some(list) => pids.remove(list.as_slice()).err(),
    }
}

//! Lists of PIDs that rise strictly.

ghost use Rattle.std.specs.Prelude.{◌≡◌, ◌<◌, ◌≤◌, ℕ, length, IfOk, IfErr, OnErr, MatchBool};
ghost use Rattle.satip_pids.specs.Rising.{IsRising, put, put_all, without, IsThere, GoesAt};

use arrayvec::ArrayVec;
use satip_pids::PidFault;

/// Where a PID is among rising ones, or where it goes.
pub fn place_of(pids: &[u16], pid: u16) -> Result<usize, usize>
    requires rising { IsRising 0 pids.now }
    ensures found { IfOk result (λ place. IsThere pids.now pid) }
    ensures absent { IfErr result (GoesAt pids.now pid) }
{
    pids.binary_search(&pid)
}

/// Adds a PID; `false` where 256 others are there, and then nothing is changed.
fn put(pids: &mut ArrayVec<u16, 256>, pid: u16) -> bool
    requires rising { IsRising 0 pids.old.items }
    ensures added { MatchBool result (pids.new.items ≡ put pid pids.old.items)
        (256 < length (put pid pids.old.items)) }
    ensures few { length pids.new.items ≤ 256 }
{
    match place_of(pids.as_slice(), pid) {
        Ok(_) => true,
        Err(place) => {
            if pids.is_full() {
                return false;
            }
            pids.insert(place, pid);
            true
        }
    }
}

/// The PIDs of both; refused where they are more than 256.
pub fn union(pids: &[u16], list: &[u16]) -> Result<ArrayVec<u16, 256>, PidFault>
    requires rising { IsRising 0 pids.now }
    requires few { length pids.now ≤ 256 }
    ensures both { IfOk result (λ all. all.items ≡ put_all pids.now list.now) }
    ensures few { IfOk result (λ all. length all.items ≤ 256) }
    ensures too_many { OnErr result (256 < length (put_all pids.now list.now)) }
    ensures fault { IfErr result (λ fault. fault ≡ PidFault.TooMany) }
{
    let mut all = copied(pids);
    for pid in list {
        if !put(&mut all, *pid) {
            return Err(PidFault::TooMany);
        }
    }
    Ok(all)
}

fn copied(pids: &[u16]) -> ArrayVec<u16, 256>
    requires few { length pids.now ≤ 256 }
    ensures same { result.items ≡ pids.now }
{
    let mut all = ArrayVec::new();
    all.try_extend_from_slice(pids).unwrap();
    all
}

/// The PIDs that a list doesn't have.
pub fn difference(pids: &[u16], list: &[u16]) -> ArrayVec<u16, 256>
    requires few { length pids.now ≤ 256 }
    ensures left { result.items ≡ without pids.now list.now }
{
    let mut kept = ArrayVec::new();
    for pid in pids {
        if !list.contains(pid) {
            kept.push(*pid);
        }
    }
    kept
}

mod plain;
mod rising;

ghost use Rattle.std.specs.Prelude.{◌≡◌, ◌<◌, ◌≤◌, [], ◌∷◌, Ok, Err, Some, None};
ghost use Rattle.satip_pids.specs.Pids.{Pids, Every, Only, AllPids, Unsaid, Listed, set_pids, apply};

use crate::checks::check;
use plain::PlainSet;
use satip_base::Strip;
use satip_fixtures::draws::next_word;
use satip_pids::{PidFault, PidList, PidSet};
use std::process::Abort;

// Numbers go into their places, each once; the first fault counts.
fn changes_go_in_order()
    ensures sorted { set_pids (17 ∷ 0 ∷ 16 ∷ 17 ∷ []) ≡ Ok (Only (0 ∷ 16 ∷ 17 ∷ [])) }
    ensures all_three { apply Every (Listed (16 ∷ 0 ∷ [])) (Some (18 ∷ 17 ∷ []))
        (Some (0 ∷ 18 ∷ 9 ∷ [])) ≡ Ok (Only (16 ∷ 17 ∷ [])) }
    ensures all_with_remove { apply (Only (1 ∷ [])) AllPids None (Some (16 ∷ []))
        ≡ Err PidFault.UnderAll }
    ensures none_said { apply (Only (1 ∷ [])) Unsaid None None ≡ Ok (Only (1 ∷ [])) }
    ensures none_listed { apply Every (Listed []) None None ≡ Ok (Only []) }
{}

// A call of a set with a list of PIDs.
#[derive(Clone, Copy)]
enum Call {
    Set,
    Add,
    Remove,
}

// A call of a set and its result, or what the set shows.
#[derive(Clone, Copy)]
enum Step {
    /// A call with these PIDs, followed by those below a number.
    Call(Call, &'static [u16], u16, Result<(), PidFault>),
    /// The same; the printed text stays.
    Keeps(Call, &'static [u16], u16, Result<(), PidFault>),
    SetAll,
    /// Whether the set has each of these PIDs.
    Has(&'static [u16], bool),
    /// The printed text.
    Prints(&'static [u8]),
    /// The word at a place.
    Word(usize, u64),
}

const ROWS: &[(&str, &[Step])] = &[
    (
        "a set has what was listed",
        &[
            Step::Call(Call::Set, &[17, 0, 16, 17], 0, Ok(())),
            Step::Call(Call::Add, &[100, 16], 0, Ok(())),
            Step::Call(Call::Remove, &[0, 101], 0, Ok(())),
            Step::Has(&[16, 17, 100], true),
            Step::Has(&[0, 18, 101], false),
        ],
    ),
    (
        "a set of all refuses to remove",
        &[
            Step::SetAll,
            Step::Call(Call::Add, &[16], 0, Ok(())),
            Step::Call(Call::Remove, &[16], 0, Err(PidFault::UnderAll)),
            Step::Has(&[16, 8191], true),
        ],
    ),
    (
        "a set of all becomes one of none",
        &[
            Step::SetAll,
            Step::Call(Call::Set, &[], 0, Ok(())),
            Step::Prints(b"none"),
        ],
    ),
    (
        "a set refuses a 257th PID",
        &[
            Step::Call(Call::Set, &[255, 3], 256, Ok(())),
            Step::Keeps(Call::Add, &[256], 0, Err(PidFault::TooMany)),
            Step::Keeps(Call::Set, &[], 257, Err(PidFault::TooMany)),
        ],
    ),
    (
        "a set of 256 PIDs takes them again",
        &[
            Step::Call(Call::Set, &[255, 3], 256, Ok(())),
            Step::Keeps(Call::Add, &[256], 0, Err(PidFault::TooMany)),
            Step::Keeps(Call::Add, &[0, 255], 0, Ok(())),
        ],
    ),
    (
        "a set is printed in rising order",
        &[
            Step::Call(Call::Set, &[400, 8191, 0], 0, Ok(())),
            Step::Prints(b"0,400,8191"),
        ],
    ),
    (
        "sets of none and of all are printed as words",
        &[Step::Prints(b"none"), Step::SetAll, Step::Prints(b"all")],
    ),
    (
        "a word holds 64 PIDs",
        &[
            Step::Call(Call::Set, &[64, 66, 127, 128], 0, Ok(())),
            Step::Word(0, 0),
            Step::Word(1, 0x8000_0000_0000_0005),
            Step::Word(2, 1),
            Step::SetAll,
            Step::Word(127, u64::MAX),
        ],
    ),
];

// Returns these PIDs, followed by those below a number.
fn list_of(pids: &[u16], end: u16) -> PidList {
    let mut list = PidList::new();
    for pid in pids {
        list.push(*pid % 8192);
    }
    for pid in 0..end {
        list.push(pid % 8192);
    }
    list
}

// Makes a call with these PIDs, followed by those below a number.
fn make_call(set: &mut PidSet, call: Call, pids: &[u16], end: u16) -> Result<(), PidFault> {
    let list = list_of(pids, end);
    match call {
        Call::Set => set.set(list.as_slice()),
        Call::Add => set.add(list.as_slice()),
        Call::Remove => set.remove(list.as_slice()),
    }
}

fn printed(set: &PidSet) -> Strip {
    let mut strip = Strip::new();
    set.print(&mut strip);
    strip
}

// Asserts whether a set has each of these PIDs.
fn check_has(rt: &impl Abort, set: &PidSet, pids: &[u16], has: bool, name: &str) {
    for pid in pids {
        check(rt, name, &(*pid, set.has(*pid % 8192)), &(*pid, has));
    }
}

// Asserts what a set prints.
fn check_text(rt: &impl Abort, set: &PidSet, text: &[u8], name: &str) {
    check(rt, name, &printed(set).bytes(), &text);
}

// Takes a step, and asserts its result.
fn take(rt: &impl Abort, set: &mut PidSet, step: Step, name: &str) {
    match step {
        Step::Call(call, pids, end, wanted) => {
            check(rt, name, &make_call(set, call, pids, end), &wanted);
        }
        Step::Keeps(call, pids, end, wanted) => {
            let before = printed(set);
            check(rt, name, &make_call(set, call, pids, end), &wanted);
            check_text(rt, set, before.bytes(), name);
        }
        Step::SetAll => set.set_all(),
        Step::Has(pids, has) => check_has(rt, set, pids, has, name),
        Step::Prints(text) => check_text(rt, set, text, name),
        Step::Word(place, word) => check(rt, name, &set.word(place % 128), &word),
    }
}

#[test]
fn sets_answer_as_their_rows_say(rt: HostRuntime) {
    for (name, steps) in ROWS {
        let mut set = PidSet::new();
        for step in *steps {
            take(&rt, &mut set, *step, name);
        }
    }
}

// Up to 63 PIDs that a number makes, one in four times near each other.
fn made_list(seed: u64) -> PidList {
    let mut list = PidList::new();
    let span = if seed >> 62 == 0 { 100 } else { 8192 };
    let mut state = seed;
    for _pid in 0..(seed >> 40) % 64 {
        state = next_word(state);
        list.push(((state >> 33) % span % 8192) as u16);
    }
    list
}

// Makes one call of each set, and tells whether both answer alike.
fn answer_alike(set: &mut PidSet, plain: &mut PlainSet, seed: u64) -> bool {
    let list = made_list(next_word(seed));
    match (seed >> 48) % 16 {
        0 => {
            set.set_all();
            plain.set_all();
            true
        }
        1 | 2 => set.set(list.as_slice()) == plain.set(list.as_slice()),
        3 | 4 | 5 => set.remove(list.as_slice()) == plain.remove(list.as_slice()),
        _ => set.add(list.as_slice()) == plain.add(list.as_slice()),
    }
}

// Whether both sets select the same PIDs.
fn are_alike(set: &PidSet, plain: &PlainSet, pid: u16) -> bool
    requires below { pid < 8192 }
{
    let mut text = Strip::new();
    plain.print(&mut text);
    printed(set).bytes() == text.bytes() && set.has(pid) == plain.has(pid)
}

#[test]
fn bits_and_a_list_are_the_same_set(rt: HostRuntime) {
    let mut set = PidSet::new();
    let mut plain = PlainSet::new();
    let mut state = 25;
    for _call in 0..10_000 {
        state = next_word(state);
        assert!(rt; answer_alike(&mut set, &mut plain, state));
        assert!(rt; are_alike(&set, &plain, (state >> 50) as u16 % 8192));
    }
}

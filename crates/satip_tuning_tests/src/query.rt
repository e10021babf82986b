//! Queries by example.

use crate::checks::check;
use satip_base::Out;
use satip_pids::PidList;
use satip_query::*;
use satip_tune::{Change, Fec, Key, Modulation, Pol, RollOff, System};
use std::process::Abort;

fn fault_of(text: &[u8]) -> Option<QueryFault> {
    let mut query = Query::new();
    read(text, &mut query).err()
}

fn list_of(pid: u16) -> PidList {
    let mut list = PidList::new();
    if pid < 8192 {
        let _ = list.push(pid);
    }
    list
}

// A change by a query of all keys.
const ALL_KEYS: Change = Change {
    fe: Some(2),
    src: Some(255),
    freq: Some(11361750),
    pol: Some(Pol::H),
    ro: Some(RollOff::R35),
    msys: Some(System::Dvbs2),
    mtype: Some(Modulation::Psk8),
    plts: Some(true),
    sr: Some(22000),
    fec: Some(Fec::F23),
};

// Asserts what a text gives: a query, which has a key or none, or a fault.
fn check_read(
    rt: &impl Abort,
    text: &str,
    read_as: Result<(), QueryFault>,
    wanted: &Query,
    any: bool,
) {
    let mut query = Query::new();
    check(rt, text, &read(text.as_bytes(), &mut query), &read_as);
    check(rt, text, &query, wanted);
    check(rt, text, &query.any(), &any);
}

#[test]
fn every_key_gives_its_value(rt: HostRuntime) {
    let text =
        "fe=2&src=255&freq=11361.75&pol=h&ro=0.35&msys=dvbs2&mtype=8psk&plts=on&sr=22000&fec=23\
        &pids=16&addpids=0&delpids=8191";
    let wanted = Query {
        change: ALL_KEYS,
        pids: PidsGiven::List(list_of(16)),
        addpids: Some(list_of(0)),
        delpids: Some(list_of(8191)),
    };
    check_read(&rt, text, Ok(()), &wanted, true);
}

// Texts that give nothing, without a known key or at fault.
const EMPTY: &[(&str, Result<(), QueryFault>)] = &[
    ("", Ok(())),
    ("&&", Ok(())),
    ("bw=8&FE=1&x", Ok(())),
    ("plts=auto&ro=auto&mtype=auto&fec=auto", Ok(())),
    ("src=2&fe=0", Err(QueryFault::Range(Key::Fe))),
];

#[test]
fn pieces_without_a_known_key_and_queries_at_fault_give_nothing(rt: HostRuntime) {
    for (text, read_as) in EMPTY {
        check_read(&rt, text, *read_as, &Query::new(), false);
    }
}

// Texts, and the faults that they have.
type Row = (&'static str, Option<QueryFault>);

fn show_faults(rt: &impl Abort, rows: &[Row]) {
    for (text, fault) in rows {
        check(rt, text, &fault_of(text.as_bytes()), fault);
    }
}

const FORMS: &[Row] = &[
    ("pids=", Some(QueryFault::Syntax(Key::Pids))),
    ("pids=0,,1", Some(QueryFault::Syntax(Key::Pids))),
    ("pids=8192,", Some(QueryFault::Syntax(Key::Pids))),
    ("pids=ALL", Some(QueryFault::Syntax(Key::Pids))),
    ("pids", Some(QueryFault::Syntax(Key::Pids))),
    ("pids=8192", Some(QueryFault::Range(Key::Pids))),
    ("addpids=none", Some(QueryFault::Syntax(Key::Addpids))),
    ("pids=all", None),
    ("pids=none", None),
    ("fe=00000000000000000001", None),
    (
        "fe=000000000000000000001",
        Some(QueryFault::Syntax(Key::Fe)),
    ),
    ("fe=65536", Some(QueryFault::Range(Key::Fe))),
    ("src=0", Some(QueryFault::Range(Key::Src))),
    ("sr=100000", Some(QueryFault::Range(Key::Sr))),
    ("freq=0.9999995", Some(QueryFault::Syntax(Key::Freq))),
    ("freq=0.999", Some(QueryFault::Range(Key::Freq))),
];

const WORDS: &[Row] = &[
    ("msys=dvbt", Some(QueryFault::Range(Key::Msys))),
    ("pol=H", Some(QueryFault::Range(Key::Pol))),
    ("pol=auto", Some(QueryFault::Range(Key::Pol))),
    ("fec=abcdefgh12345678", Some(QueryFault::Range(Key::Fec))),
    ("fec=abcdefgh123456789", Some(QueryFault::Syntax(Key::Fec))),
    ("plts=o-n", Some(QueryFault::Syntax(Key::Plts))),
    ("mtype=", Some(QueryFault::Syntax(Key::Mtype))),
    ("ro=0.350", Some(QueryFault::Range(Key::Ro))),
    ("ro=35", Some(QueryFault::Syntax(Key::Ro))),
    ("ro=0.3.5", Some(QueryFault::Syntax(Key::Ro))),
];

const ORDERS: &[Row] = &[
    ("pol=h&pol=v", Some(QueryFault::Syntax(Key::Pol))),
    ("src=1&msys=dvbt&src=x", Some(QueryFault::Range(Key::Msys))),
    ("plts=auto&plts=on", None),
    ("plts=on&plts=auto", None),
];

#[test]
fn form_is_looked_at_before_range(rt: HostRuntime) {
    show_faults(&rt, FORMS);
}

#[test]
fn words_have_sixteen_letters_and_digits(rt: HostRuntime) {
    show_faults(&rt, WORDS);
}

#[test]
fn first_piece_at_fault_counts(rt: HostRuntime) {
    show_faults(&rt, ORDERS);
}

// A digit at every other place behind `pids=`.
fn put_numbers(text: &mut [u8]) {
    for (place, byte) in text.iter_mut().enumerate() {
        if place >= 5 && place % 2 == 1 {
            *byte = b'1';
        }
    }
}

#[test]
fn value_lists_at_most_512_pids(rt: HostRuntime) {
    let mut full = [b','; 1028];
    full[..5].copy_from_slice(b"pids=");
    put_numbers(&mut full);
    assert_eq!(rt; fault_of(&full), None);
    let mut long = [b','; 1030];
    long[..5].copy_from_slice(b"pids=");
    put_numbers(&mut long);
    assert_eq!(rt; fault_of(&long), Some(QueryFault::Syntax(Key::Pids)));
}

#[test]
fn query_prints_in_the_order_of_its_keys(rt: HostRuntime) {
    let query = Query {
        change: Change {
            fe: None,
            src: Some(1),
            ..ALL_KEYS
        },
        pids: PidsGiven::All,
        addpids: None,
        delpids: None,
    };
    let mut out = Out::make(rt.alloc()).expect(&rt, "out of memory");
    print(&query, &mut out);
    assert_eq!(rt;
        out.reply(),
        b"src=1&freq=11361.75&pol=h&ro=0.35&msys=dvbs2&mtype=8psk&plts=on&sr=22000\
        &fec=23&pids=all"
            .as_slice()
    );
}

#[test]
fn bodies_name_what_is_wrong(rt: HostRuntime) {
    let texts = [
        (
            RefusalBody::CheckSyntax(Key::Pol),
            b"Check-Syntax:pol".as_slice(),
        ),
        (
            RefusalBody::OutOfRange(Key::Delpids),
            b"Out-of-Range:delpids",
        ),
        (RefusalBody::NotOwner, b"Not-Owner:stream"),
        (RefusalBody::NoMorePids, b"No-More:pids"),
        (RefusalBody::NoMoreSessions, b"No-More:sessions"),
        (RefusalBody::NoMoreFrontends, b"No-More:frontends"),
    ];
    let mut out = Out::make(rt.alloc()).expect(&rt, "out of memory");
    for (body, text) in texts {
        out.clear();
        assert_eq!(rt; body.size(), text.len());
        body.write(&mut out);
        assert_eq!(rt; out.reply(), text);
    }
}

//! Printing of queries.

ghost use Rattle.std.specs.Prelude.{◌≡◌, ◌≤◌, ◌||◌, ◌++◌, false, length};
ghost use Rattle.std.specs.List.{flat_map};
ghost use Rattle.satip_base.specs.Output.{Wrote};
ghost use Rattle.satip_pids.specs.Texts.{next_text};
ghost use Rattle.satip_query.specs.Printing.{IsAllowed, list_text, part_text, parts_text, piece_text, pids_text, query_text, separator, value_text};
ghost use Rattle.satip_query.specs.Queries.{is_given};
ghost use Rattle.satip_query.specs.Reading.{query_of};

use crate::queries::{PidsGiven, Query};
use satip_base::Out;
use satip_tune::{FrequencyText, Key, pilots_text};

const KEYS: [Key; 13] = [
    Key::Fe,
    Key::Src,
    Key::Freq,
    Key::Pol,
    Key::Ro,
    Key::Msys,
    Key::Mtype,
    Key::Plts,
    Key::Sr,
    Key::Fec,
    Key::Pids,
    Key::Addpids,
    Key::Delpids,
];

/// Appends a query to the reply: a piece for each key that is given, in the order of the keys, with
/// `&` between them. `read` reads the printed text as the same query.
pub fn print(query: &Query, out: &mut Out)
    requires allowed { IsAllowed query.now }
    requires room { 8192 ≤ out.old.reply_spare }
    ensures wrote { Wrote out.old (query_text query.now) out.new }
    ensures read_again { query_of (query_text query.now) ≡ Ok query.now }
{
    print_keys(query, &KEYS, out);
}

fn print_keys(query: &Query, keys: &[Key], out: &mut Out)
    requires room { length (parts_text query.now false keys.now) ≤ out.old.reply_spare }
    ensures wrote { Wrote out.old (parts_text query.now false keys.now) out.new }
{
    let mut started = false;
    for key in keys {
        started = print_key(query, *key, started, out);
    }
}

// Appends a key's piece, if it is given; returns whether any piece is printed by then.
fn print_key(query: &Query, key: Key, started: bool, out: &mut Out) -> bool
    requires room { length (part_text query.now started key) ≤ out.old.reply_spare }
    ensures started { result ≡ (started || is_given query.now key) }
    ensures wrote { Wrote out.old (part_text query.now started key) out.new }
{
    if !query.gives(key) {
        return started;
    }
    print_separator(started, out);
    print_piece(query, key, out);
    true
}

fn print_separator(started: bool, out: &mut Out)
    requires room { length (separator started) ≤ out.old.reply_spare }
    ensures wrote { Wrote out.old (separator started) out.new }
{
    if started {
        out.write(b"&");
    }
}

fn print_piece(query: &Query, key: Key, out: &mut Out)
    requires room { length (piece_text query.now key) ≤ out.old.reply_spare }
    ensures wrote { Wrote out.old (piece_text query.now key) out.new }
{
    out.write(key.text());
    out.write(b"=");
    print_value(query, key, out);
}

fn print_value(query: &Query, key: Key, out: &mut Out)
    requires room { length (value_text query.now key) ≤ out.old.reply_spare }
    ensures wrote { Wrote out.old (value_text query.now key) out.new }
{
    let change = &query.change;
    match key {
        Key::Fe => if let Some(number) = change.fe {
            out.write_number(number as u64)
        },
        Key::Src => if let Some(number) = change.src {
            out.write_number(number as u64)
        },
        Key::Freq => if let Some(khz) = change.freq {
            out.write(FrequencyText::of(khz).bytes())
        },
        Key::Pol => if let Some(value) = change.pol {
            out.write(value.text())
        },
        Key::Ro => if let Some(value) = change.ro {
            out.write(value.text())
        },
        Key::Msys => if let Some(value) = change.msys {
            out.write(value.text())
        },
        Key::Mtype => if let Some(value) = change.mtype {
            out.write(value.text())
        },
        Key::Plts => if let Some(on) = change.plts {
            out.write(pilots_text(on))
        },
        Key::Sr => if let Some(number) = change.sr {
            out.write_number(number as u64)
        },
        Key::Fec => if let Some(value) = change.fec {
            out.write(value.text())
        },
        Key::Pids => print_pids(&query.pids, out),
        Key::Addpids => if let Some(list) = &query.addpids {
            print_list(list.as_slice(), out)
        },
        Key::Delpids => if let Some(list) = &query.delpids {
            print_list(list.as_slice(), out)
        },
    }
}

fn print_pids(given: &PidsGiven, out: &mut Out)
    requires room { length (pids_text given.now) ≤ out.old.reply_spare }
    ensures wrote { Wrote out.old (pids_text given.now) out.new }
{
    match given {
        PidsGiven::Absent => {}
        PidsGiven::All => out.write(b"all"),
        PidsGiven::Empty => out.write(b"none"),
        PidsGiven::List(list) => print_list(list.as_slice(), out),
    }
}

fn print_list(pids: &[u16], out: &mut Out)
    requires room { length (list_text pids.now) ≤ out.old.reply_spare }
    ensures wrote { Wrote out.old (list_text pids.now) out.new }
{
    if pids.is_empty() {
        return;
    }
    out.write_number(pids[0] as u64);
    print_more(pids.split_at(1).1, out);
}

// Appends PIDs, each after a comma.
fn print_more(pids: &[u16], out: &mut Out)
    requires room { length (flat_map next_text pids.now) ≤ out.old.reply_spare }
    ensures wrote { Wrote out.old (flat_map next_text pids.now) out.new }
{
    for pid in pids {
        print_next(*pid, out);
    }
}

fn print_next(pid: u16, out: &mut Out)
    requires room { length (next_text pid) ≤ out.old.reply_spare }
    ensures wrote { Wrote out.old (next_text pid) out.new }
{
    out.write(b",");
    out.write_number(pid as u64);
}

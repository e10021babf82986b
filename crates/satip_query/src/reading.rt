//! Reading of queries.

ghost use Rattle.std.specs.Prelude.{◌≡◌, OnErr, IfErr, OnOk, Ok, Err, Some};
ghost use Rattle.std.specs.List.{list_any, slice_split};
ghost use Rattle.satip_tune.specs.Pieces.{is_byte, text_left};
ghost use Rattle.satip_tune.specs.declared.keys.Key.{Key};
ghost use Rattle.satip_query.specs.Queries.{is_given, new_query};
ghost use Rattle.satip_query.specs.Reading.{Answers, fault_at, piece_gives, is_left_open, pids_of, query_of, with_known, with_piece, with_pieces, with_value, result_map};
ghost use Rattle.satip_query.specs.Values.{pid_list_of};
ghost use Rattle.satip_query.specs.declared.queries.PidsGiven.TheVariants.{List as Listed};

use crate::faults::QueryFault;
use crate::queries::{PidsGiven, Query};
use crate::values::{named_word, read_number_in, read_pid_list, read_roll_off};
use satip_pids::PidList;
use satip_tune::{
    Fec, Key, Modulation, Pol, System, ValueFault, cut, pilots_named, read_frequency, same_bytes,
};

/// Reads the query of a target. `&` separates its pieces; a piece is a key and, after its first
/// `=`, a value. Empty pieces and unknown keys are skipped, and so are `ro`, `mtype`, `plts` and
/// `fec` with the value `auto`. The error is that of the first faulty piece from the left. It is
/// `Syntax` if its key occurred before or its value doesn't have the form of one, and `Range` if
/// the value isn't allowed. After an error `into` is the query that gives nothing.
#[tactic(auto, using(crate::proofs::GivenKeys::given_by_pieces), unfolding(crate::specs::Reading::query_of))]
pub fn read(bytes: &[u8], into: &mut Query) -> Result<(), QueryFault>
    ensures read { OnOk result (query_of bytes.now ≡ Ok into.new) }
    ensures given { OnOk result ((key : Key) →
        is_given into.new key ≡ list_any (piece_gives key) (slice_split (is_byte 38) bytes.now)) }
    ensures first_fault { IfErr result (λ fault. query_of bytes.now ≡ Err fault) }
    ensures emptied { OnErr result (into.new ≡ new_query) }
{
    into.clear();
    match read_pieces(bytes, into) {
        Ok(()) => Ok(()),
        Err(fault) => {
            into.clear();
            Err(fault)
        }
    }
}

fn read_pieces(text: &[u8], into: &mut Query) -> Result<(), QueryFault>
    ensures read { Answers result (with_pieces into.old (slice_split (is_byte 38) text.now))
        into.new }
{
    let mut left = Some(text);
    while let Some(rest) = left {
        let (piece, next) = cut(rest, b'&');
        read_piece(piece, into)?;
        left = next;
    }
    Ok(())
}

fn read_piece(piece: &[u8], into: &mut Query) -> Result<(), QueryFault>
    ensures read { Answers result (with_piece into.old piece.now) into.new }
{
    let (name, value) = cut(piece, b'=');
    match Key::named(name) {
        None => Ok(()),
        Some(key) => read_known(key, text_of(value), into),
    }
}

fn text_of(value: Option<&[u8]>) -> &[u8]
    ensures text { result.now ≡ text_left value.entry }
{
    match value {
        None => b"",
        Some(text) => text,
    }
}

fn read_known(key: Key, text: &[u8], into: &mut Query) -> Result<(), QueryFault>
    ensures read { Answers result (with_known into.old key text.now) into.new }
{
    if is_open(key, text) {
        return Ok(());
    }
    if into.gives(key) {
        return Err(QueryFault::Syntax(key));
    }
    match put_value(key, text, into) {
        Ok(()) => Ok(()),
        Err(fault) => Err(at_key(key, fault)),
    }
}

#[tactic(auto, unfolding(crate::specs::Reading::is_left_open))]
fn is_open(key: Key, text: &[u8]) -> bool
    ensures open { result ≡ is_left_open key text.now }
{
    match key {
        Key::Ro | Key::Mtype | Key::Plts | Key::Fec => same_bytes(text, b"auto"),
        _ => false,
    }
}

fn at_key(key: Key, fault: ValueFault) -> QueryFault
    ensures fault { result ≡ fault_at key fault }
{
    match fault {
        ValueFault::Malformed => QueryFault::Syntax(key),
        ValueFault::NotAllowed => QueryFault::Range(key),
    }
}

fn put_value(key: Key, text: &[u8], into: &mut Query) -> Result<(), ValueFault>
    ensures put { Answers result (with_value into.old key text.now) into.new }
{
    match key {
        Key::Fe => into.change.fe = Some(read_number_in(text, 1, 65535)? as u16),
        Key::Src => into.change.src = Some(read_number_in(text, 1, 255)? as u8),
        Key::Freq => into.change.freq = Some(read_frequency(text)?),
        Key::Pol => into.change.pol = Some(named_word(Pol::named(text), text)?),
        Key::Ro => into.change.ro = Some(read_roll_off(text)?),
        Key::Msys => into.change.msys = Some(named_word(System::named(text), text)?),
        Key::Mtype => into.change.mtype = Some(named_word(Modulation::named(text), text)?),
        Key::Plts => into.change.plts = Some(named_word(pilots_named(text), text)?),
        Key::Sr => into.change.sr = Some(read_number_in(text, 1, 99999)? as u32),
        Key::Fec => into.change.fec = Some(named_word(Fec::named(text), text)?),
        Key::Pids => read_pids(text, &mut into.pids)?,
        Key::Addpids => read_list(text, &mut into.addpids)?,
        Key::Delpids => read_list(text, &mut into.delpids)?,
    }
    Ok(())
}

#[tactic(auto, unfolding(crate::specs::Reading::pids_of))]
fn read_pids(text: &[u8], into: &mut PidsGiven) -> Result<(), ValueFault>
    ensures value { OnOk result (pids_of text.now ≡ Ok into.new) }
    ensures fault { IfErr result (λ fault. pids_of text.now ≡ Err fault) }
{
    if same_bytes(text, b"all") {
        *into = PidsGiven::All;
        Ok(())
    } else if same_bytes(text, b"none") {
        *into = PidsGiven::Empty;
        Ok(())
    } else {
        read_listed(text, into)
    }
}

// Reads a list in its final place, since lists are large.
fn read_listed(text: &[u8], into: &mut PidsGiven) -> Result<(), ValueFault>
    ensures value { OnOk result (result_map Listed (pid_list_of text.now) ≡ Ok into.new) }
    ensures fault { IfErr result (λ fault. pid_list_of text.now ≡ Err fault) }
{
    *into = PidsGiven::List(PidList::new());
    match into {
        PidsGiven::List(list) => read_pid_list(text, list),
        _ => unreachable!(),
    }
}

fn read_list(text: &[u8], into: &mut Option<PidList>) -> Result<(), ValueFault>
    ensures value { OnOk result (result_map Some (pid_list_of text.now) ≡ Ok into.new) }
    ensures fault { IfErr result (λ fault. pid_list_of text.now ≡ Err fault) }
{
    *into = Some(PidList::new());
    match into {
        Some(list) => read_pid_list(text, list),
        None => unreachable!(),
    }
}

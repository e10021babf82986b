//! Requests, appended to a line in digits.

ghost use Rattle.std.specs.Prelude.{◌*◌, ◌≤◌, length, flat_map};
ghost use Rattle.satip_entry_writer.specs.Sheets.{WroteHex};
ghost use Rattle.satip_entry_writer.specs.Fields.{u16_text, option_text, pid_list_text};
ghost use Rattle.satip_entry_writer.specs.Requests.{change_text, pids_text, query_text, fault_text, method_text, short_text, refusal_text, name_text, request_text, http_refusal_text, http_request_text};

use crate::fields::{
    encode_id, encode_key, encode_option_bool, encode_option_fec, encode_option_modulation,
    encode_option_pol, encode_option_ports, encode_option_roll_off, encode_option_system,
    encode_option_u8, encode_option_u16, encode_option_u32,
};
use crate::room::LineRoom;
use satip_http::{HttpRefusal, HttpRequest};
use satip_pids::PidList;
use satip_query::{PidsGiven, Query, QueryFault};
use satip_rtsp::{Method, Refusal, Request, SessionName, Short};
use satip_tune::Change;

/// Appends the parts of a tuning that a query gives, in the order of `Change`, each an optional
/// value.
#[tactic(auto, using(crate::proofs::Writing::writing_steps), unfolding(crate::specs::Requests::change_text))]
pub fn encode_change(change: &Change, line: &mut LineRoom)
    requires room { 2 * length (change_text change.now) ≤ line.old.spare }
    ensures wrote { WroteHex line.old (change_text change.now) line.new }
{
    encode_option_u16(change.fe, line);
    encode_option_u8(change.src, line);
    encode_option_u32(change.freq, line);
    encode_option_pol(change.pol, line);
    encode_option_roll_off(change.ro, line);
    encode_option_system(change.msys, line);
    encode_option_modulation(change.mtype, line);
    encode_option_bool(change.plts, line);
    encode_option_u32(change.sr, line);
    encode_option_fec(change.fec, line);
}

#[tactic(auto, using(crate::proofs::Writing::writing_steps, crate::proofs::Lists::list_steps))]
fn encode_pids(pids: &[u16], line: &mut LineRoom)
    requires room { 2 * length (flat_map u16_text pids.now) ≤ line.old.spare }
    ensures wrote { WroteHex line.old (flat_map u16_text pids.now) line.new }
{
    for pid in pids {
        line.encode_u16(*pid);
    }
}

#[tactic(auto, using(crate::proofs::Writing::writing_steps, crate::proofs::Lists::list_steps))]
fn encode_pid_list(list: &PidList, line: &mut LineRoom)
    requires room { 2 * length (pid_list_text list.now) ≤ line.old.spare }
    ensures wrote { WroteHex line.old (pid_list_text list.now) line.new }
{
    let pids = list.as_slice();
    line.encode_u16(pids.len() as u16);
    encode_pids(pids, line);
}

/// Appends an optional list of PIDs: the byte 0, or the byte 1, their count and each, two bytes
/// long.
#[tactic(auto, using(crate::proofs::Writing::writing_steps))]
pub fn encode_option_pid_list(list: &Option<PidList>, line: &mut LineRoom)
    requires room { 2 * length (option_text pid_list_text list.now) ≤ line.old.spare }
    ensures wrote { WroteHex line.old (option_text pid_list_text list.now) line.new }
{
    match list {
        None => line.encode_u8(0),
        Some(list) => {
            line.encode_u8(1);
            encode_pid_list(list, line);
        }
    }
}

/// Appends the value of `pids`: a byte, 0 to 3 for absent, `all`, `none` and a list, then the list.
#[tactic(auto, using(crate::proofs::Writing::writing_steps), unfolding(crate::specs::Requests::pids_text))]
pub fn encode_pids_given(pids: &PidsGiven, line: &mut LineRoom)
    requires room { 2 * length (pids_text pids.now) ≤ line.old.spare }
    ensures wrote { WroteHex line.old (pids_text pids.now) line.new }
{
    match pids {
        PidsGiven::Absent => line.encode_u8(0),
        PidsGiven::All => line.encode_u8(1),
        PidsGiven::Empty => line.encode_u8(2),
        PidsGiven::List(list) => {
            line.encode_u8(3);
            encode_pid_list(list, line);
        }
    }
}

/// Appends a query: its tuning, `pids`, and the lists of `addpids` and `delpids`.
#[tactic(auto, using(crate::proofs::Writing::writing_steps), unfolding(crate::specs::Requests::query_text))]
pub fn encode_query(query: &Query, line: &mut LineRoom)
    requires room { 2 * length (query_text query.now) ≤ line.old.spare }
    ensures wrote { WroteHex line.old (query_text query.now) line.new }
{
    encode_change(&query.change, line);
    encode_pids_given(&query.pids, line);
    encode_option_pid_list(&query.addpids, line);
    encode_option_pid_list(&query.delpids, line);
}

/// Appends the fault of a query: a byte, 0 for its syntax and 1 for its range, and the key.
#[tactic(auto, using(crate::proofs::Writing::writing_steps))]
pub fn encode_fault(fault: QueryFault, line: &mut LineRoom)
    requires room { 2 * length (fault_text fault) ≤ line.old.spare }
    ensures wrote { WroteHex line.old (fault_text fault) line.new }
{
    match fault {
        QueryFault::Syntax(key) => {
            line.encode_u8(0);
            encode_key(key, line);
        }
        QueryFault::Range(key) => {
            line.encode_u8(1);
            encode_key(key, line);
        }
    }
}

/// Appends a method: a byte, 0 to 4 for OPTIONS, DESCRIBE, SETUP, PLAY and TEARDOWN.
#[tactic(auto, using(crate::proofs::Writing::writing_steps))]
pub fn encode_method(method: Method, line: &mut LineRoom)
    requires room { 2 * length (method_text method) ≤ line.old.spare }
    ensures wrote { WroteHex line.old (method_text method) line.new }
{
    match method {
        Method::Options => line.encode_u8(0),
        Method::Describe => line.encode_u8(1),
        Method::Setup => line.encode_u8(2),
        Method::Play => line.encode_u8(3),
        Method::Teardown => line.encode_u8(4),
    }
}

/// Appends a short text: its length, two bytes, and its bytes.
#[tactic(auto, using(crate::proofs::Writing::writing_steps))]
pub fn encode_short(kept: &Short, line: &mut LineRoom)
    requires room { 2 * length (short_text kept.now) ≤ line.old.spare }
    ensures wrote { WroteHex line.old (short_text kept.now) line.new }
{
    let bytes = kept.bytes();
    line.encode_u16(bytes.len() as u16);
    line.encode(bytes);
}

/// Appends the refusal of an RTSP request: a byte, its place in `Refusal`, then its text or fault.
#[tactic(auto, using(crate::proofs::Writing::writing_steps), unfolding(crate::specs::Requests::refusal_text))]
pub fn encode_refusal(refusal: &Refusal, line: &mut LineRoom)
    requires room { 2 * length (refusal_text refusal.now) ≤ line.old.spare }
    ensures wrote { WroteHex line.old (refusal_text refusal.now) line.new }
{
    match refusal {
        Refusal::Broken => line.encode_u8(0),
        Refusal::TooLong => line.encode_u8(1),
        Refusal::NoCseq => line.encode_u8(2),
        Refusal::Version => line.encode_u8(3),
        Refusal::Method => line.encode_u8(4),
        Refusal::Require(kept) => {
            line.encode_u8(5);
            encode_short(kept, line);
        }
        Refusal::Target => line.encode_u8(6),
        Refusal::Query(fault) => {
            line.encode_u8(7);
            encode_fault(*fault, line);
        }
    }
}

/// Appends an optional refusal: the byte 0, or the byte 1 and the refusal.
#[tactic(auto, using(crate::proofs::Writing::writing_steps))]
pub fn encode_option_refusal(refusal: &Option<Refusal>, line: &mut LineRoom)
    requires room { 2 * length (option_text refusal_text refusal.now) ≤ line.old.spare }
    ensures wrote { WroteHex line.old (option_text refusal_text refusal.now) line.new }
{
    match refusal {
        None => line.encode_u8(0),
        Some(refusal) => {
            line.encode_u8(1);
            encode_refusal(refusal, line);
        }
    }
}

/// Appends a Session header: a byte, 0 to 2 for none, a session's and another, then the identifier.
#[tactic(auto, using(crate::proofs::Writing::writing_steps), unfolding(crate::specs::Requests::name_text))]
pub fn encode_name(name: SessionName, line: &mut LineRoom)
    requires room { 2 * length (name_text name) ≤ line.old.spare }
    ensures wrote { WroteHex line.old (name_text name) line.new }
{
    match name {
        SessionName::Absent => line.encode_u8(0),
        SessionName::Named(id) => {
            line.encode_u8(1);
            encode_id(id, line);
        }
        SessionName::Other => line.encode_u8(2),
    }
}

/// Appends an RTSP request: its CSeq, refusal, method, stream, session, query and ports.
#[tactic(auto, using(crate::proofs::Writing::writing_steps), unfolding(crate::specs::Requests::request_text))]
pub fn encode_request(request: &Request, line: &mut LineRoom)
    requires room { 2 * length (request_text request.now) ≤ line.old.spare }
    ensures wrote { WroteHex line.old (request_text request.now) line.new }
{
    encode_option_u32(request.cseq, line);
    encode_option_refusal(&request.refusal, line);
    encode_method(request.method, line);
    encode_option_u16(request.stream, line);
    encode_name(request.session, line);
    encode_query(&request.query, line);
    encode_option_ports(request.ports, line);
}

/// Appends the refusal of an HTTP request: a byte, its place in `HttpRefusal`, then its fault.
#[tactic(auto, using(crate::proofs::Writing::writing_steps), unfolding(crate::specs::Requests::http_refusal_text))]
pub fn encode_http_refusal(refusal: HttpRefusal, line: &mut LineRoom)
    requires room { 2 * length (http_refusal_text refusal) ≤ line.old.spare }
    ensures wrote { WroteHex line.old (http_refusal_text refusal) line.new }
{
    match refusal {
        HttpRefusal::Broken => line.encode_u8(0),
        HttpRefusal::TooLong => line.encode_u8(1),
        HttpRefusal::Version => line.encode_u8(2),
        HttpRefusal::Method => line.encode_u8(3),
        HttpRefusal::Target => line.encode_u8(4),
        HttpRefusal::NotFound => line.encode_u8(5),
        HttpRefusal::Query(fault) => {
            line.encode_u8(6);
            encode_fault(fault, line);
        }
    }
}

/// Appends an optional refusal: the byte 0, or the byte 1 and the refusal.
#[tactic(auto, using(crate::proofs::Writing::writing_steps))]
pub fn encode_option_http_refusal(refusal: Option<HttpRefusal>, line: &mut LineRoom)
    requires room { 2 * length (option_text http_refusal_text refusal) ≤ line.old.spare }
    ensures wrote { WroteHex line.old (option_text http_refusal_text refusal) line.new }
{
    match refusal {
        None => line.encode_u8(0),
        Some(refusal) => {
            line.encode_u8(1);
            encode_http_refusal(refusal, line);
        }
    }
}

/// Appends an HTTP request: its refusal and its query.
#[tactic(auto, using(crate::proofs::Writing::writing_steps), unfolding(crate::specs::Requests::http_request_text))]
pub fn encode_http_request(request: &HttpRequest, line: &mut LineRoom)
    requires room { 2 * length (http_request_text request.now) ≤ line.old.spare }
    ensures wrote { WroteHex line.old (http_request_text request.now) line.new }
{
    encode_option_http_refusal(request.refusal, line);
    encode_query(&request.query, line);
}

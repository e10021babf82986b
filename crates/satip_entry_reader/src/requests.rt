//! Queries and requests, read from the front of a record's bytes.

ghost use Rattle.std.specs.Prelude.{◌≡◌, ◌++◌, IfSome};
ghost use Rattle.satip_entry_writer.specs.Fields.{key_text, option_text, pid_list_text, ports_text};
ghost use Rattle.satip_entry_writer.specs.Requests.{fault_text, http_refusal_text, http_request_text, method_text, name_text, pids_text, query_text, refusal_text, request_text};
ghost use Rattle.satip_entry_reader.specs.Reading.{behind, read_option, ports_read};
ghost use Rattle.satip_entry_reader.specs.ReadingLists.{pid_list_read};
ghost use Rattle.satip_entry_reader.specs.ReadingRequests.{fault_read, http_refusal_read, http_request_read, key_read, method_read, name_read, pids_given_read, query_read, refusal_read, request_read};

use crate::lists::{read_pid_list, read_short};
use crate::reading::Reading;
use satip_base::Ports;
use satip_http::{HttpRefusal, HttpRequest};
use satip_pids::PidList;
use satip_query::{PidsGiven, Query, QueryFault};
use satip_rtsp::{Method, Refusal, Request, SessionName};
use satip_tune::Key;

#[tactic(auto, unfolding(crate::specs::Reading::read_option))]
fn read_option_pid_list(bytes: &mut Reading<'_>) -> Option<Option<PidList>>
    ensures read { behind result bytes.new ≡ read_option pid_list_read bytes.old }
    ensures front { IfSome result (λ x. bytes.old ≡ option_text pid_list_text x ++ bytes.new) }
{
    let Some(given) = bytes.read_bool() else {
        return None;
    };
    if !given {
        return Some(None);
    }
    let Some(value) = read_pid_list(bytes) else {
        return None;
    };
    Some(Some(value))
}

#[tactic(auto, unfolding(crate::specs::ReadingRequests::pids_given_read, satip_entry_writer::specs::Requests::pids_text))]
fn read_pids_given(bytes: &mut Reading<'_>) -> Option<PidsGiven>
    ensures read { behind result bytes.new ≡ pids_given_read bytes.old }
    ensures front { IfSome result (λ x. bytes.old ≡ pids_text x ++ bytes.new) }
{
    let Some(place) = bytes.read_u8() else {
        return None;
    };
    match place {
        0 => Some(PidsGiven::Absent),
        1 => Some(PidsGiven::All),
        2 => Some(PidsGiven::Empty),
        3 => {
            let Some(pids) = read_pid_list(bytes) else {
                return None;
            };
            Some(PidsGiven::List(pids))
        }
        _ => None,
    }
}

/// Reads a query: the fields of its tuning, its PIDs, and those that it adds and removes.
#[tactic(auto, unfolding(crate::specs::ReadingRequests::query_read, satip_entry_writer::specs::Requests::query_text))]
pub fn read_query(bytes: &mut Reading<'_>) -> Option<Query>
    ensures read { behind result bytes.new ≡ query_read bytes.old }
    ensures front { IfSome result (λ x. bytes.old ≡ query_text x ++ bytes.new) }
{
    let Some(change) = bytes.read_change() else {
        return None;
    };
    let Some(pids) = read_pids_given(bytes) else {
        return None;
    };
    let Some(addpids) = read_option_pid_list(bytes) else {
        return None;
    };
    let Some(delpids) = read_option_pid_list(bytes) else {
        return None;
    };
    Some(Query {
        change,
        pids,
        addpids,
        delpids,
    })
}

#[tactic(auto, unfolding(crate::specs::ReadingRequests::key_read))]
fn read_key(bytes: &mut Reading<'_>) -> Option<Key>
    ensures read { behind result bytes.new ≡ key_read bytes.old }
    ensures front { IfSome result (λ x. bytes.old ≡ key_text x ++ bytes.new) }
{
    let Some(place) = bytes.read_u8() else {
        return None;
    };
    match place {
        0 => Some(Key::Fe),
        1 => Some(Key::Src),
        2 => Some(Key::Freq),
        3 => Some(Key::Pol),
        4 => Some(Key::Ro),
        5 => Some(Key::Msys),
        6 => Some(Key::Mtype),
        7 => Some(Key::Plts),
        8 => Some(Key::Sr),
        9 => Some(Key::Fec),
        10 => Some(Key::Pids),
        11 => Some(Key::Addpids),
        12 => Some(Key::Delpids),
        _ => None,
    }
}

#[tactic(auto, unfolding(crate::specs::ReadingRequests::fault_read))]
fn read_fault(bytes: &mut Reading<'_>) -> Option<QueryFault>
    ensures read { behind result bytes.new ≡ fault_read bytes.old }
    ensures front { IfSome result (λ x. bytes.old ≡ fault_text x ++ bytes.new) }
{
    let Some(place) = bytes.read_u8() else {
        return None;
    };
    match place {
        0 => {
            let Some(key) = read_key(bytes) else {
                return None;
            };
            Some(QueryFault::Syntax(key))
        }
        1 => {
            let Some(key) = read_key(bytes) else {
                return None;
            };
            Some(QueryFault::Range(key))
        }
        _ => None,
    }
}

#[tactic(auto, unfolding(crate::specs::ReadingRequests::method_read))]
fn read_method(bytes: &mut Reading<'_>) -> Option<Method>
    ensures read { behind result bytes.new ≡ method_read bytes.old }
    ensures front { IfSome result (λ x. bytes.old ≡ method_text x ++ bytes.new) }
{
    let Some(place) = bytes.read_u8() else {
        return None;
    };
    match place {
        0 => Some(Method::Options),
        1 => Some(Method::Describe),
        2 => Some(Method::Setup),
        3 => Some(Method::Play),
        4 => Some(Method::Teardown),
        _ => None,
    }
}

#[tactic(auto, unfolding(crate::specs::ReadingRequests::refusal_read, satip_entry_writer::specs::Requests::refusal_text))]
fn read_refusal(bytes: &mut Reading<'_>) -> Option<Refusal>
    ensures read { behind result bytes.new ≡ refusal_read bytes.old }
    ensures front { IfSome result (λ x. bytes.old ≡ refusal_text x ++ bytes.new) }
{
    let Some(place) = bytes.read_u8() else {
        return None;
    };
    match place {
        0 => Some(Refusal::Broken),
        1 => Some(Refusal::TooLong),
        2 => Some(Refusal::NoCseq),
        3 => Some(Refusal::Version),
        4 => Some(Refusal::Method),
        5 => {
            let Some(kept) = read_short(bytes) else {
                return None;
            };
            Some(Refusal::Require(kept))
        }
        6 => Some(Refusal::Target),
        7 => {
            let Some(fault) = read_fault(bytes) else {
                return None;
            };
            Some(Refusal::Query(fault))
        }
        _ => None,
    }
}

#[tactic(auto, unfolding(crate::specs::Reading::read_option))]
fn read_option_refusal(bytes: &mut Reading<'_>) -> Option<Option<Refusal>>
    ensures read { behind result bytes.new ≡ read_option refusal_read bytes.old }
    ensures front { IfSome result (λ x. bytes.old ≡ option_text refusal_text x ++ bytes.new) }
{
    let Some(given) = bytes.read_bool() else {
        return None;
    };
    if !given {
        return Some(None);
    }
    let Some(value) = read_refusal(bytes) else {
        return None;
    };
    Some(Some(value))
}

#[tactic(auto, unfolding(crate::specs::ReadingRequests::name_read, satip_entry_writer::specs::Requests::name_text))]
fn read_name(bytes: &mut Reading<'_>) -> Option<SessionName>
    ensures read { behind result bytes.new ≡ name_read bytes.old }
    ensures front { IfSome result (λ x. bytes.old ≡ name_text x ++ bytes.new) }
{
    let Some(place) = bytes.read_u8() else {
        return None;
    };
    match place {
        0 => Some(SessionName::Absent),
        1 => {
            let Some(id) = bytes.read_id() else {
                return None;
            };
            Some(SessionName::Named(id))
        }
        2 => Some(SessionName::Other),
        _ => None,
    }
}

#[tactic(auto, unfolding(crate::specs::Reading::read_option))]
fn read_option_ports(bytes: &mut Reading<'_>) -> Option<Option<Ports>>
    ensures read { behind result bytes.new ≡ read_option ports_read bytes.old }
    ensures front { IfSome result (λ x. bytes.old ≡ option_text ports_text x ++ bytes.new) }
{
    let Some(given) = bytes.read_bool() else {
        return None;
    };
    if !given {
        return Some(None);
    }
    let Some(value) = bytes.read_ports() else {
        return None;
    };
    Some(Some(value))
}

/// Reads an RTSP request.
#[tactic(auto, unfolding(crate::specs::ReadingRequests::request_read, satip_entry_writer::specs::Requests::request_text))]
pub fn read_request(bytes: &mut Reading<'_>) -> Option<Request>
    ensures read { behind result bytes.new ≡ request_read bytes.old }
    ensures front { IfSome result (λ x. bytes.old ≡ request_text x ++ bytes.new) }
{
    let Some(cseq) = bytes.read_option_u32() else {
        return None;
    };
    let Some(refusal) = read_option_refusal(bytes) else {
        return None;
    };
    let Some(method) = read_method(bytes) else {
        return None;
    };
    let Some(stream) = bytes.read_option_u16() else {
        return None;
    };
    let Some(session) = read_name(bytes) else {
        return None;
    };
    let Some(query) = read_query(bytes) else {
        return None;
    };
    let Some(ports) = read_option_ports(bytes) else {
        return None;
    };
    Some(Request {
        cseq,
        refusal,
        method,
        stream,
        session,
        query,
        ports,
    })
}

#[tactic(auto, unfolding(crate::specs::ReadingRequests::http_refusal_read, satip_entry_writer::specs::Requests::http_refusal_text))]
fn read_http_refusal(bytes: &mut Reading<'_>) -> Option<HttpRefusal>
    ensures read { behind result bytes.new ≡ http_refusal_read bytes.old }
    ensures front { IfSome result (λ x. bytes.old ≡ http_refusal_text x ++ bytes.new) }
{
    let Some(place) = bytes.read_u8() else {
        return None;
    };
    match place {
        0 => Some(HttpRefusal::Broken),
        1 => Some(HttpRefusal::TooLong),
        2 => Some(HttpRefusal::Version),
        3 => Some(HttpRefusal::Method),
        4 => Some(HttpRefusal::Target),
        5 => Some(HttpRefusal::NotFound),
        6 => {
            let Some(fault) = read_fault(bytes) else {
                return None;
            };
            Some(HttpRefusal::Query(fault))
        }
        _ => None,
    }
}

#[tactic(auto, unfolding(crate::specs::Reading::read_option))]
fn read_option_http_refusal(bytes: &mut Reading<'_>) -> Option<Option<HttpRefusal>>
    ensures read { behind result bytes.new ≡ read_option http_refusal_read bytes.old }
    ensures front { IfSome result (λ x. bytes.old ≡ option_text http_refusal_text x ++ bytes.new) }
{
    let Some(given) = bytes.read_bool() else {
        return None;
    };
    if !given {
        return Some(None);
    }
    let Some(value) = read_http_refusal(bytes) else {
        return None;
    };
    Some(Some(value))
}

/// Reads an HTTP request.
#[tactic(auto, unfolding(crate::specs::ReadingRequests::http_request_read, satip_entry_writer::specs::Requests::http_request_text))]
pub fn read_http_request(bytes: &mut Reading<'_>) -> Option<HttpRequest>
    ensures read { behind result bytes.new ≡ http_request_read bytes.old }
    ensures front { IfSome result (λ x. bytes.old ≡ http_request_text x ++ bytes.new) }
{
    let Some(refusal) = read_option_http_refusal(bytes) else {
        return None;
    };
    let Some(query) = read_query(bytes) else {
        return None;
    };
    Some(HttpRequest { refusal, query })
}

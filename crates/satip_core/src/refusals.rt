//! Refusals: the status of each cause, and its text if it has one.

ghost use Rattle.std.specs.Prelude.{◌≡◌, Some, Result, Err, IfSome};
ghost use Rattle.std.specs.Result.{result_err};
ghost use Rattle.satip_pids.specs.Pids.{Pids};
ghost use Rattle.satip_query.specs.Statuses.{IsStatus};
ghost use Rattle.satip_plain.specs.Refusals.{of_http_message as http_message_refused, of_message as message_refused, of_pids as pids_refused, of_query_fault as query_refused, of_tuning as tuning_refused, plainly as plain_refusal, telling as telling_refusal};
ghost use Rattle.satip_core.specs.Told.{told, told_if};

use satip_http::HttpRefusal;
use satip_pids::PidFault;
use satip_query::{QueryFault, RefusalBody};
use satip_rtsp::Refusal;
use satip_tune::{Key, Tuning};

/// The status of a refusal (RFC 2326, section 7.1.1), and the text that says why, if there is one
/// (SAT>IP 1.2.2, 3.5.9).
#[derive(Clone, Copy, Debug, PartialEq, Eq)]
pub struct Refused {
    pub status: u16,
    pub body: Option<RefusalBody>,
}

/// Returns a refusal without a text.
pub fn plainly(status: u16) -> Refused
    requires status { IsStatus status }
    ensures known { IsStatus result.status }
    ensures plain { told result ≡ plain_refusal status }
{
    Refused { status, body: None }
}

/// Returns a refusal with a text.
pub fn telling(status: u16, body: RefusalBody) -> Refused
    requires status { IsStatus status }
    ensures known { IsStatus result.status }
    ensures telling { told result ≡ telling_refusal status body }
{
    Refused {
        status,
        body: Some(body),
    }
}

/// Returns the refusal of a query that can't be parsed or has a value out of range.
pub fn of_query_fault(fault: QueryFault) -> Refused
    ensures known { IsStatus result.status }
    ensures refused { told result ≡ query_refused fault }
{
    match fault {
        QueryFault::Syntax(key) => telling(400, RefusalBody::CheckSyntax(key)),
        QueryFault::Range(key) => telling(403, RefusalBody::OutOfRange(key)),
    }
}

/// Returns the refusal of an RTSP message for its text alone.
pub fn of_message(refusal: &Refusal) -> Refused
    ensures known { IsStatus result.status }
    ensures refused { told result ≡ message_refused refusal.now }
{
    match refusal {
        Refusal::Broken => plainly(400),
        Refusal::TooLong => plainly(413),
        Refusal::NoCseq => plainly(400),
        Refusal::Version => plainly(505),
        Refusal::Method => plainly(501),
        Refusal::Require(_) => plainly(551),
        Refusal::Target => plainly(400),
        Refusal::Query(fault) => of_query_fault(*fault),
    }
}

/// Returns the refusal of an HTTP message for its text alone.
pub fn of_http_message(refusal: &HttpRefusal) -> Refused
    ensures known { IsStatus result.status }
    ensures refused { told result ≡ http_message_refused refusal.now }
{
    match refusal {
        HttpRefusal::Broken => plainly(400),
        HttpRefusal::TooLong => plainly(413),
        HttpRefusal::Version => plainly(505),
        HttpRefusal::Method => plainly(501),
        HttpRefusal::Target => plainly(400),
        HttpRefusal::NotFound => plainly(404),
        HttpRefusal::Query(fault) => of_query_fault(*fault),
    }
}

/// Returns the refusal of a tuning, if a needed key is missing.
pub fn of_tuning(tuning: Result<Tuning, Key>) -> Option<Refused>
    ensures known { IfSome result (λ refused. IsStatus refused.status) }
    ensures refused { told_if result ≡ tuning_refused tuning }
{
    match tuning {
        Ok(_) => None,
        Err(key) => Some(telling(400, RefusalBody::CheckSyntax(key))),
    }
}

/// Returns the refusal of a change of PIDs, if it has a fault.
pub fn of_pids(fault: Option<PidFault>) -> Option<Refused>
    ensures known { IfSome result (λ refused. IsStatus refused.status) }
    ensures refused { (pids : Result Pids PidFault) → fault ≡ result_err pids
        → told_if result ≡ pids_refused pids }
{
    match fault {
        None => None,
        Some(fault) => Some(of_pid_fault(fault)),
    }
}

fn of_pid_fault(fault: PidFault) -> Refused
    ensures known { IsStatus result.status }
    ensures refused { Some (told result) ≡ pids_refused (Err fault) }
{
    match fault {
        PidFault::UnderAll => telling(403, RefusalBody::OutOfRange(Key::Delpids)),
        PidFault::TooMany => telling(503, RefusalBody::NoMorePids),
    }
}

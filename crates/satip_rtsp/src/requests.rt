//! Requests of RTSP messages.
ghost use Rattle.std.specs.Prelude.{◌≡◌, ◌≢◌, ◌↔◌, ℕ, List, Some, None, Err, IsSome, OnErr, true, false, codes, take};
ghost use Rattle.std.specs.Option.{option_copied, option_map};
ghost use Rattle.std.specs.Str.{bytes_eq};
ghost use Rattle.satip_query.specs.Queries.{new_query};
ghost use Rattle.satip_query.specs.Reading.{Answers};
ghost use Rattle.satip_rtsp.specs.Asked.{IsServed, asked, blank, broken_request, cseq_of, is_options_method, method_named, ports_asked, query_read, requirement, required_in, with_method, with_target};
ghost use Rattle.satip_rtsp.specs.Targets.{TargetParts, target_of};

use crate::short::Short;
use crate::targets::Target;
use crate::transports::{acceptable_ports, session_name};
use satip_base::{Ports, SessionId, read_number};
use satip_frame::{Asks, Break, Message};
use satip_query::{PidsGiven, Query, QueryFault, read};
use satip_tune::same_bytes;

/// The methods that are served (RFC 2326, section 10).
#[derive(Clone, Copy, Debug, PartialEq, Eq)]
pub enum Method {
    Options,
    Describe,
    Setup,
    Play,
    Teardown,
}

/// The reason that the text of a request alone is refused. The variants are in the order of the
/// checks.
#[derive(Clone, Copy, Debug, PartialEq, Eq)]
pub enum Refusal {
    /// The text is no message.
    Broken,
    /// The message announces a body that is too long.
    TooLong,
    /// The message has no number below 2^32 in `CSeq` (RFC 2326, section 12.17).
    NoCseq,
    /// The version isn't `RTSP/1.0`.
    Version,
    /// The method isn't served.
    Method,
    /// The client requires an option (RFC 2326, section 12.32), whose first bytes are kept.
    Require(Short),
    /// The target isn't one of this server's.
    Target,
    /// The query of SETUP or PLAY is at fault.
    Query(QueryFault),
}

/// The session that a request names (RFC 2326, section 12.37): none, that of an id, or a text that
/// isn't an id.
#[derive(Clone, Copy, Debug, PartialEq, Eq)]
pub enum SessionName {
    Absent,
    Named(SessionId),
    Other,
}

/// A request. If it is refused, the fields after `refusal` are `Options`, None, `Absent`, the empty
/// query and None.
#[derive(Clone, Copy, Debug, PartialEq, Eq)]
pub struct Request {
    pub cseq: Option<u32>,
    pub refusal: Option<Refusal>,
    pub method: Method,
    /// The number of the stream that the target names.
    pub stream: Option<u16>,
    pub session: SessionName,
    /// The query of SETUP and PLAY.
    pub query: Query,
    /// The ports of the first acceptable transport of SETUP.
    pub ports: Option<Ports>,
}

impl Method {
    /// Returns the method with this name, in upper case.
    #[tactic(auto, unfolding(crate::specs::Asked::method_named))]
    pub fn named(word: &[u8]) -> Option<Method>
        ensures named { result ≡ method_named word.now }
    {
        if same_bytes(word, b"OPTIONS") {
            Some(Method::Options)
        } else if same_bytes(word, b"DESCRIBE") {
            Some(Method::Describe)
        } else if same_bytes(word, b"SETUP") {
            Some(Method::Setup)
        } else if same_bytes(word, b"PLAY") {
            Some(Method::Play)
        } else if same_bytes(word, b"TEARDOWN") {
            Some(Method::Teardown)
        } else {
            None
        }
    }
}

impl Request {
    /// Returns the request of a message, or its first refusal in the order of `Refusal`.
    pub fn of(message: &Message<'_>) -> Request
        ensures asked { result ≡ asked message.now }
        ensures no_cseq { (result.refusal ≡ Some Refusal.NoCseq) ↔ (cseq_of message.now ≡ None) }
        ensures version { (result.refusal ≡ Some Refusal.Version)
            ↔ (IsSome (cseq_of message.now) × (bytes_eq message.now.version (codes "RTSP/1.0")
            ≡ false)) }
        ensures method { (result.refusal ≡ Some Refusal.Method)
            ↔ (IsSome (cseq_of message.now) × (bytes_eq message.now.version (codes "RTSP/1.0")
            ≡ true)
            × (method_named message.now.method ≡ None)) }
        ensures require { (method : Method) (kept : List ℕ) → IsServed message.now method
            → (result.refusal ≡ Some (Refusal.Require kept))
            ↔ (required_in message.now ≡ Some kept) }
        ensures target { (method : Method) → IsServed message.now method
            → required_in message.now ≡ None
            → (result.refusal ≡ Some Refusal.Target)
            ↔ (target_of (is_options_method method) message.now.target ≡ None) }
        ensures query { (method : Method) (target : TargetParts) (fault : QueryFault)
            → IsServed message.now method
            → required_in message.now ≡ None → target_of (is_options_method method)
            message.now.target ≡ Some target
            → (result.refusal ≡ Some (Refusal.Query fault))
            ↔ (query_read method target.query ≡ Err fault) }
        ensures not_broken { result.refusal ≢ Some Refusal.Broken }
        ensures not_too_long { result.refusal ≢ Some Refusal.TooLong }
    {
        let mut request = blank();
        fill(message, &mut request);
        request
    }

    /// Replaces this request by that of a message. It writes in place, since a request is large and
    /// moving it costs time.
    pub fn read(&mut self, message: &Message<'_>)
        ensures asked { self.new ≡ asked message.now }
    {
        self.clear();
        fill(message, self);
    }

    // Makes this the request that asks for nothing. It overwrites a refusal only if there is one,
    // since it is large.
    fn clear(&mut self)
        ensures blank { self.new ≡ blank }
    {
        self.cseq = None;
        if self.refusal.is_some() {
            self.refusal = None;
        }
        self.method = Method::Options;
        self.stream = None;
        self.session = SessionName::Absent;
        self.query.clear();
        self.ports = None;
    }

    /// Returns the request of a text that is no message.
    pub fn broken(cause: Break) -> Request
        ensures broken { result ≡ broken_request cause }
    {
        let mut request = blank();
        request.refusal = Some(match cause {
            Break::Bad => Refusal::Broken,
            Break::TooLong => Refusal::TooLong,
        });
        request
    }
}

// Fills a request that asks for nothing from a message. It writes the first refusal in place, since
// it is large.
#[tactic(auto, unfolding(crate::specs::Asked::asked))]
fn fill(message: &Message<'_>, into: &mut Request)
    requires blank { into.old ≡ blank }
    ensures asked { into.new ≡ asked message.now }
{
    let Some(cseq) = read_cseq(message) else {
        into.refusal = Some(Refusal::NoCseq);
        return;
    };
    into.cseq = Some(cseq);
    if !same_bytes(message.version(), b"RTSP/1.0") {
        into.refusal = Some(Refusal::Version);
        return;
    }
    match Method::named(message.method()) {
        None => into.refusal = Some(Refusal::Method),
        Some(method) => fill_served(message, method, into),
    }
}

// Fills in the rest for a message with a number, the version and a method.
fn fill_served(message: &Message<'_>, method: Method, into: &mut Request)
    requires blank { into.old ≡ record blank { cseq = into.old.cseq } }
    ensures asked { (cseq : ℕ) → into.old.cseq ≡ Some cseq
        → into.new ≡ with_method cseq message.now (Some method) }
{
    match required(message.header(b"Require")) {
        Some(value) => into.refusal = Some(Refusal::Require(Short::of(value))),
        None => fill_aimed(message, method, into),
    }
}

// Fills in the rest for a message that requires no option.
fn fill_aimed(message: &Message<'_>, method: Method, into: &mut Request)
    requires blank { into.old ≡ record blank { cseq = into.old.cseq } }
    ensures asked { (cseq : ℕ) → into.old.cseq ≡ Some cseq
        → into.new ≡ with_target cseq message.now method
        (target_of (is_options_method method) message.now.target) }
{
    let Some(target) = Target::of(message.target(), is_options(method)) else {
        into.refusal = Some(Refusal::Target);
        return;
    };
    if let Err(fault) = read_query(method, target.query(), &mut into.query) {
        into.refusal = Some(Refusal::Query(fault));
        return;
    }
    into.method = method;
    into.stream = target.stream();
    into.session = session_name(message.header(b"Session"));
    into.ports = ports_of(method, message.header(b"Transport"));
}

// Returns the request that asks for nothing.
fn blank() -> Request
    ensures blank { result ≡ blank }
{
    Request {
        cseq: None,
        refusal: None,
        method: Method::Options,
        stream: None,
        session: SessionName::Absent,
        query: Query::new(),
        ports: None,
    }
}

#[tactic(auto, using(crate::proofs::CseqLemmas::cseq_bounds), unfolding(crate::specs::Asked::cseq_of))]
fn read_cseq(message: &Message<'_>) -> Option<u32>
    ensures cseq { result ≡ cseq_of message.now }
{
    let Some(value) = message.header(b"CSeq") else {
        return None;
    };
    match read_number(value, u32::MAX as u64) {
        Some(number) => Some(number as u32),
        None => None,
    }
}

// Returns the value of `Require`, if it isn't empty.
fn required(value: Option<&[u8]>) -> Option<&[u8]>
    ensures kept { option_map (take 128) (option_copied result)
        ≡ requirement (option_copied value.entry) }
{
    match value {
        None => None,
        Some(value) if value.is_empty() => None,
        Some(value) => Some(value),
    }
}

fn is_options(method: Method) -> bool
    ensures test { result ≡ is_options_method method }
{
    match method {
        Method::Options => true,
        _ => false,
    }
}

// Reads the query if the method has one.
fn read_query(method: Method, text: &[u8], into: &mut Query) -> Result<(), QueryFault>
    requires blank { into.old ≡ new_query }
    ensures query { Answers result (query_read method text.now) into.new }
    ensures emptied { OnErr result (into.new ≡ new_query) }
{
    match method {
        Method::Setup | Method::Play => read(text, into),
        _ => Ok(()),
    }
}

fn ports_of(method: Method, value: Option<&[u8]>) -> Option<Ports>
    ensures ports { result ≡ ports_asked method (option_copied value.entry) }
{
    match (method, value) {
        (Method::Setup, Some(value)) => acceptable_ports(value),
        _ => None,
    }
}

impl Asks for Request {
    ghost use Rattle.satip_rtsp.specs.Asked.{asked, broken_request};

    ghost asked = { λ message. asked message };

    ghost broken = { λ cause. broken_request cause };

    fn found(&mut self, message: &Message<'_>) {
        self.read(message);
    }

    fn ended(&mut self, cause: Break) {
        *self = Request::broken(cause);
    }
}

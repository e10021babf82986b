//! Requests of HTTP messages.
ghost use Rattle.std.specs.Prelude.{◌≡◌, ◌≢◌, ◌↔◌, Some, None, true, false, codes};
ghost use Rattle.std.specs.Str.{bytes_eq};
ghost use Rattle.satip_query.specs.Queries.{new_query};
ghost use Rattle.satip_query.specs.Reading.{query_of};
ghost use Rattle.satip_http.specs.Gets.{AsksAtFault, IsGet, asked_get, broken_get, is_path, is_served_text, query_in, rest_text, get_of_path, get_of_query, get_of_rest};

use satip_frame::{Asks, Break, Message, after_origin};
use satip_query::{Query, QueryFault, read, same_bytes};

/// The reason that the text of a request alone is refused. The variants are in the order of the
/// checks.
#[derive(Clone, Copy, Debug, PartialEq, Eq)]
pub enum HttpRefusal {
    /// The text is no message.
    Broken,
    /// The message announces a body that is too long.
    TooLong,
    /// The version is neither `HTTP/1.0` nor `HTTP/1.1`.
    Version,
    /// The method isn't `GET`.
    Method,
    /// After its optional origin, the target begins with neither `/` nor `?`.
    Target,
    /// After its optional origin, the target begins with `/`, and `?` doesn't follow.
    NotFound,
    /// The query is at fault.
    Query(QueryFault),
}

/// A request for a stream. If it is refused, the query is the empty one.
#[derive(Clone, Copy, Debug, PartialEq, Eq)]
pub struct HttpRequest {
    pub refusal: Option<HttpRefusal>,
    pub query: Query,
}

impl HttpRequest {
    /// Returns the request of a message, or its first refusal in the order of `HttpRefusal`.
    pub fn of(message: &Message<'_>) -> HttpRequest
        ensures asked { result ≡ asked_get message.now }
        ensures version { (result.refusal ≡ Some HttpRefusal.Version)
            ↔ (is_served_text message.now.version ≡ false) }
        ensures method { (result.refusal ≡ Some HttpRefusal.Method)
            ↔ ((is_served_text message.now.version ≡ true)
            × (bytes_eq message.now.method (codes "GET") ≡ false)) }
        ensures target { (result.refusal ≡ Some HttpRefusal.Target)
            ↔ (IsGet message.now × (is_path (rest_text message.now.target) ≡ false)
            × (query_in (rest_text message.now.target) ≡ None)) }
        ensures not_found { (result.refusal ≡ Some HttpRefusal.NotFound)
            ↔ (IsGet message.now × (is_path (rest_text message.now.target) ≡ true)
            × (query_in (rest_text message.now.target) ≡ None)) }
        ensures query { (fault : QueryFault) → (result.refusal ≡ Some (HttpRefusal.Query fault))
            ↔ (IsGet message.now × AsksAtFault fault (query_in (rest_text message.now.target))) }
        ensures not_broken { result.refusal ≢ Some HttpRefusal.Broken }
        ensures not_too_long { result.refusal ≢ Some HttpRefusal.TooLong }
    {
        let mut request = blank();
        request.read(message);
        request
    }

    /// Replaces this request by that of a message. It writes in place, since a request is large and
    /// moving it costs time.
    pub fn read(&mut self, message: &Message<'_>)
        ensures asked { self.new ≡ asked_get message.now }
    {
        self.query.clear();
        self.refusal = fill(message, &mut self.query);
    }

    /// Returns the request of a text that is no message.
    pub fn broken(cause: Break) -> HttpRequest
        ensures broken { result ≡ broken_get cause }
    {
        let mut request = blank();
        request.refusal = Some(match cause {
            Break::Bad => HttpRefusal::Broken,
            Break::TooLong => HttpRefusal::TooLong,
        });
        request
    }
}

// Returns the request with the query that gives nothing.
fn blank() -> HttpRequest
    ensures blank { result ≡ record { refusal = None; query = new_query } }
{
    HttpRequest {
        refusal: None,
        query: Query::new(),
    }
}

// Reads the request of a message into a query that gives nothing. Returns the first refusal, if
// there is one.
#[tactic(auto, unfolding(crate::specs::Gets::asked_get))]
fn fill(message: &Message<'_>, into: &mut Query) -> Option<HttpRefusal>
    requires empty { into.old ≡ new_query }
    ensures asked { record { refusal = result; query = into.new } ≡ asked_get message.now }
{
    if !is_served(message.version()) {
        return Some(HttpRefusal::Version);
    }
    if !same_bytes(message.method(), b"GET") {
        return Some(HttpRefusal::Method);
    }
    fill_rest(rest_of(message.target()), into)
}

#[tactic(auto, unfolding(crate::specs::Gets::is_served_text))]
fn is_served(version: &[u8]) -> bool
    ensures test { result ≡ is_served_text version.now }
{
    same_bytes(version, b"HTTP/1.0") || same_bytes(version, b"HTTP/1.1")
}

#[tactic(auto, unfolding(crate::specs::Gets::rest_text))]
fn rest_of(target: &[u8]) -> &[u8]
    ensures rest { result.now ≡ rest_text target.now }
{
    match after_origin(b"http://", target) {
        None => target,
        Some(rest) => rest,
    }
}

#[tactic(auto, unfolding(crate::specs::Gets::get_of_rest))]
fn fill_rest(rest: &[u8], into: &mut Query) -> Option<HttpRefusal>
    requires empty { into.old ≡ new_query }
    ensures request { record { refusal = result; query = into.new } ≡ get_of_rest rest.now }
{
    if rest.starts_with(b"?") {
        fill_query(&rest[1..], into)
    } else {
        fill_path(rest, into)
    }
}

fn fill_path(path: &[u8], into: &mut Query) -> Option<HttpRefusal>
    requires empty { into.old ≡ new_query }
    ensures request { record { refusal = result; query = into.new } ≡ get_of_path path.now }
{
    if path.starts_with(b"/?") {
        fill_query(&path[2..], into)
    } else if path.starts_with(b"/") {
        Some(HttpRefusal::NotFound)
    } else {
        Some(HttpRefusal::Target)
    }
}

fn fill_query(text: &[u8], into: &mut Query) -> Option<HttpRefusal>
    ensures request { record { refusal = result; query = into.new }
        ≡ get_of_query (query_of text.now) }
{
    match read(text, into) {
        Err(fault) => Some(HttpRefusal::Query(fault)),
        Ok(()) => None,
    }
}

impl Asks for HttpRequest {
    ghost use Rattle.satip_http.specs.Gets.{asked_get, broken_get};

    ghost asked = { λ message. asked_get message };

    ghost broken = { λ cause. broken_get cause };

    fn found(&mut self, message: &Message<'_>) {
        self.read(message);
    }

    fn ended(&mut self, cause: Break) {
        *self = HttpRequest::broken(cause);
    }
}

//! Properties of methods and session names.

ghost use Rattle.std.specs.Prelude.{◌≡◌};
ghost use Rattle.satip_rtsp.specs.Methods.{changes, is_describe, is_setup, looks_at_stream, names_none, needs_session};

use crate::requests::{Method, SessionName};

impl SessionName {
    /// Returns whether no session is named.
    pub fn names_none(self) -> bool
        ensures none { result ≡ names_none self }
    {
        match self {
            SessionName::Absent => true,
            SessionName::Named(_) => false,
            SessionName::Other => false,
        }
    }
}

impl Method {
    /// Returns whether the method is refused without a session (RFC 2326, sections 10.5 and 10.7).
    pub fn needs_session(self) -> bool
        ensures needs { result ≡ needs_session self }
    {
        match self {
            Method::Options => false,
            Method::Describe => false,
            Method::Setup => false,
            Method::Play => true,
            Method::Teardown => true,
        }
    }

    /// Returns whether the method is SETUP.
    pub fn is_setup(self) -> bool
        ensures setup { result ≡ is_setup self }
    {
        match self {
            Method::Setup => true,
            _ => false,
        }
    }

    /// Returns whether the query of the method changes a stream.
    pub fn changes(self) -> bool
        ensures changes { result ≡ changes self }
    {
        match self {
            Method::Setup => true,
            Method::Play => true,
            _ => false,
        }
    }

    /// Returns whether the method is DESCRIBE.
    pub fn is_describe(self) -> bool
        ensures describe { result ≡ is_describe self }
    {
        match self {
            Method::Describe => true,
            _ => false,
        }
    }

    /// Returns whether a stream that the target names has to live.
    pub fn looks_at_stream(self) -> bool
        ensures looks { result ≡ looks_at_stream self }
    {
        match self {
            Method::Options => false,
            _ => true,
        }
    }
}

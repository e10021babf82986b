//! Queries.

ghost use Rattle.std.specs.Prelude.{◌≡◌};
ghost use Rattle.satip_query.specs.Queries.{are_given_by, gives_key, is_given, new_query};

use satip_pids::PidList;
use satip_tune::{Change, Key};

/// A query: the fields of a tuning that it gives, the PIDs that it selects, and those that it adds
/// and removes.
#[derive(Clone, Copy, Debug, PartialEq, Eq)]
pub struct Query {
    pub change: Change,
    pub pids: PidsGiven,
    pub addpids: Option<PidList>,
    pub delpids: Option<PidList>,
}

/// The value of `pids` in a query: absent, `all`, `none`, or a list.
#[derive(Clone, Copy, Debug, PartialEq, Eq)]
pub enum PidsGiven {
    Absent,
    All,
    Empty,
    List(PidList),
}

impl Query {
    /// Returns the query that gives nothing.
    pub fn new() -> Query
        ensures empty { result ≡ new_query }
    {
        Query {
            change: no_change(),
            pids: PidsGiven::Absent,
            addpids: None,
            delpids: None,
        }
    }

    /// Makes this the query that gives nothing. It overwrites a list only if that is given, since
    /// lists are large.
    pub fn clear(&mut self)
        ensures empty { self.new ≡ new_query }
    {
        self.change = no_change();
        if self.pids.are_given() {
            self.pids = PidsGiven::Absent;
        }
        if self.addpids.is_some() {
            self.addpids = None;
        }
        if self.delpids.is_some() {
            self.delpids = None;
        }
    }

    /// Returns whether a key is given.
    pub fn gives(&self, key: Key) -> bool
        ensures given { result ≡ is_given self.now key }
    {
        match key {
            Key::Pids => self.pids.are_given(),
            Key::Addpids => self.addpids.is_some(),
            Key::Delpids => self.delpids.is_some(),
            _ => self.change.gives(key),
        }
    }

    /// Returns whether at least one known key is given.
    pub fn any(&self) -> bool
        ensures given { result ≡ gives_key self.now }
    {
        self.change.any()
            || self.gives(Key::Pids)
            || self.gives(Key::Addpids)
            || self.gives(Key::Delpids)
    }
}

// Returns the change that gives nothing.
fn no_change() -> Change
    ensures empty { result ≡ new_query.change }
{
    Change {
        fe: None,
        src: None,
        freq: None,
        pol: None,
        ro: None,
        msys: None,
        mtype: None,
        plts: None,
        sr: None,
        fec: None,
    }
}

impl PidsGiven {
    /// Returns whether `pids` is given.
    pub fn are_given(&self) -> bool
        ensures given { result ≡ are_given_by self.now }
    {
        match *self {
            PidsGiven::Absent => false,
            _ => true,
        }
    }
}

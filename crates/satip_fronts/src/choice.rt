//! The cases in which a stream gets a front end.

ghost use Rattle.std.specs.Prelude.{◌≡◌};
ghost use Rattle.satip_fronts.specs.Choice.{is_tuned_to, may_take_if, placed};

use crate::front_table::is_at_front;

/// The front end that a stream gets, by its number, and whether it has to be tuned for it.
#[derive(Clone, Copy, Debug, PartialEq, Eq)]
pub struct Place {
    pub front: u16,
    pub anew: bool,
}

/// The cases of retuning, in the order in which they are tried.
#[derive(Clone, Copy)]
pub enum Case {
    /// The stream stays at a front end that is tuned to its multiplex.
    Keep,
    /// The stream joins others at a front end that is tuned to its multiplex.
    Share,
    /// The stream stays alone at its front end, which is retuned.
    Retune,
    /// The stream gets a front end that serves no stream, which is tuned.
    Start,
}

/// Returns whether a front end with the multiplex `has` is tuned to the wanted one.
pub fn is_tuned(wanted: Option<u16>, has: Option<u16>) -> bool
    ensures tuned { result ≡ is_tuned_to wanted has }
{
    match wanted {
        None => false,
        Some(wanted) => is_at_front(wanted, has),
    }
}

/// Returns whether a front end that fits may be taken in this case. `own` is whether the stream is
/// at it, `tuned` whether it is tuned to the wanted multiplex, and `shared` whether it serves
/// another stream.
pub fn may_take(case: Case, own: bool, tuned: bool, shared: bool) -> bool
    ensures case { result ≡ may_take_if case own tuned shared }
{
    match case {
        Case::Keep => own && tuned,
        Case::Share => tuned,
        Case::Retune => own && !shared,
        Case::Start => !own && !shared,
    }
}

/// Returns the place at this front end, if there is one.
#[tactic(auto, unfolding(crate::specs::Choice::placed))]
pub fn place_at(anew: bool, front: Option<u16>) -> Option<Place>
    ensures place { result ≡ placed anew front }
{
    match front {
        None => None,
        Some(front) => Some(Place { front, anew }),
    }
}

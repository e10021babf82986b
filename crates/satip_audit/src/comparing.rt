//! Compares answers, replies and datagrams.

ghost use Rattle.std.specs.Prelude.{◌≡◌, ◌≢◌};
ghost use Rattle.std.specs.Bool.{MatchBool};
ghost use Rattle.satip_base.specs.Output.{shown};
ghost use Rattle.satip_audit.specs.Replaying.{SaysSame};

use crate::cutting::same_bytes;
use satip_base::{Address, Out};
use satip_plain::Answer;

/// Tells whether two answers are the same.
pub(crate) fn same_answer(a: Answer, b: Answer) -> bool
    ensures same { MatchBool result (a ≡ b) (a ≢ b) }
{
    a == b
}

/// Tells whether two outputs have the same reply and the same datagrams.
pub(crate) fn same_output(a: &Out, b: &Out) -> bool
    ensures same { MatchBool result (SaysSame a.now b.now) (SaysSame a.now b.now → ⊥) }
{
    if !same_bytes(a.reply(), b.reply()) {
        return false;
    }
    same_datagrams(a, b)
}

fn same_datagrams(a: &Out, b: &Out) -> bool
    ensures same { MatchBool result (a.now.datagrams ≡ b.now.datagrams)
        (a.now.datagrams ≢ b.now.datagrams) }
{
    if a.count() != b.count() {
        return false;
    }
    'datagrams: for place in 0..a.count() {
        if !same_datagram(a.datagram(place), b.datagram(place)) {
            return false;
        }
    }
    true
}

fn same_datagram(a: Option<(Address, &[u8])>, b: Option<(Address, &[u8])>) -> bool
    ensures same { MatchBool result (shown a.entry ≡ shown b.entry)
        (shown a.entry ≢ shown b.entry) }
{
    match a {
        None => match b {
            None => true,
            Some(_) => false,
        },
        Some((to, bytes)) => match b {
            None => false,
            Some((other, others)) => to == other && same_bytes(bytes, others),
        },
    }
}

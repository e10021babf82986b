//! A try beside a burst that holds the turn.
ghost use Rattle.std.specs.Prelude.{◌≡◌, Some, None, refl, if◌then◌else◌};
ghost use Rattle.satip_plain.specs.declared.events.Event.TheVariants.{Ask};
ghost use Rattle.satip_plain.specs.Histories.{Legal};
ghost use Rattle.satip_turn.specs.Shown.{IsOf, Knows};

use super::{output, shared};
use crate::checks::check;
use crate::threads::{pass_gate, try_beside};
use satip_base::Out;
use satip_plain::{Answer, Event, Lot, Service};
use satip_shared::{Caller, SharedPass, SharedServer};
use std::sync::Wait;
use std::sync::atomic::AtomicBool;
use std::thread::{Threads, join};

// A lot that gives one question, once its gate is open.
#[derive(Drop)]
struct GatedLot<'a> {
    inside: &'a AtomicBool,
    open: &'a AtomicBool,
    asked: bool,
    given: bool,
    ended: bool,
}

impl<'a> Lot for GatedLot<'a> {
    ghost given = { λ lot. if lot.given then Some (Ask 1) else None };

    ghost ended = { λ lot. lot.ended };

    ghost has_taken = { λ _ _ ts. ts ≡ ts };

    ghost took_last = { λ _ _. Unit {0} };

    ghost none_taken = { λ _. refl };

    fn next(&mut self, event: &mut Event) -> bool {
        pass_gate(self.inside, self.open);
        if self.asked {
            self.ended = true;
            return false;
        }
        self.asked = true;
        self.given = true;
        *event = Event::Ask { front: 1 };
        true
    }

    fn took(&mut self, _answer: &Answer, _out: &Out) {
        self.given = false;
    }
}

// A burst that keeps the turn while its gate is closed.
fn burst_gated<R: Wait + Sync>(
    rt: &R,
    server: &SharedServer,
    pass: SharedPass,
    inside: &AtomicBool,
    open: &AtomicBool,
    mut out: Out,
) -> bool
    requires of { IsOf pass server.now }
    requires knows { Knows (Legal server.now.setting) pass }
{
    let mut caller = Caller { rt, server, pass };
    let mut lot = GatedLot {
        inside,
        open,
        asked: false,
        given: false,
        ended: false,
    };
    caller.burst(&mut lot, &mut Event::Stop, &mut out).is_ok()
}

// Makes a burst in one thread, and tries to stop the server in another. Returns whether the burst
// was made, and how the tries went.
fn burst_beside_try<R: Threads + Wait + Sync>(
    rt: &R,
    server: &SharedServer,
    mut first: SharedPass,
    inside: &AtomicBool,
    open: &AtomicBool,
    left: Out,
    mut right: Out,
) -> [bool; 2]
    requires of { IsOf first server.now }
{
    let second = server.split(&mut first);
    let (called, busy) = join(
        rt,
        move || -> bool
            requires of { IsOf first server.now }
            requires knows { Knows (Legal server.now.setting) first }
        { burst_gated(rt, server, first, inside, open, left) },
        move || -> bool
            requires { IsOf second server.now }
        { try_beside(server, second, &Event::Stop, &mut right, inside, open) },
    );
    [called, busy]
}

#[test]
fn a_try_beside_a_burst_is_busy(rt: HostRuntime) {
    let inside = AtomicBool::new(false);
    let open = AtomicBool::new(false);
    let left = output(&rt, rt.alloc());
    let right = output(&rt, rt.alloc());
    let (server, first) = shared(&rt, rt.alloc());
    let tried = burst_beside_try(&rt, &server, first, &inside, &open, left, right);
    check(&rt, "called, busy", tried, [true, true]);
}

//! Callers of a shared tunnel.
ghost use Rattle.std.specs.Prelude.{◌≡◌, ◌+◌, ◌<◌, [], ◌∷◌, length};
ghost use Rattle.satip_base.specs.Output.{empty};
ghost use Rattle.satip_base.specs.History.{entry, taken};
ghost use Rattle.satip_plain.specs.declared.answers.Answer.TheVariants.{Beat as BeatTold};
ghost use Rattle.satip_plain.specs.declared.answers.Beat.TheVariants.{Stopping};
ghost use Rattle.satip_plain.specs.declared.events.Event.TheVariants.{Stop};
ghost use Rattle.satip_interleave.specs.declared.events.TunnelEvent.TheVariants.{Inner, Enter};
ghost use Rattle.satip_interleave.specs.declared.events.TunnelAnswer.TheVariants.{Inner as Told, Lane, Full};
ghost use Rattle.satip_interleave.specs.Histories.{TunnelLegal, inners};
ghost use Rattle.satip_turn.specs.Shown.{IsOf, Knows, first_pass, met_once, newborn};
ghost use Rattle.satip_interleave.specs.Calling.{SameCaller, known_by, outers};
ghost use Rattle.satip_interleave.specs.Taking.{inners_taken};

mod asks;
mod threads;

use crate::checks::check;
use crate::setting::shared_of_two;
use asks::Asks;
use satip_base::Out;
use satip_interleave::{SharedTunnel, TunnelAnswer, TunnelCaller, TunnelEvent, TunnelPass};
use satip_plain::{Answer, Event, Service, Work};
use std::process::Abort;
use std::sync::Wait;

// Which entries are the server's, and which are the lanes'.
fn entry_rows()
    ensures inner { inners (entry 1 (Inner Stop) (Told (BeatTold Stopping)) empty
        ∷ entry 2 Enter (Lane 1) empty ∷ []) ≡ entry 1 Stop (BeatTold Stopping) empty ∷ [] }
    ensures outer { outers (entry 1 (Inner Stop) (Told (BeatTold Stopping)) empty
        ∷ entry 2 Enter (Lane 1) empty ∷ []) ≡ entry 2 Enter (Lane 1) empty ∷ [] }
    ensures taken { inners_taken (taken Enter Full empty
        ∷ taken (Inner Stop) (Told (BeatTold Stopping)) empty ∷ [])
        ≡ taken Stop (BeatTold Stopping) empty ∷ [] }
{}

// The first pass knows nothing; a caller that met a taken turn is the same, one of another number
// or with an entry of the lanes isn't.
fn caller_rows(tunnel: &SharedTunnel, number: u64)
    ensures nothing { known_by (first_pass tunnel.now)
        ≡ record { seen = []; own = []; length = 0 } }
    ensures lanes { known_by (record (first_pass tunnel.now)
        { seen = entry 2 Enter (Lane 1) empty ∷ [] }) ≡ record { seen = []; own = []; length = 1 } }
    ensures same { SameCaller tunnel.now (first_pass tunnel.now) tunnel.now
        (met_once (first_pass tunnel.now)) }
    ensures other { 0 < number → ¬ (SameCaller tunnel.now (first_pass tunnel.now) tunnel.now
        (newborn (first_pass tunnel.now) number)) }
    ensures entered { ¬ (SameCaller tunnel.now (first_pass tunnel.now) tunnel.now
        (record (first_pass tunnel.now) { own = entry 0 Enter (Lane 1) empty ∷ [] })) }
{
    let _tunnel = tunnel;
    let _ = number;
}

// The first caller asks, the second enters, and the first asks again. Returns the first one's pass,
// and the three answers.
fn ask_enter_ask<R: Wait + Sync + Abort>(
    rt: &R,
    server: &SharedTunnel,
    first: TunnelPass,
    out: &mut Out,
) -> (TunnelPass, Answer, TunnelAnswer, Answer)
    requires of { IsOf first server.now }
    requires knows { Knows (TunnelLegal server.now.setting) first }
    ensures own { length (inners result.0.own) ≡ length (inners first.own) + 2 }
{
    let mut first = first;
    let mut second = server.split(&mut first);
    let mut one = TunnelCaller {
        rt,
        server,
        pass: first,
    };
    let Ok(before) = one.call(&Event::Ask { front: 1 }, out) else {
        rt.panic("spent");
    };
    let Ok(entered) = server.call(rt, &mut second, &TunnelEvent::Enter, out) else {
        rt.panic("spent");
    };
    let Ok(after) = one.call(&Event::Ask { front: 1 }, out) else {
        rt.panic("spent");
    };
    (one.pass, before, entered, after)
}

#[test]
fn a_caller_counts_entries_of_lanes(rt: HostRuntime) {
    let mut out = Out::make(rt.alloc()).expect(&rt, "out of memory");
    let (server, first) = shared_of_two(&rt, rt.alloc());
    let (pass, before, entered, after) = ask_enter_ask(&rt, &server, first, &mut out);
    let nothing = Answer::Work(Work::Nothing);
    let wanted = (nothing, TunnelAnswer::Lane(1), nothing);
    check(&rt, "answers", (before, entered, after), wanted);
    check(&rt, "entries", pass.place(), 3);
}

// Makes a lot of seventy events in two bursts, and asserts how many each makes.
fn burst_twice<R: Wait + Sync + Abort>(
    rt: &R,
    server: &SharedTunnel,
    pass: TunnelPass,
    out: &mut Out,
)
    requires of { IsOf pass server.now }
    requires knows { Knows (TunnelLegal server.now.setting) pass }
{
    let mut caller = TunnelCaller { rt, server, pass };
    let mut asks = Asks::new(70);
    let mut room = TunnelEvent::Enter;
    caller.burst(&mut asks, &mut room, out).expect(rt, "spent");
    check(rt, "first burst", caller.pass.place(), 64);
    if asks.ended || asks.given {
        rt.panic("the first burst took all");
    }
    caller.burst(&mut asks, &mut room, out).expect(rt, "spent");
    check(rt, "both bursts", (caller.pass.place(), asks.left), (70, 0));
}

#[test]
fn a_burst_makes_up_to_64(rt: HostRuntime) {
    let mut out = Out::make(rt.alloc()).expect(&rt, "out of memory");
    let (server, first) = shared_of_two(&rt, rt.alloc());
    burst_twice(&rt, &server, first, &mut out);
}

//! `Solo`, a service of one thread.
ghost use Rattle.std.specs.Prelude.{◌≡◌, ◌<◌, ◌^◌, length};
ghost use Rattle.satip_plain.specs.Histories.{Legal};
ghost use Rattle.satip_plain.specs.Single.{legal_prop};

use crate::history::History;
use satip_base::{Entry, Out, Want};
use satip_core::Server;
use satip_plain::{Answer, Event, Lot, Service, ServiceFault};
use std::alloc::Global;

/// A server with one caller, and each entry of its history. The calls are those of caller 0; one
/// Stop may be that of caller 1. Each event of a burst counts as a call.
#[derive(Drop)]
pub struct Solo {
    history: History,
    ghost lawful: { Legal history.setting history.entries } by { legal_prop
        history.setting history.entries },
    ghost short: { length history.entries < 2 ^ 64 },
}

impl Solo {
    ghost use Rattle.std.specs.Prelude.{[], IfOk};
    ghost use Rattle.satip_core.specs.Serving.{StandsAfter};
    ghost use Rattle.satip_solo.specs.Log.{new_log};
    ghost use Rattle.satip_solo.specs.Solos.{log_of};

    /// Creates a service over a server with the empty history. Just before the call of this number,
    /// from 0, caller 1 executes a Stop.
    pub fn make(alloc: Global, server: Server, stop: Option<u64>) -> Result<Solo, Want>
        requires fresh { StandsAfter server [] }
        ensures ok { IfOk result (λ solo. log_of solo ≡ new_log server.setting stop) }
    {
        Ok(Solo {
            history: History::new(alloc, server, stop),
        })
    }

    /// Returns the entries, oldest first.
    pub fn entries(&self) -> &[Entry<Event, Answer, Out>]
        ensures entries { result.now ≡ (log_of self.now).entries }
    {
        self.history.entries()
    }
}

impl Service for Solo {
    type Room = Event;

    ghost use Rattle.std.proofs.Common.{◌∙◌};
    ghost use Rattle.std.specs.Prelude.{true, false, refl, List, None, MatchResult, IfErr, OnOk};
    ghost use Rattle.satip_base.specs.Output.{Output};
    ghost use Rattle.satip_base.specs.declared.entry.Taken.{Taken};
    ghost use Rattle.satip_plain.specs.declared.answers.Answer.{Answer as Answered};
    ghost use Rattle.satip_plain.specs.declared.events.Event.{Event as Happening};
    ghost use Rattle.satip_plain.specs.Calls.{Called, Bursts};
    ghost use Rattle.satip_solo.specs.Log.{Goes, GoesOn, known_of};
    ghost use Rattle.satip_solo.specs.Solos.{log_of};

    ghost setting = { λ s. (log_of s).setting };

    ghost legal = { λ c h. Legal c h };

    ghost known = { λ s. known_of (log_of s) };

    ghost may_want = { λ _. true };

    ghost same = { λ s t. (log_of t).setting ≡ (log_of s).setting };

    ghost is_legal = { λ s. s.lawful };

    ghost is_short = { λ s. s.short };

    ghost same_self = { λ _. refl };

    ghost same_then = { λ r s t a b. b ∙ a };

    ghost same_setting = { λ _ _ a. a };

    ghost same_want = { λ _ _ _. refl };

    fn room() -> Event {
        Event::Stop
    }

    /// Executes the event as caller 0, after the Stop of caller 1 if that is due. Out of memory,
    /// neither is executed.
    fn call(&mut self, event: &Event, out: &mut Out) -> Result<Answer, ServiceFault>
        ensures same { (log_of self.new).setting ≡ (log_of self.old).setting }
        ensures called { Called true (known_of (log_of self.old)) (known_of (log_of self.new))
            event.now out.new result }
        ensures goes { MatchResult result
            (λ answer. Goes (log_of self.old) event.now answer out.new (log_of self.new))
            (λ fault. (fault ≡ ServiceFault.Want) × (log_of self.new ≡ log_of self.old)) }
    {
        self.history.make(event, out)
    }

    /// Executes the events of the lot as calls one after another. The only fault is out of memory;
    /// the last event that the lot gave isn't executed then.
    fn burst<L: Lot>(
        &mut self,
        lot: &mut L,
        room: &mut Event,
        out: &mut Out,
    ) -> Result<(), ServiceFault>
        requires open { L.ended lot.old ≡ false }
        requires none { L.given lot.old ≡ None }
        ensures same { (log_of self.new).setting ≡ (log_of self.old).setting }
        ensures bursts { Bursts true (known_of (log_of self.old)) (known_of (log_of self.new))
            (L.ended lot.new) (L.given lot.new) (L.has_taken lot.old lot.new) result }
        ensures took_last { OnOk result
            (L.took_last lot.old out.old → L.took_last lot.new out.new) }
        ensures wants { IfErr result (λ fault. fault ≡ ServiceFault.Want) }
        ensures goes { (ts : List (Taken Happening Answered Output))
            × L.has_taken lot.old lot.new ts
            × GoesOn (log_of self.old) ts (log_of self.new) }
    {
        for made in 0..64u32 {
            if !lot.next(room) {
                return Ok(());
            }
            let _ = made;
            match self.history.make(room, out) {
                Ok(answer) => lot.took(&answer, out),
                Err(fault) => return Err(fault),
            }
        }
        Ok(())
    }
}

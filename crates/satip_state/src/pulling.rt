//! Pulls and closes of HTTP sessions.

ghost use Rattle.std.specs.Prelude.{◌≡◌, ◌≢◌, ◌+◌, ◌≤◌, [], Option};
ghost use Rattle.satip_base.specs.Output.{Wrote};
ghost use Rattle.satip_plain.specs.declared.answers.Answer.TheVariants.{Pulled as PulledIs, Closed as ClosedIs};
ghost use Rattle.satip_plain.specs.Types.{Config};
ghost use Rattle.satip_plain.specs.State.{State};
ghost use Rattle.satip_plain.specs.Steps.{on_close, on_pull};
ghost use Rattle.satip_state.specs.Standing.{StandsFor, Moved};
ghost use Rattle.satip_state.specs.Pulling.{pulled_is};

use crate::parts::Parts;
use satip_base::limits::{DATAGRAM, PULLED_BYTES};
use satip_base::{Out, SessionId};
use satip_plain::{Closed, Pulled};

impl Parts {
    /// Moves the first packets of an HTTP session's queue, at most 64, to the reply; returns the
    /// count of their bytes. Counts as activity of the session. Returns `Empty` if nothing is
    /// queued. Returns `Gone`, and changes nothing, if there is no such HTTP session.
    pub fn pull(&mut self, id: SessionId, out: &mut Out) -> Pulled
        requires room { PULLED_BYTES ≤ out.old.reply_spare }
        ensures answer { (c : Config) (st : State) → StandsFor c self.old st
            → PulledIs result ≡ (on_pull id st).answer }
        ensures stands { (c : Config) (st : State) → StandsFor c self.old st
            → StandsFor c self.new (on_pull id st).state }
        ensures wrote { (c : Config) (st : State) → StandsFor c self.old st
            → Wrote out.old (on_pull id st).reply out.new }
    {
        let Some(seat) = self.seat_of(id) else {
            return Pulled::Gone;
        };
        if !seat.session.http {
            return Pulled::Gone;
        }
        let before = out.reply().len();
        let moved = self.flow.pull(seat.slot, out);
        self.hear(id);
        pulled_of(moved, out.reply().len().saturating_sub(before))
    }

    /// Ends an HTTP session and drops its queue. Returns `Gone`, and changes nothing, if there is
    /// no such HTTP session.
    pub fn close(&mut self, id: SessionId, out: &mut Out) -> Closed
        requires bytes { DATAGRAM ≤ out.old.datagram_spare }
        requires count { out.old.count_spare ≢ 0 }
        ensures answer { (c : Config) (st : State) → StandsFor c self.old st
            → ClosedIs result ≡ (on_close id st).answer }
        ensures moved { (c : Config) (st : State) → StandsFor c self.old st
            → Moved c self.new out.old out.new
            (record { state = (on_close id st).state; sent = (on_close id st).sent }) }
        ensures silent { (c : Config) (st : State) → StandsFor c self.old st
            → (on_close id st).sent ≡ [] }
    {
        let Some(seat) = self.seat_of(id) else {
            return Closed::Gone;
        };
        if !seat.session.http {
            return Closed::Gone;
        }
        let _lived = self.end_session(id, out);
        Closed::Yes
    }
}

// Returns the answer to a pull that moved `moved` packets, or found no queue, and wrote `bytes`
// bytes.
fn pulled_of(moved: Option<usize>, bytes: usize) -> Pulled
    ensures pulled { result ≡ pulled_is moved bytes }
{
    match moved {
        None => Pulled::Gone,
        Some(moved) => {
            if moved == 0 {
                return Pulled::Empty;
            }
            Pulled::Bytes(bytes)
        }
    }
}

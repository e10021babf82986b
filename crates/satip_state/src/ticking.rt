//! The tick: the clock advances, held packets leave, sessions without activity end, and reports
//! leave.

ghost use Rattle.std.specs.Prelude.{◌≡◌, ◌≢◌, ℕ, ◌+◌, ◌≤◌, nat_le, max, true, Some, slice_get};
ghost use Rattle.std.specs.Option.{option_map_or};
ghost use Rattle.satip_plain.specs.Types.{Config};
ghost use Rattle.satip_plain.specs.State.{State};
ghost use Rattle.satip_plain.specs.Steps.{capped, end_where, is_expired, send_reports as sends_reports, tick as ticked};
ghost use Rattle.satip_state.specs.Standing.{StandsFor, Moved};
ghost use Rattle.satip_state.specs.Turns.{after_round, is_row_due, report_turn, turn_of};

use crate::making::LAST_MOMENT;
use crate::parts::Parts;
use satip_base::limits::{REPORT, REPORT_MS, REPORTS, SESSIONS};
use satip_base::{Address, Out};
use satip_flow::SenderState;
use satip_rtcp::Sender;
use satip_table::{Seat, Session};

impl Parts {
    /// Advances the clock to `now`, in milliseconds of Unix time; later times than 2^48 - 1 count
    /// as that. Held packets leave, and each session without activity for the timeout ends. Each
    /// playing RTSP session gets a report every 200 milliseconds (SAT>IP 1.2.2, 3.5.13). `address`
    /// is the server's IPv4 address.
    pub fn tick(&mut self, now: u64, address: u32, out: &mut Out)
        requires bytes { 187392 ≤ out.old.datagram_spare }
        requires count { 128 ≤ out.old.count_spare }
        ensures moved { (c : Config) (st : State) → StandsFor c self.old st → address ≡ c.address
            → Moved c self.new out.old out.new (ticked c now st) }
        ensures bytes_spare { out.old.datagram_spare ≤ out.new.datagram_spare + 187392 }
        ensures count_spare { out.old.count_spare ≤ out.new.count_spare + 128 }
    {
        self.advance(now);
        self.flush_all(out);
        self.end_expired();
        self.send_reports(address, out);
    }

    // Advances the clock, never back.
    fn advance(&mut self, now: u64)
        ensures advanced { (c : Config) (st : State) → StandsFor c self.old st
            → StandsFor c self.new (record st { clock = max st.clock (capped now) }) }
    {
        self.clock = self.clock.max(now.min(LAST_MOMENT));
    }

    // Ends each session without activity for the timeout, without sending what it holds.
    fn end_expired(&mut self)
        ensures ended { (c : Config) (st : State) → StandsFor c self.old st
            → StandsFor c self.new (end_where (is_expired c st.clock) st).state }
    {
        let now = self.clock;
        while let Some(slot) = self.timer.due(now) {
            let Some(seat) = self.seat_at(slot) else {
                return;
            };
            let _lived = self.drop_session(seat.session.id);
        }
    }

    // Sends a report to each session that is due for one.
    fn send_reports(&mut self, address: u32, out: &mut Out)
        requires bytes { REPORTS ≤ out.old.datagram_spare }
        requires count { SESSIONS ≤ out.old.count_spare }
        ensures moved { (c : Config) (st : State) → StandsFor c self.old st → address ≡ c.address
            → Moved c self.new out.old out.new (sends_reports c st) }
        ensures bytes_spare { out.old.datagram_spare ≤ out.new.datagram_spare + REPORTS }
        ensures count_spare { out.old.count_spare ≤ out.new.count_spare + SESSIONS }
    {
        for place in 0..self.table.count() {
            self.report_place(place, address, out);
        }
    }

    // Sends a report to the session at a place, if it is due for one.
    fn report_place(&mut self, place: usize, address: u32, out: &mut Out)
        requires bytes { REPORT ≤ out.old.datagram_spare }
        requires count { out.old.count_spare ≢ 0 }
        ensures moved { (c : Config) (st : State) → StandsFor c self.old st → address ≡ c.address
            → Moved c self.new out.old out.new
            (after_round st (turn_of place (report_turn c st) st.sessions)) }
        ensures bytes_spare { out.old.datagram_spare ≤ out.new.datagram_spare + REPORT }
        ensures count_spare { out.old.count_spare ≤ out.new.count_spare + 1 }
    {
        let Some(seat) = self.seat(place) else {
            return;
        };
        if !is_report_due(self.clock, &seat.session) {
            return;
        }
        self.report(&seat, address, out);
    }

    // Sends a report to the session of this seat. Not inlined, so that sessions that aren't due
    // need no room for a view.
    #[inline(never)]
    fn report(&mut self, seat: &Seat, address: u32, out: &mut Out)
        requires bytes { REPORT ≤ out.old.datagram_spare }
        requires count { out.old.count_spare ≢ 0 }
        ensures moved { (c : Config) (st : State) (place : ℕ) → StandsFor c self.old st
            → address ≡ c.address
            → slice_get self.old.table.seats place ≡ Some seat.now
            → is_row_due self.old.clock seat.now.session ≡ true
            → Moved c self.new out.old out.new
            (after_round st (turn_of place (report_turn c st) st.sessions)) }
        ensures bytes_spare { out.old.datagram_spare ≤ out.new.datagram_spare + REPORT }
        ensures count_spare { out.old.count_spare ≤ out.new.count_spare + 1 }
    {
        let Some(stream) = self.table.find_stream(seat.session.stream) else {
            return;
        };
        let view = self.shown(stream);
        let Some(sent) = self.flow.state(seat.slot) else {
            return;
        };
        let sender = sender_of_session(self.clock, address, &seat.session, &sent);
        self.texts.write_report(&view, &sender, out);
        let _lived = self.table.reported(seat.session.id, self.clock);
    }
}

// Returns whether a session plays over RTSP, and its last report is at least 200 milliseconds old.
fn is_report_due(clock: u64, session: &Session) -> bool
    ensures due { result ≡ is_row_due clock session.now }
{
    session.playing && !session.http && is_old(session.reported, clock)
}

// Returns whether there was no report, or it is at least 200 milliseconds old.
fn is_old(reported: Option<u64>, clock: u64) -> bool
    ensures old { result ≡ option_map_or (λ at. nat_le (at + REPORT_MS) clock) reported true }
{
    match reported {
        None => true,
        Some(at) => clock.saturating_sub(at) >= REPORT_MS,
    }
}

// Returns the sender part of the session's report: addresses, clock and counts.
fn sender_of_session(clock: u64, address: u32, session: &Session, sent: &SenderState) -> Sender
    ensures to { result.to ≡ record { ip = session.now.peer.ip; port = session.now.ports.rtcp } }
    ensures ssrc { result.ssrc ≡ session.now.ssrc }
    ensures clock { result.clock ≡ clock }
    ensures datagrams { result.datagrams ≡ sent.now.datagrams }
    ensures octets { result.octets ≡ sent.now.octets }
    ensures address { result.address ≡ address }
{
    Sender {
        to: Address {
            ip: session.peer.ip,
            port: session.ports.rtcp,
        },
        ssrc: session.ssrc,
        clock,
        datagrams: sent.datagrams,
        octets: sent.octets,
        address,
    }
}

//! The type `Catcher`. A clause sees its source, the next number to hand up, and the places that it
//! holds from that one on.
ghost use Rattle.std.specs.Prelude.{◌≡◌, false, IfOk, IsNone};
ghost use Rattle.satip_rtp_receiver.specs.Catching.{Rests, after_item, catching, datagram, ended, is_caught, next_item, taken};

use crate::holding::{PLACES, Ring, due_of, hold, pass_missing, pop_first, settle};
use crate::item::Item;
use crate::tail::Tail;
use crate::view::RtpView;
use satip_base::Want;
use std::alloc::Global;
use std::marker::Model;

/// Puts the datagrams of one source in order, each at most once. Waits for a missing one until one
/// arrived whose number is 64 or more ahead. `make` takes all memory.
#[derive(Drop)]
pub struct Catcher {
    source: Option<u32>,
    next: u16,
    ring: Ring,
    tail: Option<Tail>,
    finished: bool,
}

impl Model for Catcher {
    ghost use Rattle.std.specs.Prelude.{◌≡◌};
    ghost use Rattle.satip_rtp_receiver.specs.Catching.{Catch};
    ghost use Rattle.satip_rtp_receiver.specs.Held.{held_by, IsNear};

    ghost Value = { Catch };

    ghost view = { λ c. record {
      source = c.source;
      next = c.next;
      held = held_by c.ring c.tail;
      finished = c.finished;
    } };

    ghost invariant = { λ c. (c.ring.capacity ≡ 64) × IsNear c.tail };
}

impl Catcher {
    /// Takes all memory: 64 places for the packets of a datagram.
    pub fn make(alloc: Global) -> Result<Catcher, Want>
        ensures ok { IfOk result (λ catcher. catcher ≡ catching) }
    {
        let Ok(ring) = Ring::with_capacity(alloc, PLACES) else {
            return Err(Want);
        };
        Ok(Catcher {
            source: None,
            next: 0,
            ring,
            tail: None,
            finished: false,
        })
    }

    /// Takes a datagram. Returns false exactly if it is of another source than the first one taken,
    /// or if its number was passed or is held; then nothing changes. Between two calls the caller
    /// asks for items until `next` returns None.
    pub fn take(&mut self, view: &RtpView) -> bool
        requires rests { Rests self.old }
        ensures caught { result ≡ is_caught (datagram view.now) self.old }
        ensures taken { self.new ≡ taken (datagram view.now) self.old }
    {
        let next = match self.source {
            None => view.number,
            Some(source) => {
                if source != view.ssrc {
                    return false;
                }
                self.next
            }
        };
        settle(&mut self.ring, &mut self.tail);
        let ahead = view.number.wrapping_sub(next) as usize;
        if !hold(&mut self.ring, &mut self.tail, ahead, view.packets) {
            return false;
        }
        self.source = Some(view.ssrc);
        self.next = next;
        true
    }

    /// Says that no datagram follows, so missing ones aren't waited for.
    pub fn finish(&mut self)
        requires rests { Rests self.old }
        ensures ended { self.new ≡ ended self.old }
    {
        self.finished = true;
    }

    /// Returns the next item. Returns None exactly if nothing can be handed up before the next
    /// datagram or `finish`.
    pub fn next(&mut self) -> Option<Item>
        ensures item { result ≡ next_item self.old }
        ensures after { self.new ≡ after_item self.old }
        ensures rests { IsNone result → self.old.finished ≡ false → Rests self.new }
    {
        let most = due_of(&self.ring, &self.tail, self.finished);
        if let Some(packets) = pop_first(&mut self.ring, &mut self.tail) {
            let number = self.next;
            self.next = self.next.wrapping_add(1);
            return Some(Item::Data { number, packets });
        }
        let count = pass_missing(&mut self.ring, &mut self.tail, most);
        if count == 0 {
            return None;
        }
        let from = self.next;
        self.next = self.next.wrapping_add(count as u16);
        Some(Item::Gap { from, count })
    }
}

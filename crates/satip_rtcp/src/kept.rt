//! SES1 texts that are kept until their stream changes.

ghost use Rattle.std.specs.Prelude.{◌≡◌, ◌≢◌, ◌≤◌, true, length, vec_len, vec_capacity};
ghost use Rattle.satip_base.specs.Output.{Sends};
ghost use Rattle.satip_rtcp.specs.Reports.{report};
ghost use Rattle.satip_rtcp.specs.Ses1.{ses1};

use crate::report::write_parts;
use crate::ses1::ses1_text;
use crate::views::{Sender, StreamView};
use satip_base::limits::{REPORT, SESSIONS};
use satip_base::{Out, Strip, Want};
use satip_pids::PidSet;
use std::alloc::Global;
use std::marker::Model;

/// The number of words of a set of PIDs, which has a bit for each.
const WORDS: usize = 128;

// The SES1 text of a view. In contracts it is the view.
#[derive(Drop)]
struct KeptText {
    view: StreamView,
    text: Strip,
}

impl Model for KeptText {
    ghost use Rattle.satip_rtcp.specs.declared.views.StreamView.{StreamView};

    ghost Value = { StreamView };

    ghost use Rattle.satip_rtcp.specs.Kept.{IsTextOf};

    ghost view = { λ s. s.view };

    ghost invariant = { λ s. IsTextOf s.view s.text };
}

impl KeptText {
    // Writes the text of a view.
    fn of(view: &StreamView) -> KeptText
        ensures view { result ≡ view.now }
    {
        let mut text = Strip::new();
        ses1_text(view, &mut text);
        KeptText {
            view: view.copy(),
            text,
        }
    }

    // Returns whether the text is that of a view too. The stream's number isn't in it, nor whether
    // the stream plays.
    fn is_of(&self, view: &StreamView) -> bool
        ensures same { result ≡ true → ses1 self.now ≡ ses1 view.now }
    {
        if self.view.front != view.front || self.view.locked != view.locked {
            return false;
        }
        if self.view.tuning != view.tuning {
            return false;
        }
        has_same(&self.view.pids, &view.pids)
    }

    // Writes the text anew, unless it is that of the view.
    fn renew(&mut self, view: &StreamView)
        ensures text { ses1 self.new ≡ ses1 view.now }
    {
        if self.is_of(view) {
            return;
        }
        *self = KeptText::of(view);
    }

    // Appends one report of a stream as a datagram, with the kept text if it is that of the view.
    fn write_report(&mut self, view: &StreamView, sender: &Sender, out: &mut Out)
        requires count_room { out.old.count_spare ≢ 0 }
        requires room { REPORT ≤ out.old.datagram_spare }
        ensures text { ses1 self.new ≡ ses1 view.now }
        ensures sent { Sends out.old sender.now.to (report view.now sender.now) out.new }
        ensures bound { length (report view.now sender.now) ≤ REPORT }
    {
        self.renew(view);
        write_parts(self.text.bytes(), sender, out);
    }
}

// Returns whether two sets have the same words; they select the same PIDs then. The bit of PID 0 is
// in the words too: reading it tells that a set has all PIDs or lists at most 256.
fn has_same(a: &PidSet, b: &PidSet) -> bool
    ensures same { result ≡ true → a.now ≡ b.now }
{
    if a.has(0) != b.has(0) {
        return false;
    }
    for at in 0..WORDS {
        if a.word(at) != b.word(at) {
            return false;
        }
    }
    true
}

/// The SES1 texts of 64 streams, each kept until its stream changes. Contracts don't see them: a
/// report has the text of its view. `make` allocates all their memory.
#[derive(Drop)]
pub struct KeptTexts {
    texts: Vec<KeptText>,
}

impl Model for KeptTexts {
    ghost use Rattle.std.specs.Prelude.{◌≡◌, length};

    ghost Value = { Unit {0} };

    ghost view = { λ _. tt };

    ghost invariant = { λ k. length k.texts.items ≡ 64 };
}

impl KeptTexts {
    /// Writes the texts of streams that aren't tuned and select no PID. `Want` is out of memory.
    pub fn make(alloc: Global) -> Result<KeptTexts, Want> {
        let Ok(mut texts) = Vec::with_capacity(alloc, SESSIONS) else {
            return Err(Want);
        };
        for _made in 0..SESSIONS {
            texts.push_reserved(KeptText::of(&untuned()));
        }
        Ok(KeptTexts { texts })
    }

    /// Appends one report as a datagram (RFC 3550, 6.4.1, 6.5 and 6.7; SAT>IP 1.2.2, 3.5.13). It
    /// writes the stream's SES1 text only if that differs from the kept one.
    pub fn write_report(&mut self, view: &StreamView, sender: &Sender, out: &mut Out)
        requires count_room { out.old.count_spare ≢ 0 }
        requires room { REPORT ≤ out.old.datagram_spare }
        ensures sent { Sends out.old sender.now.to (report view.now sender.now) out.new }
        ensures bound { length (report view.now sender.now) ≤ REPORT }
    {
        let place = view.number as usize % SESSIONS;
        self.texts[place].write_report(view, sender, out);
    }
}

// Returns the view of a stream before its first tuning.
fn untuned() -> StreamView {
    StreamView {
        number: 0,
        tuning: None,
        front: 0,
        locked: false,
        pids: PidSet::new(),
        playing: false,
    }
}

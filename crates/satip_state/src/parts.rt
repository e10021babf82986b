//! The parts that keep the server's state.

use satip_flow::Flow;
use satip_fronts::Fronts;
use satip_rtcp::KeptTexts;
use satip_table::Table;
use satip_timer::Timer;
use std::marker::Model;

/// Table, timer, front ends and flow, with the clock, and the texts of reports. A contract sees the
/// contents of each of them but the texts, which follow from the others.
#[derive(Drop)]
pub struct Parts {
    pub(crate) clock: u64,
    pub(crate) stopped: bool,
    pub(crate) timeout: u32,
    pub(crate) table: Table,
    pub(crate) timer: Timer,
    pub(crate) fronts: Fronts,
    pub(crate) flow: Flow,
    pub(crate) texts: KeptTexts,
}

impl Model for Parts {
    ghost use Rattle.satip_state.specs.Kept.{Kept};

    ghost Value = { Kept };

    ghost use Rattle.satip_state.specs.Stored.{Stored};

    ghost view = { λ p. record {
      clock = p.clock;
      stopped = p.stopped;
      timeout = p.timeout;
      table = p.table;
      dues = p.timer;
      fronts = p.fronts;
      flow = p.flow;
    } };

    ghost invariant = { Stored };
}

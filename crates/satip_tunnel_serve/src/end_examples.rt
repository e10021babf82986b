//! Worked examples of a full history, as the contract of a function with an empty body.

ghost use Rattle.std.specs.Prelude.{◌≡◌, List, [], ◌∷◌, length};
ghost use Rattle.satip_interleave.specs.declared.events.TunnelAnswer.TheVariants.{Lane};
ghost use Rattle.satip_interleave.specs.Histories.{TunnelItem};
ghost use Rattle.satip_tunnel.specs.Rows.{enters};
ghost use Rattle.satip_tunnel_serve.specs.TunnelRuns.{TunnelEndsFull};

/// Shows that jobs ended because the history is full only if the status is 9 and it is full.
pub fn worked_rows()
    ensures nine { (h : List TunnelItem) → length h ≡ 18446744073709551615 → TunnelEndsFull 9 h }
    ensures served { (h : List TunnelItem) → ¬ (TunnelEndsFull 0 h) }
    ensures failed { (h : List TunnelItem) → ¬ (TunnelEndsFull 7 h) }
    ensures not_full { ¬ (TunnelEndsFull 9 (enters (Lane 3) ∷ [])) }
{}

//! Worked examples of a tunnel's answers, as the contract of a function with an empty body.
ghost use Rattle.std.specs.Prelude.{◌≡◌, [], ◌∷◌, take, drop};
ghost use Rattle.satip_base.specs.Output.{empty};
ghost use Rattle.satip_interleave.specs.Lanes.{entered_number, no_lanes};
ghost use Rattle.satip_plain.specs.declared.events.Event.TheVariants.{Stop};
ghost use Rattle.satip_interleave.specs.declared.events.TunnelEvent.TheVariants.{Inner, Enter};
ghost use Rattle.satip_interleave.specs.declared.events.TunnelAnswer.TheVariants.{Lane, Full, Frames, Empty, Gone};
ghost use Rattle.satip_interleave.specs.Answers.{IsAnswered};
ghost use Rattle.satip_interleave.specs.Histories.{lanes_after};
ghost use Rattle.satip_interleave.specs.Rows.{datagram_to, drain_after, drained_after, drains, enters, leaves, media, sends};
ghost use Rattle.satip_interleave.specs.Tunnels.{lane_told};

/// Shows a connection that enters as number 1. A packet and a report to its channels are 1300 bytes
/// of frames, which one drain takes; the next drain is empty. The number isn't given again.
pub fn worked_rows()
    ensures enters { IsAnswered no_lanes Enter (Lane 1) empty }
    ensures not_2 { ¬ (IsAnswered no_lanes Enter (Lane 2) empty) }
    ensures not_full { ¬ (IsAnswered no_lanes Enter Full empty) }
    ensures not_inner { ¬ (IsAnswered no_lanes (Inner Stop) Gone empty) }
    ensures first { drain_after (enters 1 ∷ sends (media 1) ∷ []) 1 ≡ Frames 1300 }
    ensures packet { take 4 (drained_after (enters 1 ∷ sends (media 1) ∷ []) 1)
        ≡ 36 ∷ 0 ∷ 4 ∷ 116 ∷ [] }
    ensures report { take 4 (drop 1144 (drained_after (enters 1 ∷ sends (media 1) ∷ []) 1))
        ≡ 36 ∷ 1 ∷ 0 ∷ 152 ∷ [] }
    ensures second { drain_after (enters 1 ∷ sends (media 1) ∷ drains 1 ∷ []) 1 ≡ Empty }
    ensures other_lane { drain_after (enters 1 ∷ sends (media 2) ∷ []) 1 ≡ Empty }
    ensures port_300 { drain_after (enters 1 ∷ sends (datagram_to 1 300 4 ∷ []) ∷ []) 1 ≡ Empty }
    ensures left { drain_after (enters 1 ∷ sends (media 1) ∷ leaves 1 ∷ []) 1 ≡ Gone }
    ensures next { lane_told (entered_number (lanes_after (enters 1 ∷ leaves 1 ∷ []))) ≡ Lane 2 }
    ensures not_to_next { drain_after (enters 1 ∷ leaves 1 ∷ enters 2 ∷ sends (media 1) ∷ []) 2
        ≡ Empty }
{}

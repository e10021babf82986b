//! Worked examples of walks, wires and runs, as the contract of a function with an empty body.
ghost use Rattle.std.specs.Prelude.{◌≡◌, [], ◌∷◌, ◌++◌, codes, true};
ghost use Rattle.satip_rtsp_interleaved.specs.Rows.{setup_with};
ghost use Rattle.satip_interleave.specs.declared.events.TunnelAnswer.TheVariants.{Lane, Full as NoLane, Frames, Empty, Broken as LaneBroken, Gone};
ghost use Rattle.satip_world.specs.Lines.{fresh_line};
ghost use Rattle.satip_tunnel.specs.Causes.{HasCause};
ghost use Rattle.satip_tunnel.specs.declared.ends.TunnelEnd.TheVariants.{Full, Broken, Done, ReadFault, WriteFault, Spent};
ghost use Rattle.satip_tunnel.specs.Rows.{asks, drains, enters, leaves};
ghost use Rattle.satip_tunnel.specs.TunnelRun.{TunnelRun};
ghost use Rattle.satip_tunnel.specs.Walk.{Free, Draining, Over, Walk};
ghost use Rattle.satip_tunnel.specs.Wire.{SentInPart, wire};

/// Shows the order of entries, the bytes sent for them, and the runs of a connection on which
/// nothing came in.
pub fn worked_rows()
    // A request is followed by drains of its lane, until one isn't answered with frames.
    ensures drained { Walk 3 Free (asks 3 [] ∷ drains 3 (Frames 5) [] ∷ drains 3 Empty [] ∷ [])
        Free }
    ensures gone { Walk 3 Free (asks 3 [] ∷ drains 3 Gone [] ∷ []) Free }
    ensures idle { Walk 3 Free (drains 3 Empty [] ∷ drains 3 Empty [] ∷ []) Free }
    ensures undrained { ¬ (Walk 3 Free (asks 3 [] ∷ asks 3 [] ∷ []) Draining) }
    ensures half { ¬ (Walk 3 Free (drains 3 (Frames 5) [] ∷ asks 3 [] ∷ []) Draining) }
    ensures still { Walk 3 Free (asks 3 [] ∷ drains 3 (Frames 5) [] ∷ []) Draining }
    ensures other_lane { ¬ (Walk 3 Free (asks 3 [] ∷ drains 4 Empty [] ∷ []) Free) }
    ensures other_peer { ¬ (Walk 3 Free (asks 4 [] ∷ drains 3 Empty [] ∷ []) Free) }
    ensures broken { Walk 3 Free (drains 3 LaneBroken [] ∷ []) Over }
    ensures over { ¬ (Walk 3 Free (drains 3 LaneBroken [] ∷ drains 3 Empty [] ∷ []) Free) }
    ensures no_leave { ¬ (Walk 3 Free (leaves 3 ∷ []) Free) }

    // Replies are rewritten, and frames sent as they are.
    ensures wired { wire (enters (Lane 3)
        ∷ asks 3 (setup_with (codes "Transport: RTP/AVP;unicast;client_port=1-2"))
        ∷ drains 3 (Frames 5) (36 ∷ 0 ∷ 0 ∷ 1 ∷ 71 ∷ []) ∷ drains 3 Empty [] ∷ leaves 3 ∷ [])
        ≡ setup_with (codes "Transport: RTP/AVP/TCP;unicast;interleaved=0-1")
        ++ 36 ∷ 0 ∷ 0 ∷ 1 ∷ 71 ∷ [] }
    ensures in_part { SentInPart (asks 3 (1 ∷ 2 ∷ 3 ∷ []) ∷ []) (1 ∷ 2 ∷ []) }
    ensures not_in_part { ¬ (SentInPart [] (1 ∷ [])) }

    // The connection enters, and leaves its lane.
    ensures silent { TunnelRun [] [] [] ⊥ Done (enters (Lane 3) ∷ leaves 3 ∷ []) }
    ensures unread { TunnelRun [] [] [] ⊥ ReadFault (enters (Lane 3) ∷ leaves 3 ∷ []) }
    ensures left_out { ¬ (TunnelRun [] [] [] ⊥ ReadFault (enters (Lane 3) ∷ [])) }
    ensures other_left { ¬ (TunnelRun [] [] [] ⊥ Done (enters (Lane 3) ∷ leaves 4 ∷ [])) }
    ensures lost { TunnelRun [] [] (36 ∷ []) ⊥ WriteFault (enters (Lane 3)
        ∷ drains 3 (Frames 5) (36 ∷ 0 ∷ 0 ∷ 1 ∷ 71 ∷ []) ∷ leaves 3 ∷ []) }
    ensures turned_away { TunnelRun [] [] [] ⊥ Full (enters NoLane ∷ []) }
    ensures entry_behind { ¬ (TunnelRun [] [] [] ⊥ Full (enters NoLane ∷ leaves 3 ∷ [])) }
    ensures broke { TunnelRun [] [] [] ⊥ Broken
        (enters (Lane 3) ∷ drains 3 LaneBroken [] ∷ leaves 3 ∷ []) }
    ensures not_done { ¬ (TunnelRun [] [] [] ⊥ Done
        (enters (Lane 3) ∷ drains 3 LaneBroken [] ∷ leaves 3 ∷ [])) }

    // It keeps its lane only if the history is full.
    ensures kept_lane { ¬ (TunnelRun [] [] [] ⊥ Broken
        (enters (Lane 3) ∷ drains 3 LaneBroken [] ∷ [])) }
    ensures unleft { TunnelRun [] [] [] (Unit {0}) Broken
        (enters (Lane 3) ∷ drains 3 LaneBroken [] ∷ []) }
    ensures spent { TunnelRun [] [] [] (Unit {0}) Spent (enters (Lane 3) ∷ []) }
    ensures not_spent { ¬ (TunnelRun [] [] [] ⊥ Spent (enters (Lane 3) ∷ [])) }
{}

/// Shows the cause of each end, by what was answered and by the connection's line.
pub fn worked_causes()
    ensures full { HasCause Full (enters NoLane ∷ []) fresh_line fresh_line ⊥ }
    ensures not_full { ¬ (HasCause Full (enters (Lane 3) ∷ leaves 3 ∷ [])
        fresh_line fresh_line ⊥) }
    ensures broken { HasCause Broken (enters (Lane 3) ∷ drains 3 LaneBroken [] ∷ leaves 3 ∷ [])
        fresh_line fresh_line ⊥ }
    ensures done { HasCause Done (enters (Lane 3) ∷ leaves 3 ∷ [])
        fresh_line (record fresh_line { ended = true }) ⊥ }

    // Neither with a broken lane, nor while the input goes on.
    ensures not_done { ¬ (HasCause Done (enters (Lane 3) ∷ drains 3 LaneBroken [] ∷ leaves 3 ∷ [])
        fresh_line (record fresh_line { ended = true }) ⊥) }
    ensures goes_on { ¬ (HasCause Done (enters (Lane 3) ∷ leaves 3 ∷ [])
        fresh_line fresh_line ⊥) }
    ensures unread { HasCause ReadFault (enters (Lane 3) ∷ leaves 3 ∷ [])
        fresh_line (record fresh_line { receive_faults = 1 }) ⊥ }

    // Not while no receive has failed, nor after the end of the input.
    ensures not_unread { ¬ (HasCause ReadFault (enters (Lane 3) ∷ leaves 3 ∷ [])
        fresh_line fresh_line ⊥) }
    ensures read { ¬ (HasCause ReadFault (enters (Lane 3) ∷ leaves 3 ∷ [])
        fresh_line (record fresh_line { ended = true; receive_faults = 1 }) ⊥) }
    ensures unsent { HasCause WriteFault (enters (Lane 3) ∷ drains 3 (Frames 5) [] ∷ leaves 3 ∷ [])
        fresh_line (record fresh_line { send_faults = 1 }) ⊥ }
    ensures not_unsent { ¬ (HasCause WriteFault (enters (Lane 3) ∷ leaves 3 ∷ [])
        fresh_line fresh_line ⊥) }
    ensures spent { HasCause Spent (enters (Lane 3) ∷ []) fresh_line fresh_line (Unit {0}) }
    ensures not_spent { ¬ (HasCause Spent (enters (Lane 3) ∷ []) fresh_line fresh_line ⊥) }
{}

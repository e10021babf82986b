//! Worked examples of the pieces of a wire, as the contract of a function with an empty body.

ghost use Rattle.std.specs.Prelude.{◌≡◌, [], ◌∷◌};
ghost use Rattle.satip_interleave.specs.declared.events.TunnelAnswer.TheVariants.{Lane, Frames, Empty};
ghost use Rattle.satip_tunnel_laws.specs.LaneFrames.{drained};
ghost use Rattle.satip_tunnel_laws.specs.Rows.{framed};
ghost use Rattle.satip_tunnel.specs.Rows.{asks, drains, enters, leaves};
ghost use Rattle.satip_tunnel_serve.specs.Wires.{Framed, Reply, frames_of, pieces};

/// Shows a connection that enters, is answered one request, and drains its lane twice, the second
/// time without frames. Its pieces are the reply and the frames.
pub fn worked_rows()
    ensures pieces { pieces (enters (Lane 3) ∷ asks 3 (82 ∷ 13 ∷ 10 ∷ 13 ∷ 10 ∷ [])
        ∷ drains 3 (Frames 5) (framed 0 71) ∷ drains 3 Empty [] ∷ leaves 3 ∷ [])
        ≡ Reply (82 ∷ 13 ∷ 10 ∷ 13 ∷ 10 ∷ []) ∷ Framed (framed 0 71) ∷ [] }
    ensures frames { frames_of (Reply (36 ∷ []) ∷ Framed (1 ∷ 2 ∷ []) ∷ Framed (3 ∷ []) ∷ [])
        ≡ 1 ∷ 2 ∷ 3 ∷ [] }
    ensures drained { drained (asks 3 (9 ∷ []) ∷ drains 3 (Frames 5) (framed 0 71) ∷ []) 3
        ≡ framed 0 71 }
{}

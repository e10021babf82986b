//! Worked examples of the histories of lanes, as contracts of functions with empty bodies.

ghost use Rattle.std.specs.Prelude.{◌≡◌, [], ◌∷◌, take};
ghost use Rattle.satip_base.specs.History.{own_of};
ghost use Rattle.satip_interleave.specs.Lanes.{no_lanes};
ghost use Rattle.satip_interleave.specs.Histories.{LanesFrom};
ghost use Rattle.satip_tunnel_laws.specs.LaneFrames.{drained, lane};
ghost use Rattle.satip_tunnel_laws.specs.Owners.{AreAllBefore, CallersDrainOwn, DrainsOwn};
ghost use Rattle.satip_tunnel_laws.specs.Rows.{drain, drain_none, enter, framed, leave, visit};

/// Shows the frames of a lane: those sent to its channels while it is held. They are one byte to
/// channel 0, one to channel 1, and one more after a drain that took the first two.
pub fn worked_frames()
    ensures answered { LanesFrom no_lanes visit }
    ensures frames { lane visit 1 ≡ framed 0 11 ∷ framed 1 13 ∷ framed 0 15 ∷ [] }
    ensures before_drain { lane (take 4 visit) 1 ≡ framed 0 11 ∷ framed 1 13 ∷ [] }
    ensures before_entering { lane (take 1 visit) 1 ≡ [] }
    ensures other_lane { lane visit 2 ≡ [] }
    ensures drained { drained visit 1 ≡ 36 ∷ 0 ∷ 0 ∷ 1 ∷ 11 ∷ 36 ∷ 1 ∷ 0 ∷ 1 ∷ 13 ∷ [] }
    ensures drained_other { drained visit 2 ≡ [] }
{}

/// Shows that caller 4 drains and gives up the lane that it was given, and caller 9 none. A caller
/// doesn't drain its own lanes alone if it drains or gives up another's, or drains one before it is
/// given.
pub fn worked_owners()
    ensures each_its_own { CallersDrainOwn (4 ∷ 9 ∷ []) visit }
    ensures next_lane { DrainsOwn (enter 4 1 ∷ leave 4 1 ∷ enter 4 2 ∷ drain_none 4 2 ∷ []) }
    ensures not_of_another { ¬ (DrainsOwn (own_of 5 (enter 4 1 ∷ drain_none 5 1 ∷ []))) }
    ensures not_before { ¬ (DrainsOwn (drain_none 4 1 ∷ enter 4 1 ∷ [])) }
    ensures not_left_by_another { ¬ (DrainsOwn (enter 4 1 ∷ leave 4 2 ∷ [])) }

    // Its second drain finds no frame behind the two that the first one took.
    ensures all_before { AreAllBefore visit
        (enter 4 1 ∷ drain 4 1 (36 ∷ 0 ∷ 0 ∷ 1 ∷ 11 ∷ 36 ∷ 1 ∷ 0 ∷ 1 ∷ 13 ∷ []) ∷ [])
        (drain_none 4 1) 4 1 (framed 0 11 ∷ framed 1 13 ∷ []) }
{}

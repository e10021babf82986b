//! Worked examples of a worker's runs, as the contract of a function with an empty body.
ghost use Rattle.std.specs.Prelude.{◌≡◌, [], ◌∷◌};
ghost use Rattle.satip_interleave.specs.declared.events.TunnelAnswer.TheVariants.{Lane, Full as NoLane, Broken as LaneBroken};
ghost use Rattle.satip_tunnel.specs.declared.ends.TunnelEnd.TheVariants.{Full, Broken, ReadFault, WriteFault};
ghost use Rattle.satip_tunnel.specs.Rows.{drains, enters, leaves};
ghost use Rattle.satip_world.specs.declared.doors.ConnEnd.TheVariants.{Done, ReadFault as Unread, WriteFault as Lost};
ghost use Rattle.satip_world.specs.declared.doors.DoorKind.TheVariants.{Http, Rtsp};
ghost use Rattle.satip_tunnel.specs.ConnRun.{conn_end};
ghost use Rattle.satip_tunnel.specs.WorkerRows.{drawn, silent};
ghost use Rattle.satip_tunnel.specs.WorkerRun.{ServesAll};

/// Shows how connections are handed back, and the entries of a worker.
pub fn worked_rows()
    ensures full { conn_end Full ≡ Done }
    ensures broken { conn_end Broken ≡ Done }
    ensures unread { conn_end ReadFault ≡ Unread }
    ensures lost { conn_end WriteFault ≡ Lost }
    ensures none { ServesAll (Unit {0}) ⊥ drawn 0 0 [] [] }
    ensures entry_of_none { ¬ (ServesAll (Unit {0}) ⊥ drawn 0 0 [] (leaves 3 ∷ [])) }
    ensures silent { ServesAll (Unit {0}) ⊥ drawn 0 0 (silent Rtsp Done ∷ [])
        (enters (Lane 3) ∷ leaves 3 ∷ []) }
    ensures turned_away { ServesAll (Unit {0}) ⊥ drawn 0 0 (silent Rtsp Done ∷ [])
        (enters NoLane ∷ []) }
    ensures unserved { ¬ (ServesAll (Unit {0}) ⊥ drawn 0 0 (silent Rtsp Done ∷ []) []) }
    ensures lane_over_http { ¬ (ServesAll (Unit {0}) ⊥ drawn 0 0 (silent Http Done ∷ [])
        (enters NoLane ∷ [])) }

    // A broken lane is kept only if the history is full.
    ensures kept_lane { ¬ (ServesAll (Unit {0}) ⊥ drawn 0 0 (silent Rtsp Done ∷ [])
        (enters (Lane 3) ∷ drains 3 LaneBroken [] ∷ [])) }
    ensures unleft { ServesAll (Unit {0}) (Unit {0}) drawn 0 0 (silent Rtsp Done ∷ [])
        (enters (Lane 3) ∷ drains 3 LaneBroken [] ∷ []) }
{}

//! Worked examples of the frames of one connection, as the contract of a function with an empty
//! body.

ghost use Rattle.std.specs.Prelude.{◌≡◌, [], ◌∷◌};
ghost use Rattle.satip_plain.specs.declared.events.Event.TheVariants.{Tick};
ghost use Rattle.satip_plain.specs.Examples.{id_of, packet, play, ports};
ghost use Rattle.satip_tunnel_laws.specs.ChannelRows.{count_on, other_setup_from, pids_on_0, pids_sent, setting, setup_from, tunnelled};
ghost use Rattle.satip_tunnel_laws.specs.Channels.{OwnsChannels};

/// Shows a session set up from the connection of lane 1 with channels 0 and 1. Its packets are in
/// the frames of channel 0, and a report is in one of channel 1. If another lane's connection sets
/// it up, lane 1 has no frame of it. The session owns the channels, unless lane 1's connection sets
/// up another session with them.
pub fn worked_rows()
    ensures on_channel_0 { pids_on_0 (setup_from 1 ∷ play ∷ packet 16 ∷ packet 17 ∷ Tick 40 ∷ [])
        ≡ 16 ∷ 17 ∷ [] }
    ensures sent { pids_sent (setup_from 1 ∷ play ∷ packet 16 ∷ packet 17 ∷ Tick 40 ∷ [])
        ≡ 16 ∷ 17 ∷ [] }
    ensures held { pids_on_0 (setup_from 1 ∷ play ∷ packet 16 ∷ []) ≡ [] }
    ensures one_datagram { count_on 0 (setup_from 1 ∷ play ∷ packet 16 ∷ Tick 40 ∷ []) ≡ 1 }
    ensures one_report { count_on 1 (setup_from 1 ∷ play ∷ packet 16 ∷ Tick 40 ∷ []) ≡ 1 }
    ensures another_lane { pids_on_0 (setup_from 2 ∷ play ∷ packet 16 ∷ Tick 40 ∷ []) ≡ [] }
    ensures owned { OwnsChannels setting (tunnelled (setup_from 1 ∷ play ∷ packet 16 ∷ []))
        (id_of 1 10) 1 (ports 1) }
    ensures taken { ¬ (OwnsChannels setting (tunnelled (setup_from 1 ∷ other_setup_from 1 ∷ []))
        (id_of 1 10) 1 (ports 1)) }
{}

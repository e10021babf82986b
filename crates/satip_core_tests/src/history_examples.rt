//! Worked histories, each computed from the definitions.
ghost use Rattle.std.specs.Prelude.{◌≡◌, List, [], ◌∷◌, ◌++◌, Some, None, true, false};
ghost use Rattle.satip_query.specs.Queries.{new_query};
ghost use Rattle.satip_plain.specs.declared.events.Event.TheVariants.{Tick, Ask, Ended, Pull, Close};
ghost use Rattle.satip_plain.specs.declared.answers.Work.TheVariants.{Tune, Nothing, Stopping};
ghost use Rattle.satip_plain.specs.Examples.{added_pids, first_query, get_second, id_of, join_of, packet, packet_of, packet_on, packets, play, play_in, play_of_two, setup, setup_with, teardown_in, to_second, two_setup, with_change};
ghost use Rattle.satip_laws.specs.Carried.{number_inside, packets_inside, ssrc_inside};
ghost use Rattle.satip_laws.specs.Examples.{current_pids, due_after, flow, flow_of, fresh_pids, gives_next, head, left_pids, newcomer, newcomers, numbers_of, reel, shared_by, untold};
ghost use Rattle.satip_plain.specs.Pumping.{Asking, Feeding, Finished, fresh};

// A packet counts once its PID was added; it is held until the tick.
fn pids_added_count_from_then_on()
    ensures held { flow_of (setup ∷ play ∷ packet 100 ∷ play_in (id_of 1 10) 1
        (added_pids (100 ∷ [])) ∷ packet 100 ∷ []) (id_of 1 10) ≡ flow (100 ∷ []) [] (100 ∷ []) [] }
    ensures sent { flow_of (setup ∷ play ∷ packet 100 ∷ play_in (id_of 1 10) 1
        (added_pids (100 ∷ [])) ∷ packet 100 ∷ Tick 40 ∷ []) (id_of 1 10)
        ≡ flow (100 ∷ []) (100 ∷ []) [] [] }
{}

// Seven packets leave at once, and what is held leaves as the session ends.
fn sevens_leave_at_once()
    ensures seven { flow_of (setup ∷ play ∷ packets 8 16) (id_of 1 10)
        ≡ flow (16 ∷ 16 ∷ 16 ∷ 16 ∷ 16 ∷ 16 ∷ 16 ∷ 16 ∷ []) (16 ∷ 16 ∷ 16 ∷ 16 ∷ 16 ∷ 16 ∷ 16 ∷ [])
        (16 ∷ []) [] }
    ensures ended { flow_of (setup ∷ play ∷ packet 16 ∷ packet 17 ∷ teardown_in (id_of 1 10) 1 ∷
        packet 16 ∷ []) (id_of 1 10) ≡ flow (16 ∷ 17 ∷ []) (16 ∷ 17 ∷ []) [] [] }
{}

// What is held leaves where the stream is retuned; a packet of the old tuning is given to nobody.
fn packet_across_a_retune_is_dropped()
    ensures retuned { flow_of (setup ∷ play ∷ packet 16 ∷ play_in (id_of 1 10) 1
        (with_change to_second) ∷ packet 17 ∷ []) (id_of 1 10) ≡ flow (16 ∷ []) (16 ∷ []) [] [] }
    ensures equal { flow_of (setup ∷ play ∷ packet 16 ∷ play_in (id_of 1 10) 1
        (with_change first_query.change) ∷ packet 17 ∷ []) (id_of 1 10)
        ≡ flow (16 ∷ 17 ∷ []) [] (16 ∷ 17 ∷ []) [] }
{}

// A packet is given to each session of a stream that plays, and to each stream at the front end.
fn each_playing_session_is_given_the_packet()
    ensures joined { flow_of (setup ∷ play ∷ join_of 1 ∷ packet 16 ∷ play_of_two 1 new_query ∷
        packet 17 ∷ []) (id_of 2 11) ≡ flow (17 ∷ []) [] (17 ∷ []) [] }
    ensures owner { flow_of (setup ∷ play ∷ join_of 1 ∷ packet 16 ∷ play_of_two 1 new_query ∷ packet
        17 ∷ []) (id_of 1 10) ≡ flow (16 ∷ 17 ∷ []) [] (16 ∷ 17 ∷ []) [] }
    ensures sharing { flow_of (setup ∷ two_setup ∷ play_of_two 2 new_query ∷ packet 16 ∷ [])
        (id_of 2 11) ≡ flow (16 ∷ []) [] (16 ∷ []) [] }
{}

// An HTTP session plays from the start; a pull takes what is queued, and a close drops it.
fn queue_is_pulled()
    ensures pulled { flow_of (get_second ∷ packet_on 1 1 400 ∷ packet_on 1 1 401 ∷ Pull (id_of 1 10)
        ∷ packet_on 1 1 402 ∷ []) (id_of 1 10) ≡ flow (400 ∷ 401 ∷ 402 ∷ []) [] (402 ∷ [])
        (400 ∷ 401 ∷ []) }
    ensures closed { flow_of (get_second ∷ packet_on 1 1 400 ∷ Close (id_of 1 10) ∷ Pull
        (id_of 1 10) ∷ []) (id_of 1 10) ≡ flow (400 ∷ []) [] [] [] }
{}

// Sessions are made by accepted requests alone, each with its count, its stream and the number of
// its draw.
fn sessions_are_made()
    ensures made { newcomers (setup ∷ join_of 1 ∷ join_of 7 ∷ get_second ∷ [])
        ≡ newcomer 1 false 1 65535 ∷ newcomer 2 false 1 0 ∷ newcomer 3 true 2 65535 ∷ [] }
    ensures none { newcomers (join_of 1 ∷ Tick 40 ∷ Ask 1 ∷ []) ≡ [] }
{}

// A stream is retuned by its owner with another tuning, and as it is founded with one.
fn retunings_are_told()
    ensures another { gives_next (setup ∷ play ∷ [])
        (play_in (id_of 1 10) 1 (with_change to_second)) (id_of 1 10) ≡ true }
    ensures elsewhere { gives_next (setup ∷ play ∷ [])
        (play_in (id_of 1 10) 1 (with_change to_second)) (id_of 2 11) ≡ false }
    ensures equal { gives_next (setup ∷ play ∷ [])
        (play_in (id_of 1 10) 1 (with_change first_query.change)) (id_of 1 10) ≡ false }
    ensures joined { gives_next (setup ∷ play ∷ join_of 1 ∷ [])
        (play_of_two 1 (with_change to_second)) (id_of 1 10) ≡ false }
    ensures founded { gives_next [] setup (id_of 1 10) ≡ true }
    ensures founded_beside { gives_next (setup ∷ []) two_setup (id_of 2 11) ≡ true }
    ensures untuned { gives_next [] (setup_with new_query) (id_of 1 10) ≡ false }
{}

// A datagram's bytes are read as its number, its SSRC and its packets, whatever clock it has.
fn bytes_are_read()
    ensures number { number_inside (head ++ packet_of 16 ++ packet_of 17) ≡ 65535 }
    ensures ssrc { ssrc_inside (head ++ packet_of 16 ++ packet_of 17) ≡ 287454020 }
    ensures packets { packets_inside (head ++ packet_of 16 ++ packet_of 17)
        ≡ packet_of 16 ∷ packet_of 17 ∷ [] }
    ensures nothing { packets_inside head ≡ [] }
{}

// What left for a session is read from the bytes of its own RTP datagrams, and not from reports.
fn payload_is_read_from_bytes()
    ensures sent { left_pids (setup ∷ play ∷ packet 16 ∷ packet 17 ∷ Tick 40 ∷ packet 16 ∷ [])
        (id_of 1 10) ≡ 16 ∷ 17 ∷ [] }
    ensures of_another { left_pids (setup ∷ play ∷ packet 16 ∷ join_of 1 ∷ Tick 40 ∷ [])
        (id_of 2 11) ≡ [] }
{}

// Numbers go on from the draw's, and wrap after 65535; two draws have two SSRCs.
fn numbers_and_marks()
    ensures wraps { numbers_of (setup ∷ play ∷ packet 16 ∷ Tick 40 ∷ packet 16 ∷ Tick 80 ∷ packet 16
        ∷ Tick 120 ∷ []) (id_of 1 10) ≡ 65535 ∷ 0 ∷ 1 ∷ [] }
    ensures alone { shared_by (setup ∷ two_setup ∷ []) (id_of 1 10) 287454020 ≡ false }
    ensures twice { shared_by (setup ∷ setup ∷ []) (id_of 1 10) 287454020 ≡ true }
{}

// A packet is current for the tuning number that its front end has while it serves a stream.
fn stale_packets_are_left_out()
    ensures first { current_pids (packet 15 ∷ setup ∷ packet 16 ∷ play_in (id_of 1 10) 1
        (with_change to_second) ∷ packet 17 ∷ packet_on 1 2 18 ∷ []) 1 1 ≡ 16 ∷ [] }
    ensures second { current_pids (packet 15 ∷ setup ∷ packet 16 ∷ play_in (id_of 1 10) 1
        (with_change to_second) ∷ packet 17 ∷ packet_on 1 2 18 ∷ []) 1 2 ≡ 18 ∷ [] }
    ensures read { fresh_pids (packet 15 ∷ setup ∷ packet 16 ∷ play_in (id_of 1 10) 1
        (with_change to_second) ∷ packet 17 ∷ packet_on 1 2 18 ∷ []) 1 2 ≡ 18 ∷ [] }
    ensures ended { current_pids (setup ∷ packet 16 ∷ teardown_in (id_of 1 10) 1 ∷ packet 17 ∷ []) 1
        1 ≡ 16 ∷ [] }
{}

// A pump goes on with its recording while the tuning number stays, and begins another with the
// next.
fn pump_follows_the_tuning_number()
    ensures goes_on { due_after (Feeding (reel 1 (16 ∷ 17 ∷ []))) (packet 16) (Tune 1 1)
        ≡ Feeding (reel 1 (17 ∷ [])) }
    ensures begins { due_after (Feeding (reel 1 (16 ∷ 17 ∷ []))) (packet 16) (Tune 2 2)
        ≡ Feeding (fresh untold 2 2) }
    ensures exhausted { due_after (Feeding (reel 1 (16 ∷ []))) (Ended 1 1) Nothing
        ≡ Asking (Some (reel 1 [])) }
    ensures asks { due_after (Asking None) (Ask 1) Nothing ≡ Asking None }
    ensures stops { due_after (Asking None) (Ask 1) Stopping ≡ Finished }
{}

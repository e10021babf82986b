//! Worked examples of the plain server, each computed from the definitions.
ghost use Rattle.std.specs.Prelude.{◌≡◌, List, [], ◌∷◌, ◌++◌, Option, Some, None, true, false, map, length};
ghost use Rattle.satip_query.specs.declared.bodies.RefusalBody.TheVariants.{OutOfRange, NotOwner, NoMorePids, NoMoreSessions, NoMoreFrontends};
ghost use Rattle.satip_query.specs.Queries.{new_query};
ghost use Rattle.satip_tune.specs.declared.keys.Key.TheVariants.{Delpids, Pids};
ghost use Rattle.satip_plain.specs.declared.events.Event.TheVariants.{Tick, Ask, Ended, Pull, Close, Stop};
ghost use Rattle.satip_plain.specs.Examples.{Media, Told, Ok200, Refuses, Works, Idles, Beats, Starts, Pulls, Other, added_pids, first_query, greatest_pid, moved_setup, setup_above, answers_of, get_second, held_after_one_more, id_of, join_of, kept_pids, listed_pids, options_in, packet, packet_on, packets, play, play_in, play_of_two, pulled_first, readings_tell, run, setup_without_ports, setup_without_stream, state_tells, sent_last, setup, setup_with, streams_of, tally, teardown_in, to_unknown, to_second, two_setup, wanted_second, with_change, without_pids, described, description_last};

// Six packets leave at the tick, before the report; seven leave at once, and the next number wraps.
fn held_packets_leave()
    ensures at_the_tick { sent_last (run (setup ∷ Tick 1000 ∷ play ∷
        (packets 6 16 ++ Tick 1040 ∷ []))) ≡ Media 1400 65535 1040 6 ∷ Told 1401 ∷ [] }
    ensures at_the_seventh { sent_last (run (setup ∷ Tick 1000 ∷ play ∷ packets 7 16))
        ≡ Media 1400 65535 1000 7 ∷ [] }
    ensures at_the_end { sent_last (run (setup ∷ Tick 1000 ∷ play ∷
        (packets 8 16 ++ teardown_in (id_of 1 10) 1 ∷ []))) ≡ Media 1400 0 1000 1 ∷ [] }
{}

// Only packets that follow the addition of their PIDs are sent.
fn pids_added_count_from_then_on()
    ensures sent { sent_last (run (setup ∷ play ∷ packet 100 ∷ play_in (id_of 1 10) 1
        (added_pids (100 ∷ [])) ∷ packet 100 ∷ Tick 40 ∷ []))
        ≡ Media 1400 65535 40 1 ∷ Told 1401 ∷ [] }
{}

// A packet of the old tuning is stale after a retune.
fn packet_across_a_retune_is_dropped()
    ensures answers { answers_of (run (setup ∷ play ∷ Ask 1 ∷ play_in (id_of 1 10) 1
        (with_change to_second) ∷ packet 16 ∷ []))
        ≡ Ok200 ∷ Ok200 ∷ Works 1 1 ∷ Ok200 ∷ Works 2 2 ∷ [] }
    ensures sent { sent_last (run (setup ∷ play ∷ play_in (id_of 1 10) 1 (with_change to_second) ∷
        packet 16 ∷ Tick 40 ∷ [])) ≡ Told 1401 ∷ [] }
{}

// A joined session plays, and changes nothing.
fn joined_session_may_not_change_pids()
    ensures answers { answers_of (run (setup ∷ play ∷ join_of 1 ∷ play_of_two 1
        (added_pids (18 ∷ [])) ∷ play_of_two 1 new_query ∷ []))
        ≡ Ok200 ∷ Ok200 ∷ Ok200 ∷ Refuses 403 (Some NotOwner) ∷ Ok200 ∷ [] }
    ensures sent { sent_last (run (setup ∷ play ∷ join_of 1 ∷ play_of_two 1 new_query ∷ packet 16 ∷
        Tick 40 ∷ []))
        ≡ Media 1400 65535 40 1 ∷ Media 1500 0 40 1 ∷ Told 1401 ∷ Told 1501 ∷ [] }
{}

// Two front ends serve two tunings; the third finds none until one is freed.
fn third_tuning_finds_no_front_end()
    ensures answers { answers_of (run (setup ∷ setup_with (with_change to_second) ∷ setup_with
        (with_change to_unknown) ∷ teardown_in (id_of 1 10) 1 ∷ setup_with (with_change to_unknown)
        ∷ []))
        ≡ Ok200 ∷ Ok200 ∷ Refuses 503 (Some NoMoreFrontends) ∷ Ok200 ∷ Ok200 ∷ [] }
    ensures after { streams_of (run (setup ∷ setup_with (with_change to_second) ∷ teardown_in
        (id_of 1 10) 1 ∷ setup_with (with_change to_unknown) ∷ []))
        ≡ tally 1 (Some 1) 3 ∷ tally 2 (Some 2) 2 ∷ [] }
    ensures wanted { answers_of (run (setup_with wanted_second ∷ setup_with
        (record wanted_second { change = record to_unknown { fe = Some 2 } }) ∷ []))
        ≡ Ok200 ∷ Refuses 503 (Some NoMoreFrontends) ∷ [] }
{}

// A session without activity for 60 seconds ends.
fn session_expires()
    ensures ended { answers_of (run (setup ∷ Tick 59999 ∷ Tick 60000 ∷ options_in (id_of 1 10) ∷
        [])) ≡ Ok200 ∷ Beats ∷ Beats ∷ Refuses 454 None ∷ [] }
    ensures lives { answers_of (run (setup ∷ Tick 59999 ∷ options_in (id_of 1 10) ∷ []))
        ≡ Ok200 ∷ Beats ∷ Ok200 ∷ [] }
{}

// At most 256 PIDs are selected, no PID can be taken from all PIDs, and a refused change leaves the
// old PIDs.
fn pids_have_limits()
    ensures under_all { answers_of (run (setup_with without_pids ∷ []))
        ≡ Refuses 403 (Some (OutOfRange Delpids)) ∷ [] }
    ensures greatest { answers_of (run (setup_with greatest_pid ∷ [])) ≡ Ok200 ∷ [] }
    ensures above { answers_of (run (setup_above ∷ []))
        ≡ Refuses 403 (Some (OutOfRange Pids)) ∷ [] }
    ensures most { answers_of (run (setup_with (listed_pids 256) ∷ [])) ≡ Ok200 ∷ [] }
    ensures too_many { answers_of (run (setup ∷ play_in (id_of 1 10) 1 (listed_pids 257) ∷ []))
        ≡ Ok200 ∷ Refuses 503 (Some NoMorePids) ∷ [] }
    ensures unchanged { kept_pids (run (setup ∷ play_in (id_of 1 10) 1 (listed_pids 257) ∷ []))
        ≡ 0 ∷ 16 ∷ 17 ∷ [] }
{}

// The next session in order of joining owns the stream of an owner that ended.
fn ownership_passes_on()
    ensures by_teardown { answers_of (run (setup ∷ join_of 1 ∷ play_of_two 1 new_query ∷ teardown_in
        (id_of 1 10) 1 ∷ play_of_two 1 (added_pids (18 ∷ [])) ∷ []))
        ≡ Ok200 ∷ Ok200 ∷ Ok200 ∷ Ok200 ∷ Ok200 ∷ [] }
    ensures sent { sent_last (run (setup ∷ join_of 1 ∷ play_of_two 1 new_query ∷ teardown_in
        (id_of 1 10) 1 ∷ play_of_two 1 (added_pids (18 ∷ [])) ∷ packet 18 ∷ Tick 40 ∷ []))
        ≡ Media 1500 0 40 1 ∷ Told 1501 ∷ [] }
    ensures by_timeout { answers_of (run (setup ∷ Tick 30000 ∷ join_of 1 ∷ Tick 60000 ∷ options_in
        (id_of 1 10) ∷ Ask 1 ∷ Tick 90000 ∷ options_in (id_of 2 11) ∷ Ask 1 ∷ []))
        ≡ Ok200 ∷ Beats ∷ Ok200 ∷ Beats ∷ Refuses 454 None ∷ Works 1 1 ∷ Beats ∷ Refuses 454 None ∷
        Idles ∷ [] }
{}

// Two streams of one multiplex share a front end.
fn streams_share_a_front_end()
    ensures answers { answers_of (run (setup ∷ two_setup ∷ setup_with (with_change to_second) ∷
        setup_with (with_change to_unknown) ∷ Ask 1 ∷ Ask 2 ∷ []))
        ≡ Ok200 ∷ Ok200 ∷ Ok200 ∷ Refuses 503 (Some NoMoreFrontends) ∷ Works 1 1 ∷ Works 2 1 ∷ [] }
    ensures sent { sent_last (run (setup ∷ two_setup ∷ play ∷ play_of_two 2 new_query ∷ packet 16 ∷
        Tick 40 ∷ []))
        ≡ Media 1400 65535 40 1 ∷ Media 1500 0 40 1 ∷ Told 1401 ∷ Told 1501 ∷ [] }
    ensures leaving { answers_of (run (setup ∷ two_setup ∷ play ∷ play_of_two 2 new_query ∷ play_in
        (id_of 1 10) 1 (with_change to_second) ∷ Ask 1 ∷ Ask 2 ∷ []))
        ≡ Ok200 ∷ Ok200 ∷ Ok200 ∷ Ok200 ∷ Ok200 ∷ Works 1 1 ∷ Works 2 1 ∷ [] }
    ensures left { sent_last (run (setup ∷ two_setup ∷ play ∷ play_of_two 2 new_query ∷ play_in
        (id_of 1 10) 1 (with_change to_second) ∷ packet 16 ∷ Tick 40 ∷ []))
        ≡ Media 1500 0 40 1 ∷ Told 1401 ∷ Told 1501 ∷ [] }
{}

// An HTTP session has its packets pulled, 64 at a time; a packet that finds its queue full ends it.
fn queue_has_limits()
    ensures pulls { answers_of (run (get_second ∷ Pull (id_of 1 10) ∷ packet_on 1 1 400 ∷ packet_on
        1 1 401 ∷ Pull (id_of 1 10) ∷ Pull (id_of 1 10) ∷ Close (id_of 1 10) ∷ Pull (id_of 1 10) ∷
        []))
        ≡ Starts (id_of 1 10) ∷ Pulls 0 ∷ Works 2 1 ∷ Works 2 1 ∷ Pulls 376 ∷ Pulls 0 ∷ Other ∷
        Other ∷ [] }
    ensures fills { held_after_one_more 4095 ≡ 4096 ∷ [] }
    ensures overruns { held_after_one_more 4096 ≡ [] }
    ensures pulled { pulled_first 4096 ≡ 12032 }
{}

// A SETUP that moves its session and retunes sends the held packets to the new address; an equal
// tuning sends nothing.
fn retune_sends_what_is_held()
    ensures moved { sent_last (run (setup ∷ play ∷ packet 16 ∷ moved_setup ∷ []))
        ≡ Media 1600 65535 0 1 ∷ [] }
    ensures equal { sent_last (run (setup ∷ play ∷ packet 16 ∷ play_in (id_of 1 10) 1 first_query ∷
        [])) ≡ [] }
{}

// A stream moves to a front end that is tuned to its multiplex before its own is retuned. The
// recording there isn't started again.
fn stream_moves_before_its_front_end_is_retuned()
    ensures answers { answers_of (run (setup ∷ setup_with (with_change to_second) ∷ Ended 1 1 ∷
        play_in (id_of 2 10) 2 first_query ∷ Ask 1 ∷ Ask 2 ∷ []))
        ≡ Ok200 ∷ Ok200 ∷ Idles ∷ Ok200 ∷ Idles ∷ Idles ∷ [] }
{}

// A request that is refused, but not for its text, keeps the named session alive.
fn refused_request_keeps_alive()
    ensures answers { answers_of (run (setup ∷ Tick 30000 ∷ setup_without_stream ∷ Tick 60000 ∷
        setup_without_ports ∷ Tick 119999 ∷ options_in (id_of 1 10) ∷ []))
        ≡ Ok200 ∷ Beats ∷ Refuses 455 None ∷ Beats ∷ Refuses 461 None ∷ Beats ∷ Ok200 ∷ [] }
{}

// The readings, which are computed from the entries alone, agree with the state.
fn readings_tell_the_state()
    ensures shared { readings_tell (run (setup ∷ two_setup ∷ play ∷ packet 16 ∷ []))
        ≡ state_tells (run (setup ∷ two_setup ∷ play ∷ packet 16 ∷ [])) }
    ensures retuned { readings_tell (run (setup ∷ two_setup ∷ play_in (id_of 1 10) 1
        (with_change to_second) ∷ []))
        ≡ state_tells (run (setup ∷ two_setup ∷ play_in (id_of 1 10) 1 (with_change to_second) ∷
        [])) }
    ensures handed_over { readings_tell (run (setup ∷ join_of 1 ∷ teardown_in (id_of 1 10) 1 ∷ []))
        ≡ state_tells (run (setup ∷ join_of 1 ∷ teardown_in (id_of 1 10) 1 ∷ [])) }
    ensures expired { readings_tell (run (setup ∷ Tick 5000 ∷ get_second ∷ Tick 60000 ∷ []))
        ≡ state_tells (run (setup ∷ Tick 5000 ∷ get_second ∷ Tick 60000 ∷ [])) }
{}

// DESCRIBE of a stream that isn't tuned, with two front ends: 189 bytes.
fn untuned_stream_is_described()
    ensures text { description_last (run (setup_with new_query ∷ [])) ≡ described }
    ensures size { length described ≡ 189 }
{}

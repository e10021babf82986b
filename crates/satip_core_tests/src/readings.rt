//! Worked runs of the words that the laws are said in, each computed from the definitions.
ghost use Rattle.std.specs.Prelude.{◌≡◌, List, [], ◌∷◌, true, false};
ghost use Rattle.satip_query.specs.Queries.{new_query};
ghost use Rattle.satip_plain.specs.declared.events.Event.TheVariants.{Tick};
ghost use Rattle.satip_plain.specs.Examples.{added_pids, id_of, join_of, packet, packet_on, play, play_in, play_of_two, setup, setup_with, teardown_in, to_second, to_unknown, with_change};
ghost use Rattle.satip_laws.specs.Rows.{RunsAreLegal, given_pids, ends_session, asks_as_owner, is_about, finds_none};

// A session is given what it selects while it plays, of its stream's tuning alone.
fn playing_session_is_given_its_packets()
    ensures from_then_on { given_pids (setup ∷ play ∷ packet 100 ∷ play_in (id_of 1 10) 1
        (added_pids (100 ∷ [])) ∷ packet 100 ∷ packet 16 ∷ []) (id_of 1 10) ≡ 100 ∷ 16 ∷ [] }
    ensures across_a_retune { given_pids (setup ∷ play ∷ packet 16 ∷ play_in (id_of 1 10) 1
        (with_change to_second) ∷ packet 17 ∷ packet_on 1 2 0 ∷ []) (id_of 1 10) ≡ 16 ∷ 0 ∷ [] }
    ensures before_playing { given_pids (setup ∷ packet 16 ∷ []) (id_of 1 10) ≡ [] }
    ensures of_another { given_pids (setup ∷ play ∷ join_of 1 ∷ packet 16 ∷ []) (id_of 2 11) ≡ [] }
{}

// A tick too late for it and a TEARDOWN that names it end a session.
fn session_ends_by_a_cause()
    ensures too_late { ends_session (setup ∷ Tick 59999 ∷ []) (Tick 60000) (id_of 1 10) ≡ true }
    ensures in_time { ends_session (setup ∷ []) (Tick 59999) (id_of 1 10) ≡ false }
    ensures torn_down { ends_session (setup ∷ join_of 1 ∷ []) (teardown_in (id_of 1 10) 1)
        (id_of 1 10) ≡ true }
    ensures the_other_lives { ends_session (setup ∷ join_of 1 ∷ []) (teardown_in (id_of 1 10) 1)
        (id_of 2 11) ≡ false }
{}

// The earliest session of a stream owns it, and the next one once it ended.
fn owner_asks_for_a_change()
    ensures owner { asks_as_owner (setup ∷ join_of 1 ∷ []) play (id_of 1 10) ≡ true }
    ensures joined { asks_as_owner (setup ∷ join_of 1 ∷ []) (play_of_two 1 new_query) (id_of 1 10)
        ≡ false }
    ensures refused { asks_as_owner (setup ∷ join_of 1 ∷ []) (play_of_two 1 (added_pids (18 ∷ [])))
        (id_of 1 10) ≡ false }
    ensures next { asks_as_owner (setup ∷ join_of 1 ∷ teardown_in (id_of 1 10) 1 ∷ [])
        (play_of_two 1 (added_pids (18 ∷ []))) (id_of 1 10) ≡ true }
{}

// A third tuning finds no front end, until one is given back; a request is about the stream that it
// names or would found.
fn third_tuning_is_blocked()
    ensures blocked { finds_none (setup ∷ setup_with (with_change to_second) ∷ [])
        (setup_with (with_change to_unknown)) ≡ true }
    ensures given_back { finds_none (setup ∷ setup_with (with_change to_second) ∷ teardown_in
        (id_of 1 10) 1 ∷ []) (setup_with (with_change to_unknown)) ≡ false }
    ensures shared { finds_none (setup ∷ setup_with (with_change to_second) ∷ [])
        (setup_with (with_change to_second)) ≡ false }
    ensures founds { is_about (setup ∷ []) (setup_with (with_change to_second)) ≡ id_of 2 10 }
    ensures joins { is_about (setup ∷ []) (join_of 1) ≡ id_of 1 10 }
    ensures of_session { is_about (setup ∷ []) play ≡ id_of 1 10 }
{}

// The entries of a run are a legal history, so the laws speak of each of these.
fn runs_are_legal()
    ensures law { RunsAreLegal }
{}

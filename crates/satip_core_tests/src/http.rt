//! Worked runs with HTTP sessions, each computed from the definitions.
ghost use Rattle.std.specs.Prelude.{◌≡◌, List, [], ◌∷◌, true, false};
ghost use Rattle.satip_plain.specs.declared.events.Event.TheVariants.{Close};
ghost use Rattle.satip_plain.specs.Examples.{get_second, id_of, packet_on, setup, setup_with, teardown_in, to_second, with_change};
ghost use Rattle.satip_laws.specs.Busy.{IsToldBusy};
ghost use Rattle.satip_laws.specs.Rows.{ends_session};
ghost use Rattle.satip_core_tests.specs.Rows.{answer_to_get, ends_behind, get_finds_none, get_unknown, is_near, viewer};

// A close ends the HTTP session that it names, and no RTSP session.
fn close_ends_an_http_session()
    ensures named { ends_session (get_second ∷ []) (Close viewer) viewer ≡ true }
    ensures another { ends_session (get_second ∷ []) (Close (id_of 2 10)) viewer ≡ false }
    ensures rtsp { ends_session (setup ∷ []) (Close (id_of 1 10)) (id_of 1 10) ≡ false }
{}

// A packet that is selected for an HTTP session ends it where 4096 packets wait to be pulled.
fn full_queue_ends_an_http_session()
    ensures full { ends_behind 4096 0 (packet_on 1 1 400) ≡ true }
    ensures one_place { ends_behind 4095 0 (packet_on 1 1 400) ≡ false }
    ensures pulled { ends_behind 4159 64 (packet_on 1 1 400) ≡ false }
    ensures full_again { ends_behind 4160 64 (packet_on 1 1 400) ≡ true }
    ensures stale { ends_behind 4096 0 (packet_on 1 2 400) ≡ false }
    ensures elsewhere { ends_behind 4096 0 (packet_on 2 1 400) ≡ false }
{}

// What was pulled is at most 4096 packets behind.
fn pulls_are_near()
    ensures most { is_near 4096 0 ≡ true }
    ensures too_far { is_near 4097 0 ≡ false }
    ensures later { is_near 4160 64 ≡ true }
    ensures too_far_later { is_near 4161 64 ≡ false }
{}

// A GET finds no front end for a third tuning, until one is given back.
fn third_tuning_blocks_a_get()
    ensures blocked { get_finds_none (setup ∷ setup_with (with_change to_second) ∷ []) ≡ true }
    ensures given_back { get_finds_none (setup ∷ setup_with (with_change to_second) ∷ teardown_in
        (id_of 1 10) 1 ∷ []) ≡ false }
    ensures alone { get_finds_none [] ≡ false }
{}

// And it is told so.
fn blocked_get_is_told()
    ensures told { IsToldBusy get_unknown (answer_to_get
        (setup ∷ setup_with (with_change to_second) ∷ [])) }
{}

//! Worked examples of accepted SETUPs, as the contract of a function with an empty body.

ghost use Rattle.std.specs.Prelude.{◌≡◌, [], ◌∷◌, None, Some};
ghost use Rattle.satip_plain.specs.Examples.{id_of, join_of, moved_setup, one, play, setup, setup_without_ports, two};
ghost use Rattle.satip_laws.specs.Targets.Rows.{address, by_client, reports_to, rtp_to, set_ups_of};

/// Shows that a SETUP creates a session and another client joins it. A SETUP without ports is
/// refused and doesn't count. A SETUP that names the session moves it, and no other session.
pub fn worked_rows()
    ensures founded { set_ups_of (setup ∷ play ∷ []) ≡ by_client (id_of 1 10) one 1400 ∷ [] }
    ensures joined { set_ups_of (setup ∷ join_of 1 ∷ [])
        ≡ by_client (id_of 1 10) one 1400 ∷ by_client (id_of 2 11) two 1500 ∷ [] }
    ensures refused { set_ups_of (setup ∷ setup_without_ports ∷ [])
        ≡ by_client (id_of 1 10) one 1400 ∷ [] }
    ensures before { rtp_to (setup ∷ join_of 1 ∷ []) (id_of 1 10) ≡ Some (address one 1400) }
    ensures moved { rtp_to (setup ∷ join_of 1 ∷ moved_setup ∷ []) (id_of 1 10)
        ≡ Some (address two 1600) }
    ensures moved_reports { reports_to (setup ∷ moved_setup ∷ []) (id_of 1 10)
        ≡ Some (address two 1601) }
    ensures not_moved { rtp_to (setup ∷ join_of 1 ∷ moved_setup ∷ []) (id_of 2 11)
        ≡ Some (address two 1500) }
    ensures unknown { rtp_to (setup ∷ []) (id_of 2 11) ≡ None }
{}

//! Worked examples of two requests, as a contract of a function with an empty body.
ghost use Rattle.std.specs.Prelude.{◌≡◌, [], ◌∷◌, ◌++◌, codes};
ghost use Rattle.satip_client.specs.Requests.{line_end, options_request, setup_request};
ghost use Rattle.satip_client.specs.RequestRows.{some_address, some_query};

/// Shows the first request of a recording, and one that keeps a session alive.
pub fn worked_rows()
    ensures setup { setup_request some_address some_query 5000
        ≡ codes "SETUP rtsp://127.0.0.1:18554/?freq=12402&pol=v&msys=dvbs&sr=27500&pids=all "
        ++ codes "RTSP/1.0" ++ line_end ++ codes "CSeq: 1" ++ line_end
        ++ codes "Transport: RTP/AVP;unicast;client_port=5000-5001" ++ line_end ++ line_end }
    ensures options { options_request some_address 10 (codes "1a2b")
        ≡ codes "OPTIONS rtsp://127.0.0.1:18554/ RTSP/1.0" ++ line_end ++ codes "CSeq: 10"
        ++ line_end ++ codes "Session: 1a2b" ++ line_end ++ line_end }
{}

//! Worked examples of transports and replies, as contracts of functions with empty bodies.
ghost use Rattle.std.specs.Prelude.{◌≡◌, ◌++◌, None, Some, codes};
ghost use Rattle.satip_rtsp_interleaved.specs.Channels.{interleaved_by};
ghost use Rattle.satip_rtsp_interleaved.specs.Rows.{body_of, setup_with};
ghost use Rattle.satip_rtsp_interleaved.specs.Turned.{turned};
ghost use Rattle.satip_query.specs.Bodies.{line_end};

/// Acceptable and other transports, and the channels of the acceptable ones.
pub fn worked_transports()
    ensures both { interleaved_by (codes "RTP/AVP/TCP;interleaved=0-1")
        ≡ Some (record { rtp = 1; rtcp = 2 }) }
    ensures one { interleaved_by (codes "RTP/AVP/TCP;unicast;interleaved=4")
        ≡ Some (record { rtp = 5; rtcp = 6 }) }
    ensures last_one { interleaved_by (codes "RTP/AVP/TCP;interleaved=254")
        ≡ Some (record { rtp = 255; rtcp = 256 }) }
    ensures without_next { interleaved_by (codes "RTP/AVP/TCP;interleaved=255") ≡ None }
    ensures falling { interleaved_by (codes "RTP/AVP/TCP;interleaved=255-0")
        ≡ Some (record { rtp = 256; rtcp = 1 }) }
    ensures equal { interleaved_by (codes "RTP/AVP/TCP;interleaved=7-7") ≡ None }
    ensures too_large { interleaved_by (codes "RTP/AVP/TCP;interleaved=0-256") ≡ None }
    ensures in_any_case { interleaved_by (codes " rtp/avp/tcp ; Interleaved=00-1 ")
        ≡ Some (record { rtp = 1; rtcp = 2 }) }
    ensures first_counts { interleaved_by (codes "RTP/AVP/TCP;interleaved=x;interleaved=0-1")
        ≡ None }
    ensures without { interleaved_by (codes "RTP/AVP/TCP;unicast") ≡ None }
    ensures over_udp { interleaved_by (codes "RTP/AVP;unicast;client_port=1400-1401") ≡ None }
    ensures udp_interleaved { interleaved_by (codes "RTP/AVP/UDP;interleaved=0-1") ≡ None }
    ensures second { interleaved_by
        (codes "RTP/AVP/UDP;unicast;client_port=1400-1401,RTP/AVP/TCP;interleaved=2-3")
        ≡ Some (record { rtp = 3; rtcp = 4 }) }
{}

/// Turned replies: only the transport of a SETUP changes.
pub fn worked_replies()
    ensures setup { turned (setup_with (codes "Transport: RTP/AVP;unicast;client_port=1-2"))
        ≡ setup_with (codes "Transport: RTP/AVP/TCP;unicast;interleaved=0-1") }
    ensures greatest { turned (setup_with (codes "Transport: RTP/AVP;unicast;client_port=256-10"))
        ≡ setup_with (codes "Transport: RTP/AVP/TCP;unicast;interleaved=255-9") }
    ensures no_ports { turned (setup_with (codes "Transport: RTP/AVP;unicast;client_port=a-b"))
        ≡ setup_with (codes "Transport: RTP/AVP;unicast;client_port=a-b") }
    ensures other_line { turned (setup_with (codes "Transport: RTP/AVP;unicast"))
        ≡ setup_with (codes "Transport: RTP/AVP;unicast") }
    ensures body { turned (body_of (codes "Transport: RTP/AVP;unicast;client_port=1-2"))
        ≡ body_of (codes "Transport: RTP/AVP;unicast;client_port=1-2") }
    ensures piece { turned (codes "Transport: RTP/AVP;unicast;client_port=1-2")
        ≡ codes "Transport: RTP/AVP;unicast;client_port=1-2" }
    ensures line { turned (codes "Transport: RTP/AVP;unicast;client_port=1-2" ++ line_end)
        ≡ codes "Transport: RTP/AVP/TCP;unicast;interleaved=0-1" ++ line_end }
{}

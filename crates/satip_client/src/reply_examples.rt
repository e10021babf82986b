//! Worked examples of replies, as a contract of a function with an empty body.
ghost use Rattle.std.specs.Prelude.{◌≡◌, [], ◌∷◌, Some, None, codes};
ghost use Rattle.satip_frame.specs.Said.{body_length};
ghost use Rattle.satip_client.specs.Fields.{cseq_in, session_named, timeout_of_text};
ghost use Rattle.satip_client.specs.Heads.{headers_of, print_head, status_of};
ghost use Rattle.satip_client.specs.ReplyRows.{some_head, some_text};

/// Shows a head, and values of `Session` (RFC 2326, section 12.37).
pub fn worked_rows()
    ensures text { print_head some_head ≡ some_text }
    ensures status { status_of some_head ≡ 454 }
    ensures number { cseq_in (headers_of some_head) ≡ Some 2 }
    ensures body { body_length (headers_of some_head) ≡ Some 3 }
    ensures session { session_named (codes " 1a ;timeout=30") ≡ Some (codes "1a") }
    ensures no_session { session_named (codes " ;timeout=30") ≡ None }
    ensures timeout { timeout_of_text (codes "1a; x; timeout=30 ;timeout=5") ≡ 30 }
    ensures no_timeout { timeout_of_text (codes "timeout=30;Timeout=20") ≡ 60 }
    ensures zero_timeout { timeout_of_text (codes "1a;timeout=0;timeout=5") ≡ 60 }
{}

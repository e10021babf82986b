//! The statuses of replies over RTSP and HTTP, and their phrases.

ghost use Rattle.std.specs.Prelude.{◌≡◌};
ghost use Rattle.satip_query.specs.Statuses.{IsStatus, phrase_of};

/// Returns the phrase of a status (RFC 2326, section 7.1.1).
pub fn phrase(status: u16) -> &'static [u8]
    requires status { IsStatus status }
    ensures phrase { result.now ≡ phrase_of status }
{
    match status {
        200 => b"OK",
        400 => b"Bad Request",
        403 => b"Forbidden",
        404 => b"Not Found",
        413 => b"Request Entity Too Large",
        454 => b"Session Not Found",
        455 => b"Method Not Valid in This State",
        461 => b"Unsupported Transport",
        501 => b"Not Implemented",
        503 => b"Service Unavailable",
        505 => b"RTSP Version Not Supported",
        551 => b"Option not supported",
        _ => unreachable!(),
    }
}

//! The laws of the requests and replies of a tunnel's connections. Each function does nothing; its
//! contract is the law.

ghost use Rattle.satip_tunnel_serve.specs.RunReplies.{RequestsArePlain, RunsReply};

use satip_tunnel_laws::histories_reply;

/// Proves that the requests of a connection's bytes keep no CR and no LF, since no header value has
/// one.
pub fn requests_are_plain()
    ensures law { RequestsArePlain }
{}

/// Proves that the replies of each connection of a tunnel, rewritten to channels, have the form of
/// replies.
pub fn runs_reply()
    ensures law { RunsReply }
{
    histories_reply();
}

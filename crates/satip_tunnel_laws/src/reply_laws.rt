//! The law of the replies to requests in every legal history. The function does nothing; its
//! contract is the law.

ghost use Rattle.satip_tunnel_laws.specs.Answered.{HistoriesReply};

/// Proves that in a legal history the reply to a request has the form of a reply, if the request
/// keeps no CR and no LF.
pub fn histories_reply()
    ensures law { HistoriesReply }
{}

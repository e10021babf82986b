//! The laws of the bytes of replies and frames. Each function does nothing; its contract is the
//! law.

ghost use Rattle.satip_tunnel_laws.specs.Pieces.{NoneBeginsAnother, SplitOneWay};
ghost use Rattle.satip_tunnel_laws.specs.Replies.{RepliesAreReplies};

/// Proves that no reply and no frame is a prefix of another, so bytes split into replies and frames
/// in at most one way.
pub fn parts_law()
    ensures none_begins_another { NoneBeginsAnother }
    ensures one_way { SplitOneWay }
{}

/// Proves that each reply of the server has the form of a reply, as it is and rewritten to
/// channels. A description must be shorter than 2^64 bytes, and the client's `Require` text must
/// have no CR and no LF.
pub fn replies_are_replies()
    ensures law { RepliesAreReplies }
{}

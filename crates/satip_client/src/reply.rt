//! The reply at the front of the bytes that a server sent.
ghost use Rattle.std.specs.Prelude.{◌≡◌, ℕ, ◌+◌, ◌<◌, ◌≤◌, ◌↔◌, ◌++◌, List, length, true, false, IsTrue};
ghost use Rattle.satip_client.specs.Heads.{Head, HasHead, print_head};
ghost use Rattle.satip_client.specs.Places.{HasSomeHead, IsHeadAt, IsHeadWithin};
ghost use Rattle.satip_client.specs.Replies.{IsReadAs, Says};
ghost use Rattle.satip_client.specs.Waits.{IsOpen, StaysOpen};

use crate::draft::Draft;
use crate::fields::{number_u16, number_u32, session_of, timeout_of};
use crate::heads::{HEAD_LIMIT, HEADER_LIMIT, HeadRead, STATUS_END, read_head};
use httparse::spans::{EMPTY_HEADER_SPAN, HeaderSpan};
use satip_frame::first_header;

/// The shortest head; no text lacks more bytes than this.
const SHORTEST: &[u8; 14] = b"RTSP/1.0 000\n\n";

/// A reply of an RTSP server, with the values of the headers that a client uses. These are `CSeq`,
/// `Session` with its timeout in seconds, and `com.ses.streamID` (SAT>IP 1.2.2, section 3.5.11).
/// `length` counts all its bytes, the body included.
#[derive(Drop)]
pub struct ReplyView<'a> {
    pub length: usize,
    pub status: u16,
    pub cseq: Option<u32>,
    pub session: Option<&'a [u8]>,
    pub timeout: u32,
    pub stream: Option<u16>,
}

/// The reply at the front of bytes: a whole one, a prefix of one, or bytes that never become one.
#[derive(Drop)]
pub enum ReplyRead<'a> {
    Reply(ReplyView<'a>),
    More,
    Bad,
}

/// Reads the reply that bytes begin with (RFC 2326, section 7). It is a status line of RTSP/1.0 and
/// a header block, together at most 8192 bytes and 64 headers, and a body of at most 4096 bytes.
/// Returns `Reply` exactly if they begin with a whole one, and `Bad` exactly if no more bytes make
/// them begin with one.
pub fn read_reply(bytes: &[u8]) -> ReplyRead<'_>
    ensures read { IsReadAs bytes.now result }
{
    let mut headers = [EMPTY_HEADER_SPAN; HEADER_LIMIT];
    let Some(head) = read_head(bytes, &mut headers) else {
        if may_go_on(bytes) {
            return ReplyRead::More;
        }
        return ReplyRead::Bad;
    };
    if bytes.len() - head.end < head.body {
        return ReplyRead::More;
    }
    ReplyRead::Reply(view_of(bytes, &headers, head))
}

/// Returns the number of bytes before which an open text stays open. It is the length of the reply
/// once its head is whole, and before that one more than the text has.
pub(crate) fn bytes_needed(text: &[u8]) -> usize
    requires is_open { IsOpen text.now }
    ensures stays { StaysOpen text.now result }
{
    let mut headers = [EMPTY_HEADER_SPAN; HEADER_LIMIT];
    match read_head(text, &mut headers) {
        Some(head) => head.end + head.body,
        None => text.len() + 1,
    }
}

fn view_of<'a>(
    bytes: &'a [u8],
    headers: &[HeaderSpan; HEADER_LIMIT],
    head: HeadRead,
) -> ReplyView<'a>
    requires within { IsHeadWithin bytes.now headers.now head }
    ensures says { (h : Head) (size : ℕ) → IsHeadAt bytes.now headers.now head h size
        → Says h size result }
{
    let headers = &headers[..head.headers];
    let session = first_header(bytes, headers, b"Session");
    ReplyView {
        length: head.end + head.body,
        status: head.status,
        cseq: first_header(bytes, headers, b"CSeq").and_then(number_u32),
        session: session_of(session),
        timeout: timeout_of(session),
        stream: first_header(bytes, headers, b"com.ses.streamID").and_then(number_u16),
    }
}

// Returns whether more bytes can make a text without a whole head begin with one. Tries the
// shortest such bytes.
fn may_go_on(text: &[u8]) -> bool
    ensures may { IsTrue result → (more : List ℕ) × HasSomeHead (text.now ++ more) }
    ensures never { result ≡ false → (more : List ℕ) (h : Head) (size : ℕ)
        → HasHead (text.now ++ more) h size → length text.now < length (print_head h) → ⊥ }
{
    if text.len() >= HEAD_LIMIT {
        return false;
    }
    if text.len() < STATUS_END {
        let shortest: &[u8] = SHORTEST;
        return has_head_with(text, shortest.split_at(text.len()).1);
    }
    if has_head_with(text, b"\n") {
        return true;
    }
    if has_head_with(text, b"\n\n") {
        return true;
    }
    if has_head_with(text, b":\n\n") {
        return true;
    }
    if has_head_with(text, b"0\n\n") {
        return true;
    }
    has_head_with(text, b"A:\n\n")
}

fn has_head_with(text: &[u8], ending: &[u8]) -> bool
    requires text_short { length text.now < HEAD_LIMIT }
    requires ending_short { length ending.now ≤ 14 }
    ensures test { IsTrue result ↔ HasSomeHead (text.now ++ ending.now) }
{
    let mut draft = Draft::new();
    draft.write(text);
    draft.write(ending);
    let mut headers = [EMPTY_HEADER_SPAN; HEADER_LIMIT];
    read_head(draft.bytes(), &mut headers).is_some()
}

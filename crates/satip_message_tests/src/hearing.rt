//! What texts in pieces ask, one request after another.

ghost use Rattle.std.specs.Prelude.{◌≡◌, None, IfOk};

use crate::checks::check;
use satip_frame::{Asks, Break, Framer, Next, Piece, next_asked};
use satip_http::{HttpRefusal, HttpRequest};
use satip_rtsp::{Method, Refusal, Request};
use std::alloc::Global;
use std::test::Fail;

// Whether the text asks once more; it isn't broken.
fn asks_more<A: Asks>(
    framer: &mut Framer,
    piece: &mut Piece<'_>,
    request: &mut A,
) -> Result<bool, Fail>
    requires open { framer.old.ended ≡ None }
    ensures open { IfOk result (λ _. framer.new.ended ≡ None) }
{
    match next_asked(framer, piece, request) {
        Next::Asked => Ok(true),
        Next::Nothing => Ok(false),
        Next::Last => Err(Fail::from("the text is broken")),
    }
}

// The method and the number of what is asked next; nothing where the text asks no more.
fn asked_next(
    framer: &mut Framer,
    piece: &mut Piece<'_>,
    request: &mut Request,
) -> Result<Option<(Method, Option<u32>)>, Fail>
    requires open { framer.old.ended ≡ None }
    ensures open { IfOk result (λ _. framer.new.ended ≡ None) }
{
    if !asks_more(framer, piece, request)? {
        return Ok(None);
    }
    Ok(Some((request.method, request.cseq)))
}

const FIRST_PIECE: &[u8] = b"OPTIONS * RTSP/1.0\r\nCSe";

const SECOND_PIECE: &[u8] = b"q: 1\r\n\r\n\r\n\
    PLAY / RTSP/1.0\r\n\
    CSeq: 2\r\n\r\n\
    no message\r\n\r\n\
    OPTIONS * RTSP/1.0\r\n\r\n";

// A framer that has heard the first piece.
fn begun(alloc: Global, request: &mut Request) -> Result<Framer, Fail>
    ensures open { IfOk result (λ framer. framer.ended ≡ None) }
{
    let mut framer = Framer::make(alloc)?;
    let mut piece = Piece::new(FIRST_PIECE);
    if asks_more(&mut framer, &mut piece, request)? {
        return Err(Fail::from("the first piece asks"));
    }
    Ok(framer)
}

#[test]
fn a_text_in_two_pieces_asks_twice(rt: HostRuntime) -> Result<(), Fail> {
    let mut request = Request::broken(Break::TooLong);
    let mut framer = begun(rt.alloc(), &mut request)?;
    let mut piece = Piece::new(SECOND_PIECE);
    let asked = asked_next(&mut framer, &mut piece, &mut request)?;
    check(&rt, "asked", asked, Some((Method::Options, Some(1))));
    let asked = asked_next(&mut framer, &mut piece, &mut request)?;
    check(&rt, "asked", asked, Some((Method::Play, Some(2))));
    Ok(())
}

#[test]
fn what_is_no_message_is_asked_last(rt: HostRuntime) -> Result<(), Fail> {
    let mut request = Request::broken(Break::TooLong);
    let mut framer = begun(rt.alloc(), &mut request)?;
    let mut piece = Piece::new(SECOND_PIECE);
    let _ = asked_next(&mut framer, &mut piece, &mut request)?;
    let _ = asked_next(&mut framer, &mut piece, &mut request)?;
    let last = next_asked(&mut framer, &mut piece, &mut request);
    check(&rt, "last", last, Next::Last);
    check(&rt, "refusal", request.refusal, Some(Refusal::Broken));
    Ok(())
}

// Why what is asked is refused, and its source.
type Said = (Option<HttpRefusal>, Option<u8>);

// Whether the first piece of a GET asks, the second, and what is behind it; and what the second
// says.
fn ask_in_two_pieces(alloc: Global) -> Result<([bool; 3], Said), Fail> {
    let mut framer = Framer::make(alloc)?;
    let mut request = HttpRequest::broken(Break::Bad);
    let mut piece = Piece::new(b"GET /?src=2 HT");
    let first = asks_more(&mut framer, &mut piece, &mut request)?;
    let mut piece = Piece::new(b"TP/1.1\r\n\r\n");
    let second = asks_more(&mut framer, &mut piece, &mut request)?;
    let said = (request.refusal, request.query.change.src);
    let third = asks_more(&mut framer, &mut piece, &mut request)?;
    Ok(([first, second, third], said))
}

#[test]
fn a_get_in_two_pieces_is_asked_once(rt: HostRuntime) -> Result<(), Fail> {
    let (asks, said) = ask_in_two_pieces(rt.alloc())?;
    check(&rt, "asks", asks, [false, true, false]);
    check(&rt, "refusal and source", said, (None, Some(2)));
    Ok(())
}

use crate::checks::check;
use satip_base::{Out, Want};
use satip_pids::PidSet;
use satip_rtcp::StreamView;
use satip_sdp::{sdp_length, write_sdp};
use std::array;

fn untuned(number: u16, playing: bool) -> StreamView {
    StreamView {
        number,
        tuning: None,
        front: 0,
        locked: false,
        pids: PidSet::new(),
        playing,
    }
}

#[test]
fn a_playing_stream_is_sent(rt: HostRuntime) -> Result<(), Want> {
    let mut out = Out::make(rt.alloc())?;
    write_sdp(0xc0a8010a, 2, &[untuned(1, true)], &mut out);
    let is_sent = out.reply().ends_with(b"a=sendonly\r\n");
    check(&rt, "is sent", is_sent, true);
    Ok(())
}

#[test]
fn sixty_four_streams_are_described(rt: HostRuntime) -> Result<(), Want> {
    let streams: [StreamView; 64] = array::from_fn(|_stream| untuned(7, false));
    let mut out = Out::make(rt.alloc())?;
    write_sdp(0xc0a8010a, 16, &streams, &mut out);
    let length = sdp_length(0xc0a8010a, 16, &streams);
    check(&rt, "bytes", out.reply().len(), 61 + 64 * 129);
    check(&rt, "length", length, out.reply().len());
    Ok(())
}

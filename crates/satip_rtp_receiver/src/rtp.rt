//! Reading of RTP datagrams with transport packets.
ghost use Rattle.std.specs.Prelude.{◌≡◌, ◌↔◌, IsTrue, MatchOption};
ghost use Rattle.satip_rtp_receiver.specs.Packets.{ArePackets};
ghost use Rattle.satip_rtp_receiver.specs.Rtp.{IsRtp, Says};

use crate::view::RtpView;
use satip_base::limits::{PACKET, PACKETS_A_DATAGRAM, RTP_HEAD};

const SYNC_BYTE: u8 = 0x47;

/// Reads an RTP datagram of version 2 and payload type 33, with or without its marker bit (RFC
/// 3550, section 5.1). It has 1 to 7 whole transport packets (RFC 2250, section 2). Returns None
/// exactly if the bytes are no such datagram. One with padding, an extension or contributing
/// sources is none.
pub fn read_rtp(bytes: &[u8]) -> Option<RtpView<'_>>
    ensures read { MatchOption result (¬ IsRtp bytes.now) (λ view. Says bytes.now view) }
{
    if bytes.len() < RTP_HEAD {
        return None;
    }
    let (header, packets) = bytes.split_at(RTP_HEAD);
    if header[0] != 0x80 || header[1] % 128 != 33 || !are_packets(packets) {
        return None;
    }
    Some(RtpView {
        number: u16::from_be_bytes([header[2], header[3]]),
        ssrc: u32::from_be_bytes([header[8], header[9], header[10], header[11]]),
        packets,
    })
}

fn are_packets(bytes: &[u8]) -> bool
    ensures test { IsTrue result ↔ ArePackets bytes.now }
{
    let count = bytes.len() / PACKET;
    if bytes.len() % PACKET != 0 || count == 0 || count > PACKETS_A_DATAGRAM {
        return false;
    }
    for number in 0..count {
        if bytes[PACKET * number] != SYNC_BYTE {
            return false;
        }
    }
    true
}

//! The content of an RTP datagram.
ghost use Rattle.satip_rtp_receiver.specs.Packets.{ArePackets};

/// The content of an RTP datagram: its sequence number, its source (RFC 3550, section 5.1: SSRC),
/// and the bytes of its 1 to 7 transport packets.
#[derive(Drop)]
pub struct RtpView<'a> {
    pub number: u16,
    pub ssrc: u32,
    pub packets: &'a [u8],
    ghost are_packets: { ArePackets packets.now },
}

//! The law of the channels of every legal history of a tunnel.

ghost use Rattle.satip_tunnel_laws.specs.Channels.{ChannelsCarryPayload};

use satip_interleave::lane_numbers_rise;
use satip_laws::{datagrams_go_to_one, payload_is_selected};

/// Proves that the packets in a channel's frames are a prefix of a session's payload; does nothing
/// at run time. All accepted SETUPs of the session must be from the lane's connection, with one
/// pair of channels. No accepted SETUP of another session there may ask for the first of them.
pub fn channels_carry_payload()
    ensures law { ChannelsCarryPayload }
{
    datagrams_go_to_one();
    lane_numbers_rise();
    payload_is_selected();
}

//! The laws of the server's entries that a pass has seen.

ghost use Rattle.std.specs.Prelude.{◌<◌, ◌^◌, length};
ghost use Rattle.satip_serve.specs.Laws.{SendsSelected, ObeysOwners, TellsBusy, GivesRecordings};
ghost use Rattle.satip_interleave.specs.Histories.{TunnelLegal, inners};
ghost use Rattle.satip_interleave.specs.Calling.{inners_short};
ghost use Rattle.satip_interleave.specs.Calls.{IsRising};
ghost use Rattle.satip_interleave.specs.Laws.{numbers_in};
ghost use Rattle.satip_tunnel_laws.specs.Channels.{CarriesOnChannels};

use satip_interleave::{SharedTunnel, TunnelPass, lane_numbers_rise};
use satip_laws::{
    busy_where_blocked, only_owner_changes, packets_are_of_recordings, payload_is_selected,
};
use satip_plain::prefix_is_legal;
use satip_tunnel_laws::channels_carry_payload;

// Proves that the server's entries keep the laws, if what the pass has seen is legal.
pub(crate) fn keeps_laws(server: &SharedTunnel, pass: &TunnelPass)
    requires lawful { TunnelLegal server.now.setting pass.now.seen }
    requires short { length pass.now.seen < 2 ^ 64 }
    ensures payload { SendsSelected server.now.setting (inners pass.now.seen) }
    ensures owners { ObeysOwners server.now.setting (inners pass.now.seen) }
    ensures busy { TellsBusy server.now.setting (inners pass.now.seen) }
    ensures recordings { GivesRecordings server.now.setting (inners pass.now.seen) }
    ensures channels { CarriesOnChannels server.now.setting pass.now.seen }
    ensures numbers { IsRising 0 (numbers_in pass.now.seen) }
{
    let (_server, _pass) = (server, pass);
    prefix_is_legal();
    payload_is_selected();
    only_owner_changes();
    busy_where_blocked();
    packets_are_of_recordings();
    channels_carry_payload();
    lane_numbers_rise();
}

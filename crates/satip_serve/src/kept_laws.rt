//! The laws of the history that a pass has seen.

ghost use Rattle.std.specs.Prelude.{◌<◌, ◌^◌, length};
ghost use Rattle.satip_plain.specs.Histories.{Legal};
ghost use Rattle.satip_serve.specs.Laws.{SendsSelected, ObeysOwners, TellsBusy, GivesRecordings};

use satip_laws::{
    busy_where_blocked, only_owner_changes, packets_are_of_recordings, payload_is_selected,
};
use satip_plain::prefix_is_legal;
use satip_shared::{SharedPass, SharedServer};

/// Proves that a pass keeps the laws, if what it has seen is legal in the server's setting. Does
/// nothing at run time.
pub fn keeps_laws(server: &SharedServer, pass: &SharedPass)
    requires lawful { Legal server.now.setting pass.now.seen }
    requires short { length pass.now.seen < 2 ^ 64 }
    ensures payload { SendsSelected server.now.setting pass.now.seen }
    ensures owners { ObeysOwners server.now.setting pass.now.seen }
    ensures busy { TellsBusy server.now.setting pass.now.seen }
    ensures recordings { GivesRecordings server.now.setting pass.now.seen }
{
    let (_server, _pass) = (server, pass);
    prefix_is_legal();
    payload_is_selected();
    only_owner_changes();
    busy_where_blocked();
    packets_are_of_recordings();
}

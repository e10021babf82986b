//! Laws over every legal history. Each function does nothing; its contract is the law.

ghost use Rattle.satip_laws.specs.Agreement.{StateIsRead, PickedIsSelected, SelectedIsGiven};
ghost use Rattle.satip_laws.specs.Busy.{BusyWhereBlocked};
ghost use Rattle.satip_laws.specs.Ending.{EndsByItsCauses};
ghost use Rattle.satip_laws.specs.Pulling.{PullsInOrder};
ghost use Rattle.satip_laws.specs.Ownership.{OnlyOwnerChanges};

/// Proves the readings law. After each legal history the state agrees with the readings: the clock,
/// the living sessions with their streams, and the streams with their owners, numbers, tunings,
/// PIDs and front ends. So do the multiplexes and tune numbers of the front ends. No two living
/// streams have one number.
pub fn state_is_read()
    ensures law { StateIsRead }
{}

/// Proves that all packets that a living session was given are those selected for it. The first of
/// an HTTP session's are those that its pulls took.
pub fn picked_is_selected()
    ensures law { PickedIsSelected }
{}

/// Proves that the packets selected for a session, by the entries, are those that the server gives
/// it.
pub fn selected_is_given()
    ensures law { SelectedIsGiven }
{}

/// Proves the ending law. A living session is gone after one more entry exactly if the entry is one
/// of these:
/// - an accepted TEARDOWN that names it;
/// - a tick after its timeout;
/// - a close of the HTTP session;
/// - a packet that is selected for the HTTP session while its queue is full.
pub fn ends_by_its_causes()
    ensures law { EndsByItsCauses }
{}

/// Proves the pull law. The pulls of an HTTP session took a prefix of what was selected for it.
/// While the session lives, the prefix is at most 4096 packets shorter.
pub fn pulls_in_order()
    ensures law { PullsInOrder }
{}

/// Proves the ownership law. After one more entry a living stream has the tuning and the PIDs that
/// it had, unless the entry is an accepted SETUP or PLAY that names its owner.
pub fn only_owner_changes()
    ensures law { OnlyOwnerChanges }
{}

/// Proves the busy law, over the readings of the entries before. The reply of a legal entry says
/// `No-More:frontends` exactly if no other refusal comes first, a tuning is to be set, and no front
/// end is available for it.
pub fn busy_where_blocked()
    ensures law { BusyWhereBlocked }
{}

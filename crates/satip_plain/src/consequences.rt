//! First consequences of the definitions. Each function does nothing; its contract is the law.

ghost use Rattle.satip_plain.specs.Laws.{RefusedChangesNothing, RefusedGetChangesNothing, StaleChangesNothing, GoneChangesNothing, EmptyOnlyHears, PrefixIsLegal, TuningEqIsEquality};

/// Proves that a refused request sends nothing and changes nothing but its session's last activity,
/// and that only if the message itself is well-formed.
pub fn refused_changes_nothing()
    ensures law { RefusedChangesNothing }
{}

/// Proves that a refused GET sends nothing and changes nothing.
pub fn refused_get_changes_nothing()
    ensures law { RefusedGetChangesNothing }
{}

/// Proves that a stale packet sends nothing and changes nothing.
pub fn stale_changes_nothing()
    ensures law { StaleChangesNothing }
{}

/// Proves that a pull or a close changes nothing if no HTTP session has that id.
pub fn gone_changes_nothing()
    ensures law { GoneChangesNothing }
{}

/// Proves that a pull of an empty queue changes nothing but its session's last activity.
pub fn empty_only_hears()
    ensures law { EmptyOnlyHears }
{}

/// Proves that each prefix of a legal history is legal.
pub fn prefix_is_legal()
    ensures law { PrefixIsLegal }
{}

/// Proves that two tunings compare as equal exactly if they are equal.
pub fn tuning_eq_is_equality()
    ensures law { TuningEqIsEquality }
{}

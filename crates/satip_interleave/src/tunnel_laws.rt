//! The laws of every legal history of a tunnel, as contracts of functions with empty bodies.

ghost use Rattle.satip_interleave.specs.Laws.{LaneNumbersRise};

use crate::lane_laws::numbers_rise;

/// Proves that the numbers given to connections rise in a legal history, so none is given twice.
pub fn lane_numbers_rise()
    ensures law { LaneNumbersRise }
{
    numbers_rise();
}

//! The index of a journal: the position of each entry's record, by the place that its line names.

ghost use Rattle.std.specs.Prelude.{◌≡◌, ℕ, IfSome, IsNone, length};
ghost use Rattle.std.specs.List.Sorted.{IsPermutation};
ghost use Rattle.satip_audit.specs.Places.{Climbs, Counts, HasTwice, IsLeast, IsMissing, Rises, times};
ghost use Rattle.satip_audit.specs.Spots.{places_of};

/// An entry: the place that its line names, and the position and length of its record.
#[derive(Clone, Copy, Debug, PartialEq, Eq, Drop)]
pub struct Spot {
    /// The place that the line names.
    pub place: u64,
    /// The position of the record's first byte.
    pub at: u32,
    /// The length of the record in bytes.
    pub len: u32,
}

/// Sorts spots by their places.
pub fn sort_spots(spots: &mut Vec<Spot>)
    ensures permutation { IsPermutation spots.old.items spots.new.items }
    ensures climbs { Climbs 0 (places_of spots.new.items) }
{
    spots.sort_unstable_by_key(|spot| spot.place);
}

/// Returns the least place that two spots have, of spots in the order of their places.
pub fn first_repeated(spots: &[Spot]) -> Option<u64>
    requires climbs { Climbs 0 (places_of spots.now) }
    ensures repeated { IfSome result (IsLeast (λ q. HasTwice (places_of spots.now) q)) }
    ensures rises { IsNone result → Rises 0 (places_of spots.now) }
{
    'spots: for next in 1..spots.len() {
        if spots[next - 1].place == spots[next].place {
            return Some(spots[next].place);
        }
    }
    None
}

/// Returns the least place that no spot has and that is below one that a spot has. The places of
/// the spots must rise.
pub fn first_missing(spots: &[Spot]) -> Option<u64>
    requires rises { Rises 0 (places_of spots.now) }
    ensures missing { IfSome result (IsLeast (λ q. IsMissing (places_of spots.now) q)) }
    ensures counts { IsNone result → Counts 0 (places_of spots.now) }
{
    'spots: for place in 0..spots.len() {
        if spots[place].place != place as u64 {
            return Some(place as u64);
        }
    }
    None
}

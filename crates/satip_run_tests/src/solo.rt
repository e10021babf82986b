//! When the Stop of another caller comes.
ghost use Rattle.std.specs.Prelude.{◌≡◌, [], true, false, None, Some};
ghost use Rattle.satip_solo.specs.Log.{Before, is_at};

// The Stop comes before the call of its number, and before no other.
fn rows_of_stops()
    ensures here { is_at (Some 2) 2 ≡ true }
    ensures later { is_at (Some 2) 1 ≡ false }
    ensures never { is_at None 2 ≡ false }
    ensures nothing { Before false [] }
{}

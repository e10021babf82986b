//! The texts of PIDs.

ghost use Rattle.std.specs.Prelude.{◌≡◌, ◌<◌, ◌≤◌, ◌+◌, ◌*◌, length, All};
ghost use Rattle.std.specs.List.{flat_map};
ghost use Rattle.satip_base.specs.Printed.{Printed};
ghost use Rattle.satip_pids.specs.Bits.{members, members_above};
ghost use Rattle.satip_pids.specs.Texts.{listed_text, next_text};

use crate::bits::next_bit;
use satip_base::Strip;

/// Prints the PIDs whose bits are set in rising order, with commas between them, or `none`.
#[tactic(auto, using(satip_base::proofs::NumberLemmas::digit_bounds))]
pub fn print_listed(words: &[u64], strip: &mut Strip)
    requires size { length words.now ≡ 128 }
    requires few { length (members words.now) ≤ 256 }
    requires room { length strip.old ≤ 320 }
    ensures printed { Printed strip.old (listed_text (members words.now)) strip.new }
    ensures bound { length (listed_text (members words.now)) ≤ 1279 }
{
    let Some(first) = next_bit(words, 0) else {
        strip.write(b"none");
        return;
    };
    strip.write_number(first as u64);
    print_more(words, first + 1, strip);
}

// Prints the PIDs at or above `first`, each after a comma.
#[tactic(auto, using(crate::proofs::PidTexts::steps))]
fn print_more(words: &[u64], first: u16, strip: &mut Strip)
    requires size { length words.now ≡ 128 }
    requires within { first ≤ 8192 }
    requires room { length strip.old + 5 * length (members_above words.now first) ≤ 1600 }
    ensures printed { Printed strip.old (flat_map next_text (members_above words.now first))
        strip.new }
{
    let mut from = first;
    while let Some(pid) = next_bit(words, from) {
        strip.write(b",");
        strip.write_number(pid as u64);
        from = pid + 1;
    }
}

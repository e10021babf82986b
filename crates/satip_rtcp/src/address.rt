//! Texts of IPv4 addresses.

ghost use Rattle.std.specs.Prelude.{◌≤◌, length};
ghost use Rattle.satip_base.specs.Printed.{Printed};
ghost use Rattle.satip_base.specs.Texts.{address_text};

use satip_base::Strip;

/// Prints an IPv4 address in dotted decimal.
#[tactic(auto, using(satip_base::proofs::NumberLemmas::digit_bounds), unfolding(satip_base::specs::Texts::address_text))]
pub fn write_address(ip: u32, strip: &mut Strip)
    requires room { length strip.old ≤ 1500 }
    ensures printed { Printed strip.old (address_text ip) strip.new }
    ensures bound { length (address_text ip) ≤ 15 }
{
    strip.write_number((ip / 16777216) as u64);
    strip.write(b".");
    strip.write_number((ip / 65536 % 256) as u64);
    strip.write(b".");
    strip.write_number((ip / 256 % 256) as u64);
    strip.write(b".");
    strip.write_number((ip % 256) as u64);
}

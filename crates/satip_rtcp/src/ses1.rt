//! The SES1 text.

ghost use Rattle.std.specs.Prelude.{◌≡◌, ◌+◌, ◌≤◌, length, decimal};
ghost use Rattle.satip_base.specs.Printed.{Printed};
ghost use Rattle.satip_tune.specs.Words.{modulation_text, pilots_text_of, roll_off_text, fec_text};
ghost use Rattle.satip_rtcp.specs.Ses1.{field, lock_text, optional_text, ses1, signal_text, tuner_text};

use crate::views::StreamView;
use satip_base::Strip;
use satip_tune::{Fec, FrequencyText, Modulation, RollOff, Tuning, pilots_text};

/// Prints the tuning of a stream and its PIDs, in the fields of the `fmtp` line (SAT>IP 1.2.2,
/// 3.5.7).
#[tactic(auto, unfolding(crate::specs::Ses1::ses1))]
pub fn ses1_text(view: &StreamView, strip: &mut Strip)
    requires room { length strip.old ≤ 120 }
    ensures printed { Printed strip.old (ses1 view.now) strip.new }
    ensures bound { length (ses1 view.now) ≤ 1430 }
{
    strip.write(b"ver=1.0;src=");
    write_signal(view, strip);
    strip.write(b";pids=");
    view.pids.print(strip);
}

// Prints the source and the fields of the tuner.
#[tactic(auto, using(crate::proofs::Lengths::fields), unfolding(crate::specs::Ses1::signal_text))]
fn write_signal(view: &StreamView, strip: &mut Strip)
    requires room { length strip.old ≤ 160 }
    ensures printed { Printed strip.old (signal_text view.now.front view.now.locked view.now.tuning)
        strip.new }
    ensures bound { length strip.new ≤ length strip.old + 133 }
{
    match &view.tuning {
        None => strip.write(b"1;tuner=0,0,0,0,,,,,,,,"),
        Some(tuning) => {
            strip.write_number(tuning.src as u64);
            strip.write(b";tuner=");
            write_tuner(view.front, view.locked, tuning, strip);
        }
    }
}

#[tactic(auto, using(crate::proofs::Lengths::fields), unfolding(crate::specs::Ses1::tuner_text))]
fn write_tuner(front: u16, locked: bool, tuning: &Tuning, strip: &mut Strip)
    requires room { length strip.old ≤ 200 }
    ensures printed { Printed strip.old (tuner_text front locked tuning.now) strip.new }
    ensures bound { length strip.new ≤ length strip.old + 122 }
{
    strip.write_number(front as u64);
    write_field(lock_field(locked), strip);
    write_field(FrequencyText::of(tuning.freq).bytes(), strip);
    write_field(tuning.pol.text(), strip);
    write_field(tuning.msys.text(), strip);
    write_field(modulation_field(tuning.mtype), strip);
    write_field(pilots_field(tuning.plts), strip);
    write_field(roll_off_field(tuning.ro), strip);
    write_number_field(tuning.sr, strip);
    write_field(fec_field(tuning.fec), strip);
}

// Prints a comma and a field.
fn write_field(text: &[u8], strip: &mut Strip)
    requires short { length text.now ≤ 12 }
    requires room { length strip.old ≤ 400 }
    ensures printed { Printed strip.old (field text.now) strip.new }
    ensures bound { length strip.new ≤ length strip.old + 13 }
{
    strip.write(b",");
    strip.write(text);
}

#[tactic(auto, using(satip_base::proofs::NumberLemmas::digit_bounds))]
fn write_number_field(number: u32, strip: &mut Strip)
    requires room { length strip.old ≤ 400 }
    ensures printed { Printed strip.old (field (decimal number)) strip.new }
    ensures bound { length strip.new ≤ length strip.old + 13 }
{
    strip.write(b",");
    strip.write_number(number as u64);
}

#[tactic(auto, unfolding(crate::specs::Ses1::lock_text))]
fn lock_field(locked: bool) -> &'static [u8]
    ensures text { result.now ≡ lock_text locked }
{
    if locked { b"240,1,15" } else { b"0,0,0" }
}

fn modulation_field(modulation: Option<Modulation>) -> &'static [u8]
    ensures text { result.now ≡ optional_text modulation_text modulation }
{
    match modulation {
        None => b"",
        Some(modulation) => modulation.text(),
    }
}

fn pilots_field(pilots: Option<bool>) -> &'static [u8]
    ensures text { result.now ≡ optional_text pilots_text_of pilots }
{
    match pilots {
        None => b"",
        Some(on) => pilots_text(on),
    }
}

fn roll_off_field(roll_off: Option<RollOff>) -> &'static [u8]
    ensures text { result.now ≡ optional_text roll_off_text roll_off }
{
    match roll_off {
        None => b"",
        Some(roll_off) => roll_off.text(),
    }
}

fn fec_field(fec: Option<Fec>) -> &'static [u8]
    ensures text { result.now ≡ optional_text fec_text fec }
{
    match fec {
        None => b"",
        Some(fec) => fec.text(),
    }
}

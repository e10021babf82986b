//! The text of a frequency.

ghost use Rattle.std.specs.Prelude.{◌≡◌, ◌+◌, ◌<◌, ◌≤◌, ◌++◌, ℕ, List};
ghost use Rattle.arrayvec.specs.ArrayVec.{array_vec_len};
ghost use Rattle.satip_tune.specs.Frequency.{fraction_text, frequency_of, frequency_text};

use arrayvec::ArrayVec;
use itoa::Buffer;
use std::marker::Model;

/// The text of a frequency in kHz as a query prints it. It has the MHz, then, if the rest isn't 0,
/// a dot and the three digits of the rest without the zeros at their end.
#[derive(Drop)]
pub struct FrequencyText {
    text: ArrayVec<u8, 16>,
}

impl Model for FrequencyText {
    ghost use Rattle.std.specs.Prelude.{ℕ, List};

    ghost Value = { List ℕ };

    ghost view = { λ s. s.text.items };
}

impl FrequencyText {
    /// Prints any number of kHz. `read_frequency` reads an allowed frequency back.
    #[tactic(auto, using(crate::proofs::Printed::frequency_printed))]
    pub fn of(khz: u32) -> Self
        ensures text { result ≡ frequency_text khz }
        ensures read_again { 1000 ≤ khz → khz ≤ 99999999 → frequency_of result ≡ Ok khz }
    {
        FrequencyText { text: text_of(khz) }
    }

    /// Returns the text's bytes.
    pub fn bytes(&self) -> &[u8]
        ensures text { result.now ≡ self.now }
    {
        self.text.as_slice()
    }
}

#[tactic(auto, unfolding(crate::specs::Frequency::frequency_text))]
fn text_of(khz: u32) -> ArrayVec<u8, 16>
    ensures text { result.items ≡ frequency_text khz }
{
    let mut text = ArrayVec::new();
    let mut buffer = Buffer::new();
    let mhz = buffer.format(khz / 1000);
    text.try_extend_from_slice(mhz.as_bytes()).unwrap();
    push_fraction(&mut text, khz % 1000);
    text
}

fn push_fraction(text: &mut ArrayVec<u8, 16>, khz: u32)
    requires room { array_vec_len text.old ≤ 12 }
    requires few { khz < 1000 }
    ensures fraction { text.new.items ≡ text.old.items ++ fraction_text khz }
{
    if khz == 0 {
        return;
    }
    text.push(b'.');
    text.push(b'0' + (khz / 100) as u8);
    if khz % 100 == 0 {
        return;
    }
    text.push(b'0' + (khz / 10 % 10) as u8);
    if khz % 10 == 0 {
        return;
    }
    text.push(b'0' + (khz % 10) as u8);
}

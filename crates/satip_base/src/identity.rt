//! Session ids, and the numbers that are drawn for a session.

ghost use Rattle.std.specs.Prelude.{◌≡◌, ◌≤◌, if◌then◌else◌, length};
ghost use Rattle.std.specs.Char.{digit_value};
ghost use Rattle.satip_base.specs.Texts.{id_text, id_of, half_of, is_id_digit};

/// The numbers drawn for each message, for the session that it may create. `word` is the second
/// half of the session's id. `ssrc` is the SSRC of its RTP stream (RFC 3550, 5.1), and `first` its
/// first sequence number.
#[derive(Clone, Copy, Debug, PartialEq, Eq)]
pub struct Draw {
    pub word: u32,
    pub ssrc: u32,
    pub first: u16,
}

/// A session's id: the number of sessions created up to it, itself included, and its drawn word.
#[derive(Clone, Copy, Debug, PartialEq, Eq)]
pub struct SessionId {
    pub count: u32,
    pub word: u32,
}

impl SessionId {
    /// Reads an id as `text` prints it (RFC 2326, 3.4): 16 lower-case hexadecimal digits. `None` if
    /// it has another form.
    #[tactic(auto, unfolding(crate::specs::Texts::id_of))]
    pub fn read(bytes: &[u8]) -> Option<SessionId>
        ensures value { result ≡ id_of bytes.now }
    {
        if bytes.len() != 16 {
            return None;
        }
        let (count, word) = bytes.split_at(8);
        match (read_half(count), read_half(word)) {
            (Some(count), Some(word)) => Some(SessionId { count, word }),
            _ => None,
        }
    }

    /// Returns the id as it is printed: 8 digits of the count, then 8 of the word, lower-case
    /// hexadecimal.
    #[tactic(auto, using(crate::proofs::TextLemmas::printed_ids), unfolding(crate::specs::Texts::id_text))]
    pub fn text(self) -> [u8; 16]
        ensures printed { result ≡ id_text self }
        ensures read_back { id_of result ≡ Some self }
    {
        let mut digits = [0u8; 16];
        let (count, word) = digits.split_at_mut(8);
        let _ = hex::encode_to_slice(self.count.to_be_bytes(), count);
        let _ = hex::encode_to_slice(self.word.to_be_bytes(), word);
        digits
    }
}

#[tactic(auto, using(crate::proofs::NumberLemmas::id_steps))]
fn read_half(digits: &[u8]) -> Option<u32>
    requires { length digits.now ≤ 8 }
    ensures value { result ≡ half_of digits.now }
{
    let mut value: u64 = 0;
    for byte in digits {
        let Some(digit) = read_digit(*byte) else {
            return None;
        };
        value = value * 16 + digit as u64;
    }
    Some(value as u32)
}

fn read_digit(byte: u8) -> Option<u8>
    ensures value { result ≡ (if is_id_digit byte then Some (digit_value byte) else None) }
{
    match byte {
        b'0'..=b'9' => Some(byte - b'0'),
        b'a'..=b'f' => Some(byte - b'a' + 10),
        _ => None,
    }
}

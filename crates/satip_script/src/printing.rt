//! Prints the run.
ghost use Rattle.std.specs.Prelude.{◌≡◌, ◌≤◌, ◌++◌, length, OnOk, OnErr, flat_map};
ghost use Rattle.hex.specs.Hex.{encode_lower};
ghost use Rattle.satip_base.specs.Printed.{Printed};
ghost use Rattle.satip_base.specs.Texts.{address_text};
ghost use Rattle.satip_script.specs.Printed.{hex_line, plain_line, replied_front, replied_line, get_front, get_line, beat_line, work_words, work_line, pulled_line, closed_line, answer_line, datagram_front, datagram_line, entry_text};
ghost use Rattle.satip_script.specs.Inner.{Appended};

use crate::front::Front;
use satip_base::{Address, Out, SessionId, Want};
use satip_plain::{Answer, Beat, Closed, GetAnswer, Pulled, Replied, Work};

/// Appends the lines of an entry: one for its answer, which shows the reply, then one for each
/// datagram, in order. Leaves the text as it was if it is out of memory.
pub fn print_entry(answer: &Answer, out: &Out, text: &mut Vec<u8>) -> Result<(), Want>
    ensures printed { OnOk result (text.new.items ≡ text.old.items
        ++ entry_text answer.now out.now) }
    ensures same { OnErr result (text.new.items ≡ text.old.items) }
{
    let before = text.len();
    match append_entry(answer, out, text) {
        Ok(()) => Ok(()),
        Err(want) => {
            text.truncate(before);
            Err(want)
        }
    }
}

fn append_entry(answer: &Answer, out: &Out, text: &mut Vec<u8>) -> Result<(), Want>
    ensures appended { Appended result text.old.items (entry_text answer.now out.now)
        text.new.items }
{
    append_answer(answer, out.reply(), text)?;
    append_datagrams(out, text)
}

fn append_answer(answer: &Answer, reply: &[u8], text: &mut Vec<u8>) -> Result<(), Want>
    ensures appended { Appended result text.old.items (answer_line answer.now reply.now)
        text.new.items }
{
    match answer {
        Answer::Replied(replied) => append_replied(*replied, reply, text),
        Answer::Get(get) => append_get(*get, reply, text),
        Answer::Beat(beat) => append_beat(*beat, text),
        Answer::Work(work) => append_work(*work, text),
        Answer::Pulled(pulled) => append_pulled(*pulled, reply, text),
        Answer::Closed(closed) => append_closed(*closed, text),
    }
}

#[tactic(auto, using(satip_base::proofs::NumberLemmas::digit_bounds), unfolding(crate::specs::Printed::replied_front))]
fn append_replied(replied: Replied, reply: &[u8], text: &mut Vec<u8>) -> Result<(), Want>
    ensures appended { Appended result text.old.items (replied_line replied reply.now)
        text.new.items }
{
    let mut front = Front::new();
    front.write(b"reply ");
    front.write_number(replied.status as u64);
    front.write(if replied.closing { b" 1 " } else { b" 0 " });
    append_hex_line(front.bytes(), reply, text)
}

#[tactic(auto, using(satip_base::proofs::NumberLemmas::digit_bounds), unfolding(crate::specs::Printed::get_front))]
fn append_get(get: GetAnswer, reply: &[u8], text: &mut Vec<u8>) -> Result<(), Want>
    ensures appended { Appended result text.old.items (get_line get reply.now) text.new.items }
{
    let mut front = Front::new();
    match get {
        GetAnswer::Started(session) => {
            front.write(b"started ");
            front.write(&session.text());
        }
        GetAnswer::Refused(status) => {
            front.write(b"refused ");
            front.write_number(status as u64);
        }
    }
    front.write(b" ");
    append_hex_line(front.bytes(), reply, text)
}

fn append_beat(beat: Beat, text: &mut Vec<u8>) -> Result<(), Want>
    ensures appended { Appended result text.old.items (beat_line beat) text.new.items }
{
    match beat {
        Beat::Going => append_line(b"going", text),
        Beat::Stopping => append_line(b"stopping", text),
    }
}

#[tactic(auto, using(satip_base::proofs::NumberLemmas::digit_bounds), unfolding(crate::specs::Printed::work_words))]
fn append_work(work: Work, text: &mut Vec<u8>) -> Result<(), Want>
    ensures appended { Appended result text.old.items (work_line work) text.new.items }
{
    match work {
        Work::Tune { mux, tune } => {
            let mut words = Front::new();
            words.write(b"tune ");
            words.write_number(mux as u64);
            words.write(b" ");
            words.write_number(tune);
            append_line(words.bytes(), text)
        }
        Work::Nothing => append_line(b"nothing", text),
        Work::Stopping => append_line(b"stopping", text),
    }
}

fn append_pulled(pulled: Pulled, reply: &[u8], text: &mut Vec<u8>) -> Result<(), Want>
    ensures appended { Appended result text.old.items (pulled_line pulled reply.now)
        text.new.items }
{
    match pulled {
        Pulled::Bytes(_) => append_hex_line(b"bytes ", reply, text),
        Pulled::Empty => append_line(b"empty", text),
        Pulled::Gone => append_line(b"gone", text),
    }
}

fn append_closed(closed: Closed, text: &mut Vec<u8>) -> Result<(), Want>
    ensures appended { Appended result text.old.items (closed_line closed) text.new.items }
{
    match closed {
        Closed::Yes => append_line(b"closed", text),
        Closed::Gone => append_line(b"gone", text),
    }
}

fn append_datagrams(out: &Out, text: &mut Vec<u8>) -> Result<(), Want>
    ensures appended { Appended result text.old.items (flat_map datagram_line out.now.datagrams)
        text.new.items }
{
    'datagrams: for place in 0..out.count() {
        match out.datagram(place) {
            Some((to, bytes)) => append_datagram(to, bytes, text)?,
            None => unreachable!(),
        }
    }
    Ok(())
}

#[tactic(auto, using(satip_base::proofs::NumberLemmas::digit_bounds, crate::proofs::AppendLemmas::address_bounds), unfolding(crate::specs::Printed::datagram_front))]
fn append_datagram(to: Address, bytes: &[u8], text: &mut Vec<u8>) -> Result<(), Want>
    ensures appended { Appended result text.old.items
        (hex_line (datagram_front to.ip to.port) bytes.now) text.new.items }
{
    let mut front = Front::new();
    front.write(b"datagram ");
    write_address(to.ip, &mut front);
    front.write(b":");
    front.write_number(to.port as u64);
    front.write(b" ");
    append_hex_line(front.bytes(), bytes, text)
}

// Writes an IPv4 address in dotted decimal.
#[tactic(auto, using(satip_base::proofs::NumberLemmas::digit_bounds), unfolding(satip_base::specs::Texts::address_text))]
fn write_address(ip: u32, front: &mut Front)
    requires { length front.old ≤ 9 }
    ensures printed { Printed front.old (address_text ip) front.new }
{
    front.write_number((ip / 16777216) as u64);
    front.write(b".");
    front.write_number((ip / 65536 % 256) as u64);
    front.write(b".");
    front.write_number((ip / 256 % 256) as u64);
    front.write(b".");
    front.write_number((ip % 256) as u64);
}

fn append_line(words: &[u8], text: &mut Vec<u8>) -> Result<(), Want>
    ensures appended { Appended result text.old.items (plain_line words.now) text.new.items }
{
    append(words, text)?;
    append(b"\n", text)
}

fn append_hex_line(front: &[u8], bytes: &[u8], text: &mut Vec<u8>) -> Result<(), Want>
    ensures appended { Appended result text.old.items (hex_line front.now bytes.now)
        text.new.items }
{
    append(front, text)?;
    append_digits(bytes, text)?;
    append(b"\n", text)
}

// Appends the bytes in lower-case hexadecimal digits, some hundred at a time.
fn append_digits(bytes: &[u8], text: &mut Vec<u8>) -> Result<(), Want>
    ensures appended { Appended result text.old.items (encode_lower bytes.now) text.new.items }
{
    let mut room = [0u8; 2 * PIECE];
    let mut rest = bytes;
    'pieces: while !rest.is_empty() {
        let (piece, more) = rest.split_at(rest.len().min(PIECE));
        append_piece(piece, &mut room, text)?;
        rest = more;
    }
    Ok(())
}

const PIECE: usize = 512;

fn append_piece(piece: &[u8], room: &mut [u8; 2 * PIECE], text: &mut Vec<u8>) -> Result<(), Want>
    requires { length piece.now ≤ 512 }
    ensures appended { Appended result text.old.items (encode_lower piece.now) text.new.items }
{
    let (digits, _) = room.split_at_mut(2 * piece.len());
    let _ = hex::encode_to_slice(piece, digits);
    append(digits, text)
}

fn append(bytes: &[u8], text: &mut Vec<u8>) -> Result<(), Want>
    ensures appended { Appended result text.old.items bytes.now text.new.items }
{
    match text.extend_from_slice(bytes) {
        Ok(()) => Ok(()),
        Err(_) => Err(Want),
    }
}

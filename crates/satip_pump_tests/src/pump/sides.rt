//! A pump beside the plain one, over many generated recordings.

ghost use Rattle.std.specs.Prelude.{◌≤◌};

use super::plain::PlainPump;
use super::script::{Note, Scripted};
use super::{FIRST, SECOND, kit, pump};
use satip_base::Out;
use satip_fixtures::draws::next_word;
use satip_memory::MemoryStore;
use satip_pump::JobEnd;
use std::alloc::Global;
use std::sync::Wait;
use std::test::Fail;

const ROUNDS: u64 = 64;

// How many packets a recording has, or parts that are none in place of some.
const UNITS: u32 = 150;

// The words of a generator.
#[derive(Drop)]
struct Words {
    last: u64,
}

impl Words {
    fn next(&mut self) -> u64 {
        self.last = next_word(self.last);
        self.last >> 8
    }

    // A number from 1 up to this one.
    fn up_to(&mut self, most: u64) -> u64
        requires some { 1 ≤ most }
    {
        self.next() % most + 1
    }
}

// Appends a packet that has the word in it, or in a broken recording at times what is none: bytes
// without a beginning, a packet that was cut short, or a gap that is longer than what a pump holds.
fn add_unit(text: &mut Vec<u8>, word: u64, broken: bool) -> Result<(), Fail> {
    let fill = if word & 3 == 0 {
        0x47
    } else {
        (word & 0xff) as u8
    };
    let mut bytes = [fill; 188];
    bytes[0] = 0x47;
    bytes[4..12].copy_from_slice(&word.to_be_bytes());
    let count = (word >> 16) as usize % 188;
    match (broken, word % 11) {
        (true, 7) => text.extend_from_slice(bytes[..count].split_at(count / 2).1)?,
        (true, 8) => text.extend_from_slice(&bytes[..count])?,
        (true, 9) => {
            if word % 5 == 0 {
                text.extend_from_slice(&[0x46; 13000])?;
            }
        }
        _ => text.extend_from_slice(&bytes)?,
    }
    Ok(())
}

// A recording, and how many bytes its takes give at most. The pieces of one that isn't broken have
// at most a packet's bytes, so that as many takes come to each of its packets at any room.
fn recording(
    alloc: Global,
    words: &mut Words,
    broken: bool,
) -> Result<(Vec<u8>, Vec<usize>), Fail> {
    let mut text = Vec::new(alloc);
    let mut pieces = Vec::new(alloc);
    let longest = if broken { 5000 } else { 188 };
    for _ in 0..UNITS {
        add_unit(&mut text, words.next(), broken)?;
        pieces.push(words.up_to(longest) as usize)?;
    }
    Ok((text, pieces))
}

// Puts the same recordings of two multiplexes into two stores. One that isn't broken fails at one
// of its takes.
fn add_recordings(
    alloc: Global,
    own: &mut MemoryStore,
    plain: &mut MemoryStore,
    words: &mut Words,
    broken: bool,
) -> Result<(), Fail> {
    for mux in 1..3u16 {
        let (text, pieces) = recording(alloc, words, broken)?;
        let failing = [words.up_to(400)];
        let failing = if broken { &[] } else { failing.as_slice() };
        own.add(mux, &text, &pieces, failing)?;
        plain.add(mux, &text, &pieces, failing)?;
    }
    Ok(())
}

fn are_same(own: &[Note], plain: &[Note]) -> bool {
    own.len() == plain.len() && own.iter().zip(plain).all(|(a, b)| *a == *b)
}

// What a pump came to: its end, if it is none of the plain one, its entries and pauses, and how
// many sources are out.
#[derive(Drop)]
struct Run {
    end: Option<JobEnd>,
    notes: Vec<Note>,
    pauses: u64,
    lent: u64,
}

fn pumped<R: Wait + Sync>(
    rt: &R,
    alloc: Global,
    store: MemoryStore,
    later: usize,
    stop: usize,
) -> Result<Run, Fail> {
    let mut service = Scripted::new(alloc, FIRST, Some((later, SECOND)), stop);
    let mut kit = kit(alloc, store, &[])?;
    let end = pump(rt, alloc, &mut service, &mut kit)?;
    Ok(Run {
        end: Some(end),
        notes: service.notes,
        pauses: kit.pacer.pauses(),
        lent: kit.store.lent(),
    })
}

fn plainly_pumped(
    alloc: Global,
    store: &mut MemoryStore,
    later: usize,
    stop: usize,
) -> Result<Run, Fail> {
    let mut service = Scripted::new(alloc, FIRST, Some((later, SECOND)), stop);
    let mut pump = PlainPump::new(alloc);
    pump.run(&mut service, store, &mut Out::make(alloc)?)?;
    Ok(Run {
        end: None,
        notes: service.notes,
        pauses: pump.pauses,
        lent: store.lent(),
    })
}

// Two stores with the same recordings.
fn two_stores(
    alloc: Global,
    words: &mut Words,
    broken: bool,
) -> Result<(MemoryStore, MemoryStore), Fail> {
    let mut own = MemoryStore::make(alloc, &[])?;
    let mut plain = MemoryStore::make(alloc, &[])?;
    add_recordings(alloc, &mut own, &mut plain, words, broken)?;
    Ok((own, plain))
}

// What a pump and the plain one come to over the same recordings.
fn beside<R: Wait + Sync>(
    rt: &R,
    alloc: Global,
    words: &mut Words,
    broken: bool,
) -> Result<(Run, Run), Fail> {
    let (store, mut plain) = two_stores(alloc, words, broken)?;
    let later = words.up_to(140) as usize;
    let stop = later.saturating_add(words.up_to(200) as usize);
    let own = pumped(rt, alloc, store, later, stop)?;
    let other = plainly_pumped(alloc, &mut plain, later, stop)?;
    Ok((own, other))
}

// Whether a pump was stopped, made the same entries and pauses as the plain one, and no source of
// either is out.
fn are_alike(own: &Run, plain: &Run) -> bool {
    own.end == Some(JobEnd::Stopped)
        && own.pauses == plain.pauses
        && own.lent == 0
        && plain.lent == 0
        && are_same(&own.notes, &plain.notes)
}

#[test]
fn a_pump_does_what_the_plain_one_does(rt: HostRuntime) -> Result<(), Fail> {
    let mut words = Words { last: 25 };
    let mut calls = 0usize;
    for round in 0..ROUNDS {
        let (own, plain) = beside(&rt, rt.alloc(), &mut words, round % 2 == 0)?;
        assert!(rt; are_alike(&own, &plain), "round {round}");
        calls = calls.saturating_add(own.notes.len());
    }
    assert!(rt; calls >= 10_000);
    Ok(())
}

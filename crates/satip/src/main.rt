//! Starts the program: hands words, standard streams and a desk over the system to the top call.
//! Contract: none; `main` exits with the status that the top call returns.
#![tactic(auto)]

use satip_base::{ReadSource, Sink, Text, Want, WriteSink};
use satip_real_desk::{Carried, RealDesk};
use satip_world::ConnEnd;
use std::alloc::Global;
use std::env::{Env, FillError};
use std::process::ExitCode;

// No form has as many words. A word over `WORD` bytes is read as an empty one, which no form takes:
// so a QUERY may not be longer, though the form sets no limit.
const WORDS: usize = 8;

const WORD: usize = 8192;

const OUT_OF_MEMORY: u8 = 70;

fn main(rt: HostRuntime) -> ExitCode {
    let mut errors = WriteSink::new(rt.stderr());
    let Ok(words) = read_words(&rt, rt.alloc()) else {
        errors.put(b"out of memory\n");
        return ExitCode::from(OUT_OF_MEMORY);
    };
    let mut input = ReadSource::new(rt.stdin());
    let mut output = WriteSink::new(rt.stdout());
    let mut desk = RealDesk::new(rt, rt, carried_by(&words)).of_version(satip_program::VERSION);
    let mut ended = satip_program::satip(
        &rt,
        rt.alloc(),
        &words,
        &mut input,
        &mut output,
        &mut errors,
        &mut desk,
    );
    if let Some(wire) = ended.wire.take() {
        // Closes gracefully, so that the server receives the last request.
        wire.close(rt, ConnEnd::Done);
    }
    ExitCode::from(ended.status)
}

// Returns what the RTSP connections of a command carry.
fn carried_by(words: &[Text]) -> Carried {
    match words.first() {
        Some(word) if word.bytes() == "tunnel".as_bytes() => Carried::Frames,
        _ => Carried::Replies,
    }
}

// Reads the words after the program's name, at most `WORDS`.
fn read_words(env: &impl Env, alloc: Global) -> Result<Vec<Text>, Want> {
    let mut words = Vec::new(alloc);
    for place in 1..=WORDS {
        match read_word(env, alloc, place)? {
            Some(word) => match words.push(word) {
                Ok(()) => {}
                Err(_) => return Err(Want),
            },
            None => break,
        }
    }
    Ok(words)
}

// Reads the word at a place, if there is one. One that isn't UTF-8 or is too long is read as an
// empty text.
fn read_word(env: &impl Env, alloc: Global, place: usize) -> Result<Option<Text>, Want> {
    let mut buf = [0u8; WORD];
    match env.arg(place, &mut buf) {
        Ok(length) => Ok(Some(Text::of(alloc, std::str::from_utf8(&buf[..length]).unwrap_or(""))?)),
        Err(FillError::TooLong) => Ok(Some(Text::of(alloc, "")?)),
        Err(FillError::NotPresent) => Ok(None),
    }
}

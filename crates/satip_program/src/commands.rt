//! The words of the command line.

ghost use Rattle.std.specs.Prelude.{◌≡◌, None, false, codes, option_map, IfSome};
ghost use Rattle.std.specs.Str.{bytes_eq};
ghost use Rattle.satip_base.specs.Numbers.{number_of};
ghost use Rattle.satip_recorder.specs.Words.{wanted_of};
ghost use Rattle.satip_program.specs.Commands.{form_of, command_of, command_named, pair_named, pair_by, stress_named, stress_by, recording_named, serving_for, serving_of, serving_named, serving_by, HasCount};

use satip_base::{Text, read_number};
use satip_recorder::Recording;
use satip_stress::MOST_EVENTS;

/// A command that waits for no client.
#[derive(Clone, Copy)]
pub(crate) enum Command<'w> {
    /// Answers one RTSP connection, from the input to the output.
    Talk,
    /// Runs a script, by the configuration of this name.
    Replay(&'w Text),
    /// Runs and counts generated events: `count`, by the generator of a seed.
    Stress { seed: u64, count: u32 },
    /// Judges journals, by the configuration of this name.
    Audit(&'w Text),
    /// Records the packets of a server's stream.
    Record(Recording<'w>),
    /// Prints the forms of the words.
    Help,
    /// Prints the program's name and version.
    Version,
}

/// A command that waits for clients. Each has the name of its configuration, and the number of
/// connections after which a worker's doors end.
#[derive(Clone, Copy)]
pub(crate) enum Service<'w> {
    /// A server.
    Serve { name: &'w Text, accepts: u32 },
    /// A server that sends RTP inside the RTSP connections.
    Tunnel { name: &'w Text, accepts: u32 },
    /// A server whose jobs keep journals.
    Journal { name: &'w Text, accepts: u32 },
}

/// Reads the words of a service. Returns None if they ask for none. Such words are no other
/// command's.
#[tactic(auto, unfolding(crate::specs::Commands::serving_of, crate::specs::Commands::command_of))]
pub(crate) fn read_service(words: &[Text]) -> Option<Service<'_>>
    ensures service { option_map serving_for result ≡ serving_of words.now }
    ensures alone { IfSome result (λ _. command_of words.now ≡ None) }
{
    match words {
        [] => None,
        [_] => None,
        [_, _] => None,
        [word, name, accepts] => read_service_words(word.bytes(), name, accepts.bytes()),
        [_, _, _, _, ..] => None,
    }
}

#[tactic(auto, using(crate::proofs::AcceptsLemmas::accepts_fit))]
fn read_service_words<'w>(word: &[u8], name: &'w Text, accepts: &[u8]) -> Option<Service<'w>>
    ensures service { option_map serving_for result
        ≡ serving_named word.now name.now (number_of 4294967295 accepts.now) }
    ensures alone { IfSome result (λ _. bytes_eq word.now (codes "stress") ≡ false) }
{
    match name.bytes() {
        [] => None,
        [_, ..] => match read_number(accepts, u32::MAX as u64) {
            Some(accepts) => pick_service(word, name, accepts as u32),
            None => None,
        },
    }
}

// Returns the service of this word.
#[tactic(auto, using(crate::proofs::AcceptsLemmas::words_differ))]
fn pick_service<'w>(word: &[u8], name: &'w Text, accepts: u32) -> Option<Service<'w>>
    ensures service { option_map serving_for result ≡ serving_by word.now name.now accepts }
    ensures alone { IfSome result (λ _. bytes_eq word.now (codes "stress") ≡ false) }
{
    if is_text(word, b"serve") {
        Some(Service::Serve { name, accepts })
    } else if is_text(word, b"tunnel") {
        Some(Service::Tunnel { name, accepts })
    } else if is_text(word, b"journal") {
        Some(Service::Journal { name, accepts })
    } else {
        None
    }
}

/// Reads the words of a command that waits for no client. Returns None if they name none.
#[tactic(auto, unfolding(crate::specs::Commands::command_of))]
pub(crate) fn read_words(words: &[Text]) -> Option<Command<'_>>
    ensures command { option_map form_of result ≡ command_of words.now }
    ensures count { IfSome result HasCount }
{
    match words {
        [] => None,
        [word] => read_word(word.bytes()),
        [word, name] => read_pair(word.bytes(), name),
        [word, seed, count] => read_stress(word.bytes(), seed.bytes(), count.bytes()),
        [word, address, query, count] => read_recording(word.bytes(), address, query, count),
        [_, _, _, _, _, ..] => None,
    }
}

fn read_word<'w>(word: &[u8]) -> Option<Command<'w>>
    ensures command { option_map form_of result ≡ command_named word.now }
    ensures count { IfSome result HasCount }
{
    if is_text(word, b"talk") {
        Some(Command::Talk)
    } else if is_text(word, b"--help") {
        Some(Command::Help)
    } else if is_text(word, b"--version") {
        Some(Command::Version)
    } else {
        None
    }
}

fn read_pair<'w>(word: &[u8], name: &'w Text) -> Option<Command<'w>>
    ensures command { option_map form_of result ≡ pair_named word.now name.now }
    ensures count { IfSome result HasCount }
{
    match name.bytes() {
        [] => None,
        [_, ..] => pick_pair(word, name),
    }
}

// Returns the command of this word, with the name of a configuration.
fn pick_pair<'w>(word: &[u8], name: &'w Text) -> Option<Command<'w>>
    ensures command { option_map form_of result ≡ pair_by word.now name.now }
    ensures count { IfSome result HasCount }
{
    if is_text(word, b"replay") {
        Some(Command::Replay(name))
    } else if is_text(word, b"audit") {
        Some(Command::Audit(name))
    } else {
        None
    }
}

fn read_stress<'w>(word: &[u8], seed: &[u8], count: &[u8]) -> Option<Command<'w>>
    ensures command { option_map form_of result ≡ stress_named word.now
        (number_of 18446744073709551615 seed.now) (number_of 1000000 count.now) }
    ensures count { IfSome result HasCount }
{
    if is_text(word, b"stress") {
        read_numbers(seed, count)
    } else {
        None
    }
}

#[tactic(auto, using(crate::proofs::AcceptsLemmas::accepts_fit))]
fn read_numbers<'w>(seed: &[u8], count: &[u8]) -> Option<Command<'w>>
    ensures command { option_map form_of result ≡ stress_by
        (number_of 18446744073709551615 seed.now) (number_of 1000000 count.now) }
    ensures count { IfSome result HasCount }
{
    let Some(seed) = read_number(seed, u64::MAX) else {
        return None;
    };
    match read_number(count, u64::from(MOST_EVENTS)) {
        Some(count) => Some(Command::Stress {
            seed,
            count: count as u32,
        }),
        None => None,
    }
}

fn read_recording<'w>(
    word: &[u8],
    address: &'w Text,
    query: &'w Text,
    count: &Text,
) -> Option<Command<'w>>
    ensures command { option_map form_of result
        ≡ recording_named word.now (wanted_of address.now query.now count.now) }
    ensures count { IfSome result HasCount }
{
    if !is_text(word, b"record") {
        return None;
    }
    match Recording::read(address.bytes(), query.bytes(), count.bytes()) {
        Some(recording) => Some(Command::Record(recording)),
        None => None,
    }
}

fn is_text(bytes: &[u8], text: &[u8]) -> bool
    ensures test { result ≡ bytes_eq bytes.now text.now }
{
    bytes == text
}

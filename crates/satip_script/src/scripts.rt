//! Reads a whole script: checks it first, and then reads it again, event by event.
ghost use Rattle.std.specs.Prelude.{◌≡◌, ℕ, ◌∷◌, ◌<◌, [], List, length, Ok, Err, IsNone, IsSome, IfNone, IfSome, MatchOption};
ghost use Rattle.std.specs.Bool.{OnTrue, OnFalse};
ghost use Rattle.satip_plain.specs.declared.events.Event.{Event as EventValue};
ghost use Rattle.satip_plain.specs.Values.{IsEvent};
ghost use Rattle.satip_script.specs.Lines.{lines_of};
ghost use Rattle.satip_script.specs.Checks.{IsChecked, IsOfEvent};
ghost use Rattle.satip_script.specs.InParts.{AreParts, AreWrong, PartsGivenAfter};
ghost use Rattle.satip_script.specs.Scripts.{IsScript, Gives, IsOver, HasNext, GivenAfter};

use crate::lines::{Line, read_line};
use crate::messages::says;
use crate::parts::{EventParts, read_parts};
use crate::pieces::cut;
use satip_frame::Framer;
use satip_plain::{Event, known_event};
use satip_ts::is_packet;
use std::marker::Model;

/// Returns the number of a script's first wrong line, from 1, or None if each line is right.
pub fn check_script(text: &[u8], framer: &mut Framer) -> Option<u64>
    ensures right { IfNone result ((events : List EventValue) × IsScript text.now (Ok events)) }
    ensures wrong { IfSome result (λ number. IsScript text.now (Err number)) }
{
    let mut script = Script::of(text);
    let mut number: u64 = 1;
    'lines: while let Some(line) = script.next_line() {
        match check_line(line, framer) {
            Check::Skip => {}
            Check::Right => {}
            Check::Wrong => return Some(number),
        }
        number += 1;
    }
    None
}

// The result of a line's check.
#[derive(Clone, Copy, Debug, PartialEq, Eq)]
enum Check {
    Skip,
    Right,
    Wrong,
}

fn check_line(line: &[u8], framer: &mut Framer) -> Check
    ensures check { IsChecked line.now result }
{
    let Some(parts) = read_parts(line) else {
        return Check::Skip;
    };
    if is_event(&parts, framer) {
        Check::Right
    } else {
        Check::Wrong
    }
}

// Tells whether these are the parts of an event. Builds no event.
fn is_event(parts: &EventParts, framer: &mut Framer) -> bool
    ensures yes { OnTrue result (IsOfEvent parts.now) }
    ensures no { OnFalse result (AreWrong parts.now) }
{
    match parts {
        EventParts::Rtsp { digits, .. } => says(digits, framer),
        EventParts::Http { digits, .. } => says(digits, framer),
        EventParts::Tick { .. } => true,
        EventParts::Packet { digits, .. } => is_packet(digits),
        EventParts::Ended { .. } => true,
        EventParts::Ask { .. } => true,
        EventParts::Pull { .. } => true,
        EventParts::Close { .. } => true,
        EventParts::Stop => true,
        EventParts::Wrong => false,
    }
}

/// The lines of a script that were not read yet.
#[derive(Drop)]
pub struct Script<'a> {
    rest: Option<&'a [u8]>,
}

impl<'a> Model for Script<'a> {
    ghost use Rattle.std.specs.Prelude.{List, ℕ};
    ghost use Rattle.satip_tune.specs.Pieces.{pieces_left};

    ghost Value = { List (List ℕ) };

    ghost view = { λ s. pieces_left 10 s.rest };
}

impl<'a> Script<'a> {
    /// Returns all lines of a text.
    pub fn of(text: &'a [u8]) -> Script<'a>
        ensures lines { result ≡ lines_of text.now }
    {
        Script { rest: Some(text) }
    }

    fn next_line(&mut self) -> Option<&'a [u8]>
        ensures line { MatchOption result ((self.old ≡ []) × (self.new ≡ []))
            (λ line. self.old ≡ line.now ∷ self.new) }
    {
        let Some(rest) = self.rest else {
            return None;
        };
        let (line, more) = cut(rest, b'\n');
        self.rest = more;
        Some(line)
    }

    /// Returns the next event, or None at the end and at a wrong line. Nothing is read after a
    /// wrong line. The framer's bytes are lost.
    pub fn next(&mut self, framer: &mut Framer) -> Option<Event>
        ensures over { IfNone result (IsOver self.old) }
        ensures next { IfSome result (λ event. HasNext self.old event self.new) }

        // If no line is wrong, returns the events of the lines, in their order.
        ensures given { (events : List EventValue) → Gives self.old events
            → GivenAfter events self.new result }

        ensures value { IfSome result IsEvent }
        ensures shorter { IsSome result → length self.new < length self.old }
        ensures ended { IsNone result → self.new ≡ [] }
    {
        'lines: while let Some(line) = self.next_line() {
            match read_line(line, framer) {
                Line::Skip => {}
                Line::Event(event) => {
                    known_event(&event);
                    return Some(event);
                }
                Line::Wrong => {
                    self.rest = None;
                    return None;
                }
            }
        }
        None
    }

    /// Returns the next event in parts, or None at the end. If its line turns out to be wrong,
    /// there is no next event.
    pub fn next_parts(&mut self) -> Option<EventParts<'a>>
        ensures over { IfNone result (IsOver self.old) }
        ensures next { IfSome result (λ parts. (event : EventValue) → AreParts parts event
            → HasNext self.old event self.new) }
        ensures wrong { IfSome result (λ parts. AreWrong parts → IsOver self.old) }

        // If no line is wrong, returns the parts of the lines' events, in their order.
        ensures given { (events : List EventValue) → Gives self.old events
            → PartsGivenAfter events self.new result }

        ensures shorter { IsSome result → length self.new < length self.old }
        ensures ended { IsNone result → self.new ≡ [] }
    {
        'lines: while let Some(line) = self.next_line() {
            if let Some(parts) = read_parts(line) {
                return Some(parts);
            }
        }
        None
    }
}

//! A row: what the program is run with, and what it must end with.

use crate::faults::Fault;
use satip_base::Text;
use std::alloc::Global;

/// A configuration: its name, and the file with its text.
#[derive(Drop)]
pub(crate) struct Named {
    pub(crate) name: String,
    pub(crate) file: String,
}

/// The devices that the desk lends to a client.
#[derive(Drop)]
pub(crate) struct Lent {
    /// The pieces that come in on the connection, if there is one.
    pub(crate) pieces: Option<Vec<Vec<u8>>>,
    /// The datagrams that come in, if there is an inlet.
    pub(crate) datagrams: Option<Vec<Vec<u8>>>,
    /// The moments that the clock shows.
    pub(crate) moments: Option<Vec<u64>>,
}

/// What the program must end with.
#[derive(Drop)]
pub(crate) struct Wanted {
    pub(crate) status: u8,
    pub(crate) output: Vec<u8>,
    pub(crate) errors: Vec<u8>,
    /// The bytes sent on the connection of a client.
    pub(crate) sent: Vec<u8>,
}

/// A run of the program.
#[derive(Drop)]
pub(crate) struct Row {
    pub(crate) name: String,
    pub(crate) words: Vec<Text>,
    pub(crate) config: Option<Named>,
    pub(crate) input: Vec<u8>,
    pub(crate) lent: Lent,
    pub(crate) wanted: Wanted,
}

impl Row {
    /// Creates a row without words, devices and texts.
    pub(crate) fn new(alloc: Global) -> Row {
        Row {
            name: String::new(alloc),
            words: Vec::new(alloc),
            config: None,
            input: Vec::new(alloc),
            lent: Lent {
                pieces: None,
                datagrams: None,
                moments: None,
            },
            wanted: Wanted {
                status: 0,
                output: Vec::new(alloc),
                errors: Vec::new(alloc),
                sent: Vec::new(alloc),
            },
        }
    }

    /// Tells whether the word at a place, from 0, is this text.
    pub(crate) fn has_word(&self, place: usize, text: &str) -> bool {
        match self.words.get(place) {
            Some(word) => word.bytes() == text.as_bytes(),
            None => false,
        }
    }
}

/// Adds a piece to a list that was begun.
pub(crate) fn add_piece(pieces: &mut Option<Vec<Vec<u8>>>, piece: Vec<u8>) -> Result<(), Fault> {
    match pieces {
        Some(pieces) => Ok(pieces.push(piece)?),
        None => Err(Fault::Stray),
    }
}

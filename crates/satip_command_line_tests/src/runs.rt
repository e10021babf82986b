//! Runs of the program over memory, by rows or by texts.

ghost use Rattle.std.specs.Prelude.{◌≡◌};
ghost use Rattle.satip_desk.specs.Handed.{nothing_handed};

use crate::checks::{check, given};
use satip_base::{ReadSource, Source, Text};
use satip_desk::Desk;
use satip_fixtures::texts::{joined, repeated};
use satip_memory::{MemorySink, MemorySource};
use satip_memory_desk::{MemoryDesk, desk_with, texts_of};
use satip_program::offline;
use std::alloc::Global;
use std::io::{Read, repeat};
use std::process::Abort;

/// A run of the program over memory, and its result.
#[derive(Clone, Copy)]
pub(crate) struct Row {
    pub name: &'static str,
    /// The words after the program's name.
    pub words: &'static [&'static str],
    /// The text of c1.toml.
    pub text: &'static str,
    /// The numbers, from 1, of the takes of c1.toml that fail.
    pub text_faults: &'static [u64],
    /// The parts of the input, and how often each is repeated.
    pub input: &'static [(&'static [u8], usize)],
    /// The sizes of the first takes of the input.
    pub pieces: &'static [usize],
    /// The numbers, from 1, of the takes of the input that fail.
    pub take_faults: &'static [u64],
    /// The numbers, from 1, of the puts that fail. They pass `passed` bytes at most.
    pub put_faults: &'static [u64],
    pub passed: usize,
    pub status: u8,
    /// Whether the configuration comes back.
    pub config: bool,
    /// The parts of the output.
    pub output: &'static [&'static [u8]],
    pub errors: &'static [u8],
}

/// A run without words and input that writes nothing and ends well.
pub(crate) const EMPTY: Row = Row {
    name: "empty",
    words: &[],
    text: "",
    text_faults: &[],
    input: &[],
    pieces: &[],
    take_faults: &[],
    put_faults: &[],
    passed: 0,
    status: 0,
    config: false,
    output: &[],
    errors: b"",
};

/// The end of a run.
#[derive(Drop)]
pub(crate) struct Ran {
    pub status: u8,
    config: bool,
    output: MemorySink,
    errors: MemorySink,
}

impl Ran {
    /// Returns the bytes on the output.
    pub(crate) fn output(&self) -> &[u8] {
        self.output.sent()
    }

    /// Returns the bytes on the errors sink.
    pub(crate) fn errors(&self) -> &[u8] {
        self.errors.sent()
    }
}

// Runs the program. Returns the status, and whether a configuration came back.
fn end_of<I: Source, K: Desk>(
    alloc: Global,
    words: &[Text],
    input: &mut I,
    output: &mut MemorySink,
    errors: &mut MemorySink,
    desk: &mut K,
) -> (u8, bool)
    requires client { (K.desk desk.old).handed ≡ nothing_handed }
{
    let ended = offline(alloc, words, input, output, errors, desk);
    (ended.status, ended.config.is_some())
}

/// Runs the program with these words over an input, and a desk that has given a client nothing yet.
/// The puts with a number, from 1, in `failing` fail, and pass `passed` bytes at most.
pub(crate) fn run<I: Source + Drop>(
    rt: &impl Abort,
    alloc: Global,
    words: &[&str],
    mut input: I,
    failing: &[u64],
    passed: usize,
    desk: &mut MemoryDesk,
) -> Ran {
    let words = given(rt, texts_of(alloc, words));
    let mut output = MemorySink::make(alloc, failing, passed).expect(rt, "out of memory");
    let mut errors = MemorySink::make(alloc, &[], 0).expect(rt, "out of memory");
    desk.renew();
    let (status, config) = end_of(alloc, &words, &mut input, &mut output, &mut errors, desk);
    Ran {
        status,
        config,
        output,
        errors,
    }
}

/// Runs a command over an input, by the text of a configuration.
pub(crate) fn run_by(
    rt: &impl Abort,
    alloc: Global,
    command: &str,
    text: &str,
    input: &[u8],
) -> Ran {
    let mut desk = given(rt, desk_with(alloc, text.as_bytes(), &[]));
    let input = MemorySource::make(alloc, input, &[], &[]).expect(rt, "out of memory");
    run(rt, alloc, &[command, "c1.toml"], input, &[], 0, &mut desk)
}

/// Asserts that the run with this name ended with this status, that its configuration came back if
/// `config` says so, and that it wrote this output and these errors.
pub(crate) fn check_ran<'a>(
    rt: &impl Abort,
    name: &str,
    ran: &'a Ran,
    status: u8,
    config: bool,
    output: &'a [u8],
    errors: &'a [u8],
) {
    let got = (ran.status, ran.config, ran.output(), ran.errors());
    check(rt, name, got, (status, config, output, errors));
}

// Asserts that a run had the result of its row.
fn check_row(rt: &impl Abort, alloc: Global, row: &Row, ran: &Ran) {
    let output = given(rt, joined(alloc, row.output));
    check_ran(
        rt, row.name, ran, row.status, row.config, &output, row.errors,
    );
}

// Runs a row over an input, and asserts the result of the row.
fn run_over<I: Source + Drop>(rt: &impl Abort, alloc: Global, row: &Row, input: I) {
    let mut desk = given(rt, desk_with(alloc, row.text.as_bytes(), row.text_faults));
    let ran = run(
        rt,
        alloc,
        row.words,
        input,
        row.put_faults,
        row.passed,
        &mut desk,
    );
    check_row(rt, alloc, row, &ran);
}

// Returns the input of a row.
fn input_of(rt: &impl Abort, alloc: Global, row: &Row) -> MemorySource {
    let text = given(rt, repeated(alloc, row.input));
    MemorySource::make(alloc, &text, row.pieces, row.take_faults).expect(rt, "out of memory")
}

/// Runs each row, and asserts its result.
pub(crate) fn run_rows(rt: &impl Abort, alloc: Global, rows: &[Row]) {
    for row in rows {
        run_over(rt, alloc, row, input_of(rt, alloc, row));
    }
}

/// Runs a row over 67108865 such bytes in the place of its input, and asserts its result.
pub(crate) fn run_long(rt: &impl Abort, alloc: Global, row: &Row, byte: u8) {
    run_over(rt, alloc, row, ReadSource::new(repeat(byte).take(67108865)));
}

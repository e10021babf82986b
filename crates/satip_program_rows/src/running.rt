//! Runs a row over memory.

ghost use Rattle.std.specs.Prelude.{◌≡◌, [], IfOk, IfSome};
ghost use Rattle.satip_world.specs.Inboxes.{fresh_inbox};
ghost use Rattle.satip_world.specs.Lines.{fresh_line};

use crate::faults::Fault;
use crate::rows::Row;
use satip_memory::{MemoryClock, MemoryConn, MemoryInlet, MemorySink, MemorySource};
use satip_memory_desk::{MemoryDesk, Ran};
use satip_program::offline;
use std::alloc::Global;
use std::fs;
use std::fs::Files;

// The first of the two ports of an inlet.
const PORT: u16 = 5000;

/// Runs the program with the words, the input and the devices of a row.
pub(crate) fn run<R: Files + Alloc>(rt: &R, alloc: Global, row: &Row) -> Result<Ran, Fault> {
    let mut desk = make_desk(rt, alloc, row)?;
    let mut input = MemorySource::make(alloc, &row.input, &[], &[])?;
    let mut output = MemorySink::make(alloc, &[], 0)?;
    let mut errors = MemorySink::make(alloc, &[], 0)?;
    desk.renew();
    let mut ended = offline(
        alloc,
        &row.words,
        &mut input,
        &mut output,
        &mut errors,
        &mut desk,
    );
    Ok(Ran {
        status: ended.status,
        config: ended.config.is_some(),
        wire: ended.wire.take(),
        inlet: ended.inlet.is_some(),
        moment: ended.moment.is_some(),
        output,
        errors,
    })
}

fn make_desk<R: Files + Alloc>(rt: &R, alloc: Global, row: &Row) -> Result<MemoryDesk, Fault> {
    let mut desk = MemoryDesk::make(alloc, 0);
    if let Some(config) = &row.config {
        let Ok(text) = fs::read(rt, config.file.as_str()) else {
            return Err(Fault::File);
        };
        desk.add(config.name.as_str(), &text, &[])?;
    }
    let wire = make_wire(alloc, &row.lent.pieces)?;
    let inlet = make_inlet(alloc, &row.lent.datagrams)?;
    let clock = make_clock(alloc, &row.lent.moments)?;
    desk.lend(wire, inlet, clock);
    Ok(desk)
}

fn make_wire(alloc: Global, pieces: &Option<Vec<Vec<u8>>>) -> Result<Option<MemoryConn>, Fault>
    ensures fresh { IfOk result (λ wire. IfSome wire (λ line. line ≡ fresh_line)) }
{
    let Some(pieces) = pieces else {
        return Ok(None);
    };
    let pieces = slices_of(alloc, pieces)?;
    match MemoryConn::make(alloc, &pieces, &[], &[], 0) {
        Ok(wire) => Ok(Some(wire)),
        Err(_) => Err(Fault::Memory),
    }
}

fn make_inlet(alloc: Global, datagrams: &Option<Vec<Vec<u8>>>) -> Result<Option<MemoryInlet>, Fault>
    ensures fresh { IfOk result
        (λ inlet. IfSome inlet (λ inbox. inbox ≡ fresh_inbox inbox.port)) }
{
    let Some(datagrams) = datagrams else {
        return Ok(None);
    };
    let datagrams = slices_of(alloc, datagrams)?;
    match MemoryInlet::make(alloc, PORT, &datagrams, &[], &[]) {
        Ok(inlet) => Ok(Some(inlet)),
        Err(_) => Err(Fault::Memory),
    }
}

fn make_clock(alloc: Global, moments: &Option<Vec<u64>>) -> Result<Option<MemoryClock>, Fault>
    ensures fresh { IfOk result (λ clock. IfSome clock (λ dial. dial.readings ≡ [])) }
{
    let Some(moments) = moments else {
        return Ok(None);
    };
    match MemoryClock::make(alloc, moments) {
        Ok(clock) => Ok(Some(clock)),
        Err(_) => Err(Fault::Memory),
    }
}

fn slices_of(alloc: Global, texts: &[Vec<u8>]) -> Result<Vec<&[u8]>, Fault> {
    let mut slices = Vec::new(alloc);
    for text in texts {
        slices.push(text.as_slice())?;
    }
    Ok(slices)
}

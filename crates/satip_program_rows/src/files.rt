//! Runs the rows of files, one after the other.

use crate::faults::Fault;
use crate::reading::Reader;
use crate::reports::report;
use crate::rows::Row;
use crate::running::run;
use std::alloc::Global;
use std::rt::Runtime;
use std::{env, fs};

/// Runs the rows of the files that the arguments name. Returns whether nothing differs.
pub(crate) fn run_files<R: Runtime>(rt: &R, alloc: Global) -> Result<bool, Fault> {
    let mut reader = Reader::new(alloc);
    let mut all = true;
    for file in env::args(rt)?.skip(1) {
        let good = run_file(rt, alloc, &mut reader, file.as_str())?;
        all = all && good;
    }
    Ok(all)
}

fn run_file<R: Runtime>(
    rt: &R,
    alloc: Global,
    reader: &mut Reader,
    file: &str,
) -> Result<bool, Fault> {
    let Ok(text) = fs::read_to_string(rt, file) else {
        println!(rt; "{file}: can't be read")?;
        return Ok(false);
    };
    match reader.read(text.as_str()) {
        Ok(rows) => run_rows(rt, alloc, &rows),
        Err(fault) => {
            println!(rt; "{file}:{}: {fault}", reader.line())?;
            Ok(false)
        }
    }
}

fn run_rows<R: Runtime>(rt: &R, alloc: Global, rows: &[Row]) -> Result<bool, Fault> {
    let mut all = true;
    for row in rows {
        let ran = run(rt, alloc, row)?;
        let good = report(rt, row, &ran)?;
        all = all && good;
    }
    Ok(all)
}

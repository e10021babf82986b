//! Runs rows of words and inputs by the top call over memory, and prints which of them differ.
//! Contract: none; `main` exits with 1 if what a row wants isn't what came.
#![tactic(auto)]

mod faults;
mod files;
mod reading;
mod reports;
mod rows;
mod running;
mod texts;

use faults::Fault;
use files::run_files;
use std::process::ExitCode;

fn main(rt: HostRuntime) -> ExitCode {
    match run_files(&rt, rt.alloc()) {
        Ok(true) => ExitCode::SUCCESS,
        Ok(false) => ExitCode::FAILURE,
        Err(fault) => fail(&rt, fault),
    }
}

fn fail(rt: &impl Eprint, fault: Fault) -> ExitCode {
    match eprintln!(rt; "{fault}") {
        Ok(()) => ExitCode::FAILURE,
        Err(_) => ExitCode::FAILURE,
    }
}

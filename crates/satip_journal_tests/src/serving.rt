//! Serves over memory with a journal for each job, without front ends.

ghost use Rattle.std.specs.Prelude.{◌≡◌, [], length};

use crate::checks::check;
use crate::kits::{MemoryJournal, make_jobs};
use satip_config::Config;
use satip_desk::{Desk, Jobs};
use satip_fixtures::config_with;
use satip_jobs::ServeEnd;
use satip_journal_serve::serve_journaled;
use satip_memory_desk::MemoryDesk;
use std::alloc::Global;
use std::process::Abort;
use std::sync::Wait;
use std::thread::Threads;

/// A serve with journals, and its result.
#[derive(Clone, Copy)]
pub(crate) struct Plan {
    pub workers: u16,
    /// The number of jobs that get a journal.
    pub journals: u64,
    /// The number, from 1, of the program's put that fails; 0 for none. It passes five bytes.
    pub failing_put: u64,
    /// The end; None if no job began.
    pub end: Option<ServeEnd>,
    /// Whether a journal failed.
    pub failed: bool,
}

// Serves to the end with journals of the desk. Returns the journals that the desk gave, whether one
// failed, and the end, if any job began.
fn serve<R: Threads + Wait + Sync + Abort, K: Desk>(
    rt: &R,
    alloc: Global,
    workers: u16,
    jobs: Jobs<K>,
    desk: &mut K,
) -> (Vec<K::Journal>, bool, Option<ServeEnd>)
    requires workers { length jobs.workers.items ≡ workers }
    requires pumps { jobs.pumps.items ≡ [] }
{
    let Ok(config) = config_with(alloc, 0, &[]) else {
        panic!(rt; "out of memory");
    };
    let config = Config { workers, ..config };
    match serve_journaled(rt, alloc, config, jobs, desk) {
        Ok((_last, written, end)) => (written.sinks, written.failed, Some(end)),
        Err(back) => (back.sinks, back.failed, None),
    }
}

/// Serves by a plan, and asserts the result. Returns the journals.
pub(crate) fn journals_of<R: Threads + Wait + Sync + Abort>(
    rt: &R,
    alloc: Global,
    plan: &Plan,
) -> Vec<MemoryJournal> {
    let jobs = make_jobs(rt, alloc, plan.workers);
    let mut desk = MemoryDesk::make(alloc, 0);
    desk.open_journals(plan.journals, 0, plan.failing_put);
    let (journals, failed, end) = serve(rt, alloc, plan.workers, jobs, &mut desk);
    let got = (end, failed, journals.len() as u64);
    check(rt, "serve", got, (plan.end, plan.failed, plan.journals));
    journals
}

//! Runs the server with all its jobs, each with a journal, from the first reading of the clock to
//! the last join.

ghost use Rattle.std.specs.Prelude.{◌≡◌, ◌+◌, ◌≤◌, ◌<◌, ◌^◌, [], ◌∷◌, ◌++◌, false, length, map, vec_capacity, IfOk, IfErr, MatchBool, MatchResult};
ghost use Rattle.satip_fronts.specs.FrontEnds.{IsNumbered};
ghost use Rattle.satip_base.specs.Lists.{Each};
ghost use Rattle.satip_base.specs.Streams.{fresh_drain};
ghost use Rattle.satip_world.specs.Counts.{Rises};
ghost use Rattle.satip_plain.specs.Histories.{Legal};
ghost use Rattle.satip_turn.specs.Views.{numbers_of};
ghost use Rattle.satip_desk.specs.Fresh.{AreFresh, FreshJobs};
ghost use Rattle.satip_serve.specs.Ran.{AreAtLimit, CanRun, HaveRun};
ghost use Rattle.satip_desk.specs.Views.{jobs_view};
ghost use Rattle.satip_journal_serve.specs.Journals.{AreCallersOf};
ghost use Rattle.satip_entry_writer.specs.Entries.{IsTyped};
ghost use Rattle.satip_jobs.specs.Crews.{IsSpace};
ghost use Rattle.satip_journal_serve.specs.SinkGears.{WentOn, jobs_of, others_of};
ghost use Rattle.satip_journal_serve.specs.Journaled.{Journaled};
ghost use Rattle.satip_journal_serve.specs.Memories.{IsRoomFor};
ghost use Rattle.satip_journal_serve.specs.Asked.{first_jobs};
ghost use Rattle.satip_journal_serve.specs.Ends.{AreUntouched};

use crate::asking::ask_journals;
use crate::gears::{Gears, begin_journals, end_journals};
use crate::memory::{Memory, take_memory};
use satip_base::Want;
use satip_config::Config;
use satip_desk::{Desk, Devices, JobKits, JobSink, Jobs};
use satip_jobs::{Posts, ServeEnd};
use satip_journal::{Journal, JournalGear};
use satip_serve::{Last, ServeSpace, run_services};
use satip_shared::{Caller, SharedPass, SharedServer, make};
use satip_world::Clock;
use std::alloc::Global;
use std::sync::Wait;
use std::thread::Threads;

/// The journals that were written: their sinks in the order of jobs, and whether a put on one of
/// them failed.
#[derive(Drop)]
pub struct Written<S> {
    /// The sinks, in the order of jobs.
    pub sinks: Vec<S>,
    /// Whether a put on one of them failed.
    pub failed: bool,
}

// The result of all jobs: the one pass into which all others are joined, the kits, the journals,
// and the end.
#[derive(Drop)]
struct Ran<J, W> {
    pass: SharedPass,
    jobs: J,
    journals: W,
    end: ServeEnd,
}

// Runs the jobs with journals that have begun.
fn run_gears<R: Threads + Wait + Sync, K: Devices, S: JobSink + Send + Drop>(
    rt: &R,
    server: &SharedServer,
    pass: SharedPass,
    jobs: Jobs<K>,
    gears: Gears<S>,
    space: ServeSpace<Journal<'_, R, S>, K>,
) -> Ran<Jobs<K>, Gears<S>>
    requires ready { CanRun Legal server.now pass jobs }
    requires worker_space { IsSpace jobs.workers.items gears.workers.items
        space.worker_rooms.items space.workers.items (vec_capacity space.workers) }
    requires pump_space { IsSpace jobs.pumps.items gears.pumps.items
        space.pump_rooms.items space.pumps.items (vec_capacity space.pumps) }
    ensures ran { HaveRun K.Doors.Conn.tells K.Outlet.tells
        (FreshJobs server.now.setting.start) server.now
        (jobs_view K.Doors.hall K.Outlet.outbox K.Store.shelf K.Clock.dial jobs) result.pass
        (jobs_view K.Doors.hall K.Outlet.outbox K.Store.shelf K.Clock.dial result.jobs) result.end }
    ensures at_limit { AreAtLimit K.Doors.by_limit result.end
        (jobs_view K.Doors.hall K.Outlet.outbox K.Store.shelf K.Clock.dial result.jobs).workers }
    ensures went_on { WentOn S.tells S.drain gears.root (others_of gears) result.journals.root
        (others_of result.journals) (numbers_of result.pass.kept) result.pass.seen }
    ensures jobs { jobs_of S.job (result.journals.root ∷ others_of result.journals)
        ≡ jobs_of S.job (gears.root ∷ others_of gears) }
    ensures worker_gears { length result.journals.workers.items ≡ length gears.workers.items }
    ensures pump_gears { length result.journals.pumps.items ≡ length gears.pumps.items }
    ensures callers { AreCallersOf (0 ∷ numbers_of result.pass.kept) result.pass.seen }
    ensures typed { Each IsTyped result.pass.seen }
{
    let journal = Journal {
        caller: Caller { rt, server, pass },
        number: gears.root.number,
        sink: gears.root.sink,
        line: gears.root.line,
        failed: gears.root.failed,
    };
    let posts = Posts {
        workers: jobs.workers,
        worker_gears: gears.workers,
        pumps: jobs.pumps,
        pump_gears: gears.pumps,
        ticker: jobs.tick,
        ticker_gear: gears.ticker,
    };
    let (journal, posts, end) = run_services(rt, journal, posts, space);
    let root = JournalGear {
        number: journal.number,
        sink: journal.sink,
        line: journal.line,
        failed: journal.failed,
    };
    let journals = Gears {
        root,
        workers: posts.worker_gears,
        pumps: posts.pump_gears,
        ticker: posts.ticker_gear,
    };
    let jobs = JobKits {
        workers: posts.workers,
        pumps: posts.pumps,
        tick: posts.ticker,
    };
    Ran {
        pass: journal.caller.pass,
        jobs,
        journals,
        end,
    }
}

// Begins the journals on new sinks, runs the jobs, and ends the journals. The sinks come back in
// order.
fn run_journaled<R: Threads + Wait + Sync, K: Devices, S: JobSink + Send + Drop>(
    rt: &R,
    server: &SharedServer,
    pass: SharedPass,
    start: u64,
    jobs: Jobs<K>,
    mut sinks: Vec<S>,
    memory: Memory<ServeSpace<Journal<'_, R, S>, K>, S>,
) -> Ran<Jobs<K>, Written<S>>
    requires ready { CanRun Legal server.now pass jobs }
    requires start { server.now.setting.start ≡ start }
    requires few_workers { length jobs.workers.items < 2 ^ 16 }
    requires few { length jobs.pumps.items ≤ 16 }
    requires sinks { length sinks.items ≡ length jobs.workers.items + length jobs.pumps.items + 2 }
    requires empty { Each (λ j. S.drain j ≡ fresh_drain) sinks.items }
    requires worker_memory { IsRoomFor (length jobs.workers.items)
        memory.space.worker_rooms.items memory.space.workers.items
        (vec_capacity memory.space.workers) memory.worker_gears.items
        (vec_capacity memory.worker_gears) }
    requires pump_memory { IsRoomFor (length jobs.pumps.items) memory.space.pump_rooms.items
        memory.space.pumps.items (vec_capacity memory.space.pumps) memory.pump_gears.items
        (vec_capacity memory.pump_gears) }
    requires lines { length memory.lines.items
        ≡ length jobs.workers.items + length jobs.pumps.items + 2 }
    ensures ran { HaveRun K.Doors.Conn.tells K.Outlet.tells
        (FreshJobs server.now.setting.start) server.now
        (jobs_view K.Doors.hall K.Outlet.outbox K.Store.shelf K.Clock.dial jobs) result.pass
        (jobs_view K.Doors.hall K.Outlet.outbox K.Store.shelf K.Clock.dial result.jobs) result.end }
    ensures at_limit { AreAtLimit K.Doors.by_limit result.end
        (jobs_view K.Doors.hall K.Outlet.outbox K.Store.shelf K.Clock.dial result.jobs).workers }
    ensures journaled { Journaled S.tells S.drain server.now.setting result.pass result.journals }
    ensures jobs { map S.job result.journals.sinks.items ≡ map S.job sinks.items }
    ensures count { length result.journals.sinks.items ≡ length sinks.items }
{
    let Memory {
        space,
        mut lines,
        worker_gears,
        pump_gears,
    } = memory;
    let workers = jobs.workers.len();
    let pumps = jobs.pumps.len();
    let gears = begin_journals(
        &mut sinks,
        &mut lines,
        worker_gears,
        pump_gears,
        workers,
        pumps,
        start,
    );
    let ran = run_gears::<R, K, S>(rt, server, pass, jobs, gears, space);
    let failed = end_journals(ran.journals, &mut sinks);
    Ran {
        pass: ran.pass,
        jobs: ran.jobs,
        journals: Written { sinks, failed },
        end: ran.end,
    }
}

/// The kits and the journals of a serve of which no job began.
#[derive(Drop)]
pub struct Unserved<J, S> {
    /// The kits, of which only the clock was read, at most once.
    pub jobs: J,
    /// The sinks that the desk gave, in the order of jobs.
    pub sinks: Vec<S>,
    /// Whether the desk failed to give one. Otherwise it is out of memory, and there is none.
    pub failed: bool,
}

/// Serves as `serve` does, and writes a journal for each job. Caller 0, which executes the stop,
/// has the first one. Then come the workers, the pumps in the order of front ends, and the ticker.
/// A journal has the lines of its job's entries, in order. A line has the entry's place in the
/// history and the job's number in that order, from 0. Job 0's journal begins with the start line.
/// After a put that failed nothing more is put on that sink; the jobs go on.
///
/// First it takes all memory, and then it asks the desk for the journals. No job begins before the
/// desk has given all. It waits.
pub fn serve_journaled<R: Threads + Wait + Sync, K: Desk>(
    rt: &R,
    alloc: Global,
    config: Config,
    mut jobs: Jobs<K>,
    desk: &mut K,
) -> Result<(Last<Jobs<K>>, Written<K::Journal>, ServeEnd), Unserved<Jobs<K>, K::Journal>>
    requires few { length config.fronts ≤ 16 }
    requires numbered { IsNumbered 1 config.fronts }
    requires received { length config.muxes ≤ 256 }
    requires workers { length jobs.workers.items ≡ config.workers }
    requires pumps { length jobs.pumps.items ≡ length config.fronts }

    ensures texts { (K.desk desk.new).text ≡ (K.desk desk.old).text }
    ensures kits { (K.desk desk.new).given ≡ (K.desk desk.old).given }
    ensures handed { (K.desk desk.new).handed ≡ (K.desk desk.old).handed }
    ensures config { IfOk result (λ served. served.0.server.setting.config ≡ config) }
    // the kits come back, with their keys and recordings; if they were fresh it was a serve run
    ensures ran { IfOk result (λ served. HaveRun K.Doors.Conn.tells K.Outlet.tells AreFresh
        served.0.server
        (jobs_view K.Doors.hall K.Outlet.outbox K.Store.shelf K.Clock.dial jobs) served.0.pass
        (jobs_view K.Doors.hall K.Outlet.outbox K.Store.shelf K.Clock.dial served.0.jobs)
        served.2) }
    ensures at_limit { IfOk result (λ served. AreAtLimit K.Doors.by_limit served.2
        (jobs_view K.Doors.hall K.Outlet.outbox K.Store.shelf K.Clock.dial served.0.jobs).workers) }
    // each sink has its job's journal, or a prefix of it if a put on it failed
    ensures journaled { IfOk result (λ served. Journaled K.Journal.tells K.Journal.drain
        served.0.server.setting served.0.pass served.1) }
    // the desk was asked for the journals of the first jobs, and the sinks are theirs, in order
    ensures asked { MatchResult result
        (λ served. (K.desk desk.new).journaled
        ≡ (K.desk desk.old).journaled ++ first_jobs (length served.1.sinks.items))
        (λ back. (K.desk desk.new).journaled
        ≡ (K.desk desk.old).journaled ++ first_jobs (length back.sinks.items)) }
    ensures jobs { MatchResult result
        (λ served. map K.Journal.job served.1.sinks.items
        ≡ first_jobs (length served.1.sinks.items))
        (λ back. map K.Journal.job back.sinks.items ≡ first_jobs (length back.sinks.items)) }
    ensures no_fault { IfOk result (λ _. (K.desk desk.new).faults ≡ (K.desk desk.old).faults) }
    ensures failed { IfErr result (λ back. MatchBool back.failed
        (Rises (K.desk desk.old).faults (K.desk desk.new).faults)
        ((K.desk desk.new).faults ≡ (K.desk desk.old).faults)) }
    // out of memory it didn't ask the desk
    ensures unasked { IfErr result (λ back. back.failed ≡ false → back.sinks.items ≡ []) }
    ensures empty { IfErr result (λ back. Each (λ j. K.Journal.drain j ≡ fresh_drain)
        back.sinks.items) }
    ensures unused { IfErr result (λ back. AreUntouched
        (jobs_view K.Doors.hall K.Outlet.outbox K.Store.shelf K.Clock.dial jobs)
        (jobs_view K.Doors.hall K.Outlet.outbox K.Store.shelf K.Clock.dial back.jobs)) }
{
    let workers = jobs.workers.len();
    let pumps = jobs.pumps.len();
    let count = workers + pumps + 2;
    let Ok(mut sinks) = Vec::with_capacity(alloc, count) else {
        return Err(Unserved {
            jobs,
            sinks: Vec::new(alloc),
            failed: false,
        });
    };
    let start = jobs.tick.clock.now();
    let Ok((server, pass)) = make(alloc, config, start) else {
        return Err(Unserved {
            jobs,
            sinks,
            failed: false,
        });
    };
    let Ok(memory) = take_memory::<R, K, K::Journal>(alloc, workers, pumps) else {
        return Err(Unserved {
            jobs,
            sinks,
            failed: false,
        });
    };
    if ask_journals(&mut sinks, count, desk) {
        let ran = run_journaled::<R, K, K::Journal>(rt, &server, pass, start, jobs, sinks, memory);
        let last = Last {
            server,
            pass: ran.pass,
            jobs: ran.jobs,
        };
        Ok((last, ran.journals, ran.end))
    } else {
        Err(Unserved {
            jobs,
            sinks,
            failed: true,
        })
    }
}

//! The runs of jobs in threads.

ghost use Rattle.std.specs.Thread.{IsSync};
ghost use Rattle.satip_jobs.specs.Pairs.{Both};
ghost use Rattle.satip_jobs.specs.Working.{Takes, TakesAny, Worked};

use std::thread::{Threads, join_mut};

fn run_one<J, F: Fn(&mut J)>(job: &mut J, work: &F)
    requires takes { Takes F.Fn work.now job.old }
    ensures worked { Worked F.Fn work.now job.old job.new }
{
    work(job);
}

/// Does the work on all jobs, each in a separate thread; this thread does one of them. If no thread
/// can be started for a job, this thread does that job too.
pub fn run_each<R: Threads + Sync, J: Send, F: Fn(&mut J) + Sync>(rt: &R, jobs: &mut [J], work: &F)
    requires takes { TakesAny F.Fn work.now }
    ensures worked { Both (Worked F.Fn work.now) jobs.old jobs.new }
{
    if jobs.is_empty() {
        return;
    }
    if jobs.len() == 1 {
        run_one(&mut jobs[0], work);
        return;
    }
    let (front, back) = jobs.split_at_mut(jobs.len() / 2);
    join_mut(
        rt,
        &mut ||
            requires { IsSync R.row × IsSync F.row × TakesAny F.Fn work.now }
            ensures { Both (Worked F.Fn work.entry.now) front.entry.now front.exit.now }
        { run_each(rt, front, work) },
        &mut ||
            requires { IsSync R.row × IsSync F.row × TakesAny F.Fn work.now }
            ensures { Both (Worked F.Fn work.entry.now) back.entry.now back.exit.now }
        { run_each(rt, back, work) },
    );
}

/// Does two works in parallel, one in a separate thread. If no thread can be started, this thread
/// does both.
pub fn run_beside<R: Threads + Sync, A: Send, B: Send, F: Fn(&mut A) + Sync, G: Fn(&mut B) + Sync>(
    rt: &R,
    first: &mut A,
    work: &F,
    second: &mut B,
    other: &G,
)
    requires first { Takes F.Fn work.now first.old }
    requires second { Takes G.Fn other.now second.old }
    ensures first { Worked F.Fn work.now first.old first.new }
    ensures second { Worked G.Fn other.now second.old second.new }
{
    join_mut(
        rt,
        &mut ||
            requires { Takes F.Fn work.now first.now }
            ensures { Worked F.Fn work.entry.now first.entry.now first.exit.now }
        { run_one(first, work) },
        &mut ||
            requires { Takes G.Fn other.now second.now }
            ensures { Worked G.Fn other.entry.now second.entry.now second.exit.now }
        { run_one(second, other) },
    );
}

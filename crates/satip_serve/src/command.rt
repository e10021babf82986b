//! `serve`: reads a configuration, takes the kits of all jobs from the desk, and serves.

ghost use Rattle.std.specs.Prelude.{◌≡◌, ℕ, List, Some, None, length, IfSome, MatchOption};
ghost use Rattle.satip_fronts.specs.FrontEnds.{IsNumbered};
ghost use Rattle.satip_config.specs.Configurations.{IsServed};
ghost use Rattle.satip_desk.specs.Fresh.{AreFresh};
ghost use Rattle.satip_desk.specs.Views.{DeskView, jobs_view};
ghost use Rattle.satip_world.specs.Recordings.{IsStarted};
ghost use Rattle.satip_serve.specs.CommandEnds.{Serves, serve_tells, serving_left};
ghost use Rattle.satip_desk.specs.Given.{ComeUnused};
ghost use Rattle.satip_serve.specs.CommandRan.{EndsAtLimit, ServingRun, last_view};
ghost use Rattle.satip_serve.specs.Servings.{end_of_reading, end_of_run, IsEndOfRun, IsOneOf};
ghost use Rattle.satip_desk.specs.Fresh.{AreUnused};
ghost use Rattle.satip_serve.specs.Statuses.{outcome_of, serving_status};

use crate::all_jobs::{Last, serve};
use crate::kept_laws::keeps_laws;
use satip_base::{Failed, Text};
use satip_config::{Config, ConfigFault, ConfigurationEnd, Outcome, read_configuration};
use satip_desk::{Desk, Devices, Jobs, JobsFault};
use satip_jobs::ServeEnd;
use std::alloc::Global;
use std::sync::Wait;
use std::thread::Threads;

/// How serving ends.
#[derive(Clone, Copy, Debug, PartialEq, Eq)]
pub enum ServingEnd {
    /// All doors ended, and all jobs.
    Served,
    /// The configuration has this first fault.
    Configuration(ConfigFault),
    /// No configuration was opened, or its source failed.
    InputFault,
    /// The doors of a worker failed, or the desk did.
    DoorsFault,
    /// The history is full.
    HistoryFull,
    /// Memory was refused, and no job began.
    OutOfMemory,
}

impl ServingEnd {
    /// Returns the end of serving after the run of all jobs.
    pub fn of_run(end: ServeEnd) -> ServingEnd
        ensures end { result ≡ end_of_run end }
    {
        match end {
            ServeEnd::Served => ServingEnd::Served,
            ServeEnd::DoorsFault => ServingEnd::DoorsFault,
            ServeEnd::HistoryFull => ServingEnd::HistoryFull,
        }
    }

    /// Returns the outcome of a command that ends so.
    pub fn outcome(self) -> Outcome
        ensures outcome { result ≡ outcome_of self }
    {
        match self {
            ServingEnd::Served => Outcome::Done,
            ServingEnd::Configuration(fault) => Outcome::Configuration(fault),
            ServingEnd::InputFault => Outcome::InputFault,
            ServingEnd::DoorsFault => Outcome::DoorsFault,
            ServingEnd::HistoryFull => Outcome::HistoryFull,
            ServingEnd::OutOfMemory => Outcome::OutOfMemory,
        }
    }
}

impl From<ConfigurationEnd> for ServingEnd {
    ghost from_gives = { λ end result. result ≡ end_of_reading end };

    fn from(end: ConfigurationEnd) -> ServingEnd {
        match end {
            ConfigurationEnd::Fault(fault) => ServingEnd::Configuration(fault),
            ConfigurationEnd::SourceFailed => ServingEnd::InputFault,
            ConfigurationEnd::OutOfMemory => ServingEnd::OutOfMemory,
        }
    }
}

/// The remains of the jobs, if any began, or else their kits, if there were any.
pub struct JobsLeft<L, J> {
    /// How serving ended.
    pub end: ServingEnd,
    /// The remains of the jobs, if any began.
    pub last: Option<L>,
    /// The kits, if no job began with them.
    pub unused: Option<J>,
}

impl<L, J> JobsLeft<L, J> {
    /// Creates an outcome without kits.
    pub fn nothing(end: ServingEnd) -> JobsLeft<L, J>
        ensures end { result.end ≡ end }
        ensures last { result.last ≡ None }
        ensures unused { result.unused ≡ None }
    {
        JobsLeft {
            end,
            last: None,
            unused: None,
        }
    }
}

// Serves with these kits.
fn serve_jobs<R: Threads + Wait + Sync, K: Devices>(
    rt: &R,
    alloc: Global,
    config: Config,
    _accepts: u32,
    jobs: Jobs<K>,
) -> JobsLeft<Last<Jobs<K>>, Jobs<K>>
    requires served { IsServed config }
    requires workers { length jobs.workers.items ≡ config.workers }
    requires pumps { length jobs.pumps.items ≡ length config.fronts }
    requires fresh { AreFresh _accepts
        (jobs_view K.Doors.hall K.Outlet.outbox K.Store.shelf K.Clock.dial jobs) }
    ensures one { IsOneOf result.last result.unused }
    ensures config { IfSome result.last (λ last. last.server.setting.config ≡ config) }
    ensures ran { IfSome result.last (λ last. ServingRun K.Doors.Conn.tells K.Outlet.tells _accepts
        (jobs_view K.Doors.hall K.Outlet.outbox K.Store.shelf K.Clock.dial jobs)
        (last_view (jobs_view K.Doors.hall K.Outlet.outbox K.Store.shelf K.Clock.dial) last)
        (serving_status result.end)) }
    ensures at_limit { IfSome result.last (λ last. EndsAtLimit K.Doors.by_limit
        (jobs_view K.Doors.hall K.Outlet.outbox K.Store.shelf K.Clock.dial last.jobs).workers
        (serving_status result.end)) }
    ensures begun { MatchOption result.last (result.end ≡ ServingEnd.OutOfMemory)
        (λ _. IsEndOfRun result.end) }
    ensures kits_unused { IfSome result.unused (λ kits. ComeUnused
        (jobs_view K.Doors.hall K.Outlet.outbox K.Store.shelf K.Clock.dial jobs)
        (jobs_view K.Doors.hall K.Outlet.outbox K.Store.shelf K.Clock.dial kits)) }
    ensures unused_kits { IfSome result.unused (λ kits. AreUnused _accepts
        (jobs_view K.Doors.hall K.Outlet.outbox K.Store.shelf K.Clock.dial kits)) }
{
    match serve::<R, K>(rt, alloc, config, jobs) {
        Ok((last, end)) => {
            keeps_laws(&last.server, &last.pass);
            JobsLeft {
                end: ServingEnd::of_run(end),
                last: Some(last),
                unused: None,
            }
        }
        Err(jobs) => JobsLeft {
            end: ServingEnd::OutOfMemory,
            last: None,
            unused: Some(jobs),
        },
    }
}

// Serves by the configuration of this source.
fn serve_source<R: Threads + Wait + Sync, K: Desk>(
    rt: &R,
    alloc: Global,
    source: &mut K::Config,
    accepts: u32,
    desk: &mut K,
) -> JobsLeft<Last<Jobs<K>>, Jobs<K>>
    requires new { (K.desk desk.old).given ≡ None }
    ensures texts { (K.desk desk.new).text ≡ (K.desk desk.old).text }
    ensures handed { (K.desk desk.new).handed ≡ (K.desk desk.old).handed }
    ensures journaled { (K.desk desk.new).journaled ≡ (K.desk desk.old).journaled }
    ensures ends { (name : List ℕ) (d : DeskView)
        → IsStarted K.Config.tells (K.Config.feed source.old) (d.text name)
        → (K.Config.feed source.old).taken ≡ 0
        → (K.desk desk.old).faults ≡ d.faults
        → Serves (serve_tells K.Config.tells K.Doors.Conn.tells K.Outlet.tells)
        (λ fault. result.end ≡ ServingEnd.Configuration fault) accepts name d (K.desk desk.new)
        (serving_left K.Config.feed
        (jobs_view K.Doors.hall K.Outlet.outbox K.Store.shelf K.Clock.dial) (Some source.new)
        result.last result.unused (serving_status result.end)) }
    ensures at_limit { IfSome result.last (λ last. EndsAtLimit K.Doors.by_limit
        (jobs_view K.Doors.hall K.Outlet.outbox K.Store.shelf K.Clock.dial last.jobs).workers
        (serving_status result.end)) }
{
    let config = match read_configuration(alloc, source) {
        Ok(config) => config,
        Err(end) => return JobsLeft::nothing(ServingEnd::from(end)),
    };
    match desk.jobs(alloc, &config, accepts) {
        Ok(jobs) => serve_jobs::<R, K>(rt, alloc, config, accepts, jobs),
        Err(JobsFault::Failed) => JobsLeft::nothing(ServingEnd::DoorsFault),
        Err(JobsFault::Want) => JobsLeft::nothing(ServingEnd::OutOfMemory),
    }
}

/// The outcome of serving. The caller takes it apart.
pub struct Served<K: Desk> {
    /// How it ended.
    pub end: ServingEnd,
    /// The configuration's source that the desk gave, as far as it was read.
    pub config: Option<K::Config>,
    /// The remains of the jobs, if any began.
    pub last: Option<Last<Jobs<K>>>,
    /// The kits that the desk gave, if no job began.
    pub unused: Option<Jobs<K>>,
}

/// Serves by the configuration of this name, with the kits of the desk. Each worker's doors end
/// after `accepts` connections, and never if it is 0. Blocks.
pub fn serve_by<R: Threads + Wait + Sync, K: Desk>(
    rt: &R,
    alloc: Global,
    name: &Text,
    accepts: u32,
    desk: &mut K,
) -> Served<K>
    requires new { (K.desk desk.old).given ≡ None }
    ensures texts { (K.desk desk.new).text ≡ (K.desk desk.old).text }
    ensures handed { (K.desk desk.new).handed ≡ (K.desk desk.old).handed }
    ensures journaled { (K.desk desk.new).journaled ≡ (K.desk desk.old).journaled }
    ensures ends { Serves (serve_tells K.Config.tells K.Doors.Conn.tells K.Outlet.tells)
        (λ fault. result.end ≡ ServingEnd.Configuration fault) accepts name.now
        (K.desk desk.old) (K.desk desk.new) (serving_left K.Config.feed
        (jobs_view K.Doors.hall K.Outlet.outbox K.Store.shelf K.Clock.dial) result.config
        result.last result.unused (serving_status result.end)) }
    ensures at_limit { IfSome result.last (λ last. EndsAtLimit K.Doors.by_limit
        (jobs_view K.Doors.hall K.Outlet.outbox K.Store.shelf K.Clock.dial last.jobs).workers
        (serving_status result.end)) }
{
    match desk.config(name) {
        Ok(mut source) => {
            let JobsLeft { end, last, unused } = serve_source(
                rt,
                alloc,
                &mut source,
                accepts,
                desk,
            );
            Served {
                end,
                config: Some(source),
                last,
                unused,
            }
        }
        Err(Failed) => Served {
            end: ServingEnd::InputFault,
            config: None,
            last: None,
            unused: None,
        },
    }
}

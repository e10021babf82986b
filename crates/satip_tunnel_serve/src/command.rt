//! `tunnel`: reads a configuration, takes the kits of all jobs from the desk, and serves.

ghost use Rattle.std.specs.Prelude.{◌≡◌, ℕ, List, Some, None, length, IfSome, MatchOption};
ghost use Rattle.satip_fronts.specs.FrontEnds.{IsNumbered};
ghost use Rattle.satip_config.specs.Configurations.{IsServed};
ghost use Rattle.satip_desk.specs.Fresh.{AreFresh};
ghost use Rattle.satip_desk.specs.Views.{DeskView, jobs_view};
ghost use Rattle.satip_world.specs.Recordings.{IsStarted};
ghost use Rattle.satip_desk.specs.Given.{ComeUnused};
ghost use Rattle.satip_serve.specs.CommandRan.{EndsAtLimit};
ghost use Rattle.satip_serve.specs.Servings.{IsEndOfRun, IsOneOf};
ghost use Rattle.satip_desk.specs.Fresh.{AreUnused};
ghost use Rattle.satip_serve.specs.Statuses.{serving_status};
ghost use Rattle.satip_tunnel_serve.specs.Ends.{TunnelServingRun, Tunnels, tunnel_last_view, tunnel_left, tunnel_tells};

use crate::all_jobs::{TunnelLast, serve_through_tunnel};
use crate::command_laws::keeps_laws;
use crate::run_laws::connections_have_lanes;
use satip_base::{Failed, Text};
use satip_config::{Config, read_configuration};
use satip_desk::{Desk, Devices, Jobs, JobsFault};
use satip_serve::{JobsLeft, ServingEnd};
use std::alloc::Global;
use std::sync::Wait;
use std::thread::Threads;

// Serves with these kits.
fn run_kits<R: Threads + Wait + Sync, K: Devices>(
    rt: &R,
    alloc: Global,
    config: Config,
    _accepts: u32,
    jobs: Jobs<K>,
) -> JobsLeft<TunnelLast<Jobs<K>>, Jobs<K>>
    requires served { IsServed config }
    requires workers { length jobs.workers.items ≡ config.workers }
    requires pumps { length jobs.pumps.items ≡ length config.fronts }
    requires fresh { AreFresh _accepts
        (jobs_view K.Doors.hall K.Outlet.outbox K.Store.shelf K.Clock.dial jobs) }
    ensures one { IsOneOf result.last result.unused }
    ensures config { IfSome result.last (λ last. last.server.setting.config ≡ config) }
    ensures ran { IfSome result.last (λ last. TunnelServingRun K.Doors.Conn.tells _accepts
        (jobs_view K.Doors.hall K.Outlet.outbox K.Store.shelf K.Clock.dial jobs)
        (tunnel_last_view (jobs_view K.Doors.hall K.Outlet.outbox K.Store.shelf K.Clock.dial) last)
        (serving_status result.end)) }
    ensures at_limit { IfSome result.last (λ last. EndsAtLimit K.Doors.by_limit
        (jobs_view K.Doors.hall K.Outlet.outbox K.Store.shelf K.Clock.dial last.jobs).workers
        (serving_status result.end)) }
    ensures begun { MatchOption result.last (result.end ≡ ServingEnd.OutOfMemory)
        (λ _. IsEndOfRun result.end) }
    ensures kits_unused { IfSome result.unused (λ kits. ComeUnused
        (jobs_view K.Doors.hall K.Outlet.outbox K.Store.shelf K.Clock.dial jobs)
        (jobs_view K.Doors.hall K.Outlet.outbox K.Store.shelf K.Clock.dial kits)) }
    ensures unused_kits { IfSome result.unused (λ kits. AreUnused _accepts
        (jobs_view K.Doors.hall K.Outlet.outbox K.Store.shelf K.Clock.dial kits)) }
{
    match serve_through_tunnel::<R, K>(rt, alloc, config, jobs) {
        Ok((last, end)) => {
            keeps_laws(&last.server, &last.pass);
            connections_have_lanes::<K::Doors>();
            JobsLeft {
                end: ServingEnd::of_run(end),
                last: Some(last),
                unused: None,
            }
        }
        Err(jobs) => JobsLeft {
            end: ServingEnd::OutOfMemory,
            last: None,
            unused: Some(jobs),
        },
    }
}

// Serves by the configuration of this source.
fn run_source<R: Threads + Wait + Sync, K: Desk>(
    rt: &R,
    alloc: Global,
    source: &mut K::Config,
    accepts: u32,
    desk: &mut K,
) -> JobsLeft<TunnelLast<Jobs<K>>, Jobs<K>>
    requires new { (K.desk desk.old).given ≡ None }
    ensures texts { (K.desk desk.new).text ≡ (K.desk desk.old).text }
    ensures handed { (K.desk desk.new).handed ≡ (K.desk desk.old).handed }
    ensures journaled { (K.desk desk.new).journaled ≡ (K.desk desk.old).journaled }
    ensures ends { (name : List ℕ) (d : DeskView)
        → IsStarted K.Config.tells (K.Config.feed source.old) (d.text name)
        → (K.Config.feed source.old).taken ≡ 0
        → (K.desk desk.old).faults ≡ d.faults
        → Tunnels (tunnel_tells K.Config.tells K.Doors.Conn.tells)
        (λ fault. result.end ≡ ServingEnd.Configuration fault) accepts name d (K.desk desk.new)
        (tunnel_left K.Config.feed
        (jobs_view K.Doors.hall K.Outlet.outbox K.Store.shelf K.Clock.dial) (Some source.new)
        result.last result.unused (serving_status result.end)) }
    ensures at_limit { IfSome result.last (λ last. EndsAtLimit K.Doors.by_limit
        (jobs_view K.Doors.hall K.Outlet.outbox K.Store.shelf K.Clock.dial last.jobs).workers
        (serving_status result.end)) }
{
    let config = match read_configuration(alloc, source) {
        Ok(config) => config,
        Err(end) => return JobsLeft::nothing(ServingEnd::from(end)),
    };
    match desk.jobs(alloc, &config, accepts) {
        Ok(jobs) => run_kits::<R, K>(rt, alloc, config, accepts, jobs),
        Err(JobsFault::Failed) => JobsLeft::nothing(ServingEnd::DoorsFault),
        Err(JobsFault::Want) => JobsLeft::nothing(ServingEnd::OutOfMemory),
    }
}

/// The outcome of serving. The caller takes it apart.
pub struct Tunneled<K: Desk> {
    /// How it ended.
    pub end: ServingEnd,
    /// The configuration's source that the desk gave, as far as it was read.
    pub config: Option<K::Config>,
    /// The remains of the jobs, if any began.
    pub last: Option<TunnelLast<Jobs<K>>>,
    /// The kits that the desk gave, if no job began.
    pub unused: Option<Jobs<K>>,
}

/// Serves by the configuration of this name, with the kits of the desk. Sends RTP and RTCP inside
/// the RTSP connections (RFC 2326, section 10.12). Each worker's doors end after `accepts`
/// connections, and never if it is 0. Blocks.
pub fn tunnel_by<R: Threads + Wait + Sync, K: Desk>(
    rt: &R,
    alloc: Global,
    name: &Text,
    accepts: u32,
    desk: &mut K,
) -> Tunneled<K>
    requires new { (K.desk desk.old).given ≡ None }
    ensures texts { (K.desk desk.new).text ≡ (K.desk desk.old).text }
    ensures handed { (K.desk desk.new).handed ≡ (K.desk desk.old).handed }
    ensures journaled { (K.desk desk.new).journaled ≡ (K.desk desk.old).journaled }
    ensures ends { Tunnels (tunnel_tells K.Config.tells K.Doors.Conn.tells)
        (λ fault. result.end ≡ ServingEnd.Configuration fault) accepts name.now
        (K.desk desk.old) (K.desk desk.new) (tunnel_left K.Config.feed
        (jobs_view K.Doors.hall K.Outlet.outbox K.Store.shelf K.Clock.dial) result.config
        result.last result.unused (serving_status result.end)) }
    ensures at_limit { IfSome result.last (λ last. EndsAtLimit K.Doors.by_limit
        (jobs_view K.Doors.hall K.Outlet.outbox K.Store.shelf K.Clock.dial last.jobs).workers
        (serving_status result.end)) }
{
    match desk.config(name) {
        Ok(mut source) => {
            let JobsLeft { end, last, unused } = run_source(rt, alloc, &mut source, accepts, desk);
            Tunneled {
                end,
                config: Some(source),
                last,
                unused,
            }
        }
        Err(Failed) => Tunneled {
            end: ServingEnd::InputFault,
            config: None,
            last: None,
            unused: None,
        },
    }
}

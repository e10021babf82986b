//! `journal`: reads a configuration, asks the desk for the kits and the journals of all jobs, and
//! serves.

ghost use Rattle.std.specs.Prelude.{◌≡◌, ℕ, ◌⊎◌, ◌+◌, ◌≤◌, [], ◌++◌, List, Some, None, length, map, IfSome, IsNone, IsSomeAnd, MatchOption};
ghost use Rattle.satip_base.specs.Streams.{Rose, fresh_drain};
ghost use Rattle.satip_config.specs.declared.fault.ConfigFault.{ConfigFault as Fault};
ghost use Rattle.satip_fronts.specs.FrontEnds.{IsNumbered};
ghost use Rattle.satip_base.specs.Lists.{Each};
ghost use Rattle.satip_config.specs.Configurations.{configuration_limit, Configured, IsServed, Refused};
ghost use Rattle.satip_desk.specs.Fresh.{AreFresh};
ghost use Rattle.satip_desk.specs.Views.{jobs_view};
ghost use Rattle.satip_desk.specs.Journals.{journals_view};
ghost use Rattle.satip_world.specs.Counts.{Rises};
ghost use Rattle.satip_serve.specs.Servings.{IsOneOf, IsNeitherOf};
ghost use Rattle.satip_journal_serve.specs.Asked.{first_jobs};
ghost use Rattle.satip_journal_serve.specs.Ends.{AreUntouched, JournalEnds, journal_left, journal_tells};
ghost use Rattle.satip_serve.specs.CommandEnds.{serving_left};
ghost use Rattle.satip_serve.specs.CommandRan.{EndsAtLimit, last_view};
ghost use Rattle.satip_journal_serve.specs.Ran.{JournalRun, status_of_jobs};
ghost use Rattle.satip_journal_serve.specs.Statuses.{IsEndOfRun, IsJournalOf, IsUnready, IsUnusedEnd, journal_status, outcome_of};
ghost use Rattle.satip_config.specs.Lines.{Says};
ghost use Rattle.satip_config.specs.Outcomes.{line_of};

use crate::all_jobs::serve_journaled;
use crate::ends::JournalEnd;
use satip_base::{Failed, Sink, Text};
use satip_config::{Config, Outcome, read_configuration};
use satip_desk::{Desk, Jobs, JobsFault};
use satip_serve::{Last, keeps_laws};
use std::alloc::Global;
use std::sync::Wait;
use std::thread::Threads;

// The result of the jobs, if any began, or else their kits, if the desk gave any; and the journals
// that the desk gave.
struct Left<J, S> {
    end: JournalEnd,
    last: Option<Last<J>>,
    unused: Option<J>,
    journals: Vec<S>,
}

// Returns the result if no job began.
fn not_begun<J, S>(end: JournalEnd, unused: Option<J>, journals: Vec<S>) -> Left<J, S>
    ensures end { result.end ≡ end }
    ensures last { result.last ≡ None }
    ensures unused { result.unused ≡ unused }
    ensures journals { result.journals.items ≡ journals.items }
{
    Left {
        end,
        last: None,
        unused,
        journals,
    }
}

// Serves with these kits, and with journals of the desk.
fn run_kits<R: Threads + Wait + Sync, K: Desk>(
    rt: &R,
    alloc: Global,
    config: Config,
    _accepts: u32,
    jobs: Jobs<K>,
    desk: &mut K,
) -> Left<Jobs<K>, K::Journal>
    requires served { IsServed config }
    requires workers { length jobs.workers.items ≡ config.workers }
    requires pumps { length jobs.pumps.items ≡ length config.fronts }
    requires fresh { AreFresh _accepts
        (jobs_view K.Doors.hall K.Outlet.outbox K.Store.shelf K.Clock.dial jobs) }
    ensures texts { (K.desk desk.new).text ≡ (K.desk desk.old).text }
    ensures handed { (K.desk desk.new).handed ≡ (K.desk desk.old).handed }
    ensures kits { (K.desk desk.new).given ≡ (K.desk desk.old).given }
    ensures one { IsOneOf result.last result.unused }
    ensures config { IfSome result.last (λ last. last.server.setting.config ≡ config) }
    ensures ran { IfSome result.last (λ last. JournalRun K.Doors.Conn.tells K.Outlet.tells
        K.Journal.tells _accepts
        (jobs_view K.Doors.hall K.Outlet.outbox K.Store.shelf K.Clock.dial jobs)
        (last_view (jobs_view K.Doors.hall K.Outlet.outbox K.Store.shelf K.Clock.dial) last)
        (journals_view K.Journal.job K.Journal.drain result.journals.items)
        (journal_status result.end)) }
    ensures at_limit { IfSome result.last (λ last. EndsAtLimit K.Doors.by_limit
        (jobs_view K.Doors.hall K.Outlet.outbox K.Store.shelf K.Clock.dial last.jobs).workers
        (status_of_jobs (journal_status result.end))) }
    ensures unused { IfSome result.unused (λ kits. AreUntouched
        (jobs_view K.Doors.hall K.Outlet.outbox K.Store.shelf K.Clock.dial jobs)
        (jobs_view K.Doors.hall K.Outlet.outbox K.Store.shelf K.Clock.dial kits)) }
    ensures begun { MatchOption result.last
        (IsUnusedEnd (K.desk desk.old).faults (K.desk desk.new).faults result.end)
        (λ _. IsEndOfRun result.end) }
    ensures no_fault { IfSome result.last
        (λ _. (K.desk desk.new).faults ≡ (K.desk desk.old).faults) }
    ensures journaled { (K.desk desk.new).journaled
        ≡ (K.desk desk.old).journaled ++ first_jobs (length result.journals.items) }
    ensures jobs { map K.Journal.job result.journals.items
        ≡ first_jobs (length result.journals.items) }
    ensures unasked { result.end ≡ JournalEnd.OutOfMemory → result.journals.items ≡ [] }
    ensures empty { IsNone result.last
        → Each (λ j. K.Journal.drain j ≡ fresh_drain) result.journals.items }
{
    match serve_journaled(rt, alloc, config, jobs, desk) {
        Ok((last, written, end)) => {
            keeps_laws(&last.server, &last.pass);
            Left {
                end: JournalEnd::of_run(end, written.failed),
                last: Some(last),
                unused: None,
                journals: written.sinks,
            }
        }
        Err(back) => {
            if back.failed {
                not_begun(JournalEnd::JournalFault, Some(back.jobs), back.sinks)
            } else {
                not_begun(JournalEnd::OutOfMemory, Some(back.jobs), back.sinks)
            }
        }
    }
}

// Serves by the configuration of this source.
fn run_source<R: Threads + Wait + Sync, K: Desk>(
    rt: &R,
    alloc: Global,
    source: &mut K::Config,
    accepts: u32,
    desk: &mut K,
) -> Left<Jobs<K>, K::Journal>
    requires new { (K.desk desk.old).given ≡ None }
    ensures texts { (K.desk desk.new).text ≡ (K.desk desk.old).text }
    ensures handed { (K.desk desk.new).handed ≡ (K.desk desk.old).handed }
    ensures kits { MatchOption (K.desk desk.new).given (IsNeitherOf result.last result.unused)
        (λ _. IsOneOf result.last result.unused) }
    ensures fresh { IfSome (K.desk desk.new).given (AreFresh accepts) }
    ensures config { IfSome result.last (λ last. Configured K.Config.tells
        (K.Config.feed source.old) (K.Config.feed source.new)
        last.server.setting.config) }
    ensures ran { IfSome result.last (λ last. IsSomeAnd (K.desk desk.new).given
        (λ given. JournalRun K.Doors.Conn.tells K.Outlet.tells K.Journal.tells accepts
        given (last_view (jobs_view K.Doors.hall K.Outlet.outbox K.Store.shelf K.Clock.dial) last)
        (journals_view K.Journal.job K.Journal.drain result.journals.items)
        (journal_status result.end))) }
    ensures at_limit { IfSome result.last (λ last. EndsAtLimit K.Doors.by_limit
        (jobs_view K.Doors.hall K.Outlet.outbox K.Store.shelf K.Clock.dial last.jobs).workers
        (status_of_jobs (journal_status result.end))) }
    ensures unused { IfSome result.unused
        (λ kits. IsSomeAnd (K.desk desk.new).given (λ given. AreUntouched given
        (jobs_view K.Doors.hall K.Outlet.outbox K.Store.shelf K.Clock.dial kits))) }
    ensures unused_end { IfSome result.unused
        (λ _. IsUnusedEnd (K.desk desk.old).faults (K.desk desk.new).faults result.end) }
    ensures begun { IfSome result.last (λ _. IsEndOfRun result.end) }
    ensures not_begun { IsNone result.last → IsNone result.unused → IsUnready
        (K.desk desk.old).faults (K.desk desk.new).faults (K.desk desk.new).given result.end }
    ensures configuration { (fault : Fault) → result.end ≡ JournalEnd.Configuration fault
        → Refused K.Config.tells
        (K.Config.feed source.old) (K.Config.feed source.new)
        fault }
    ensures input_fault { result.end ≡ JournalEnd.InputFault
        → Rose (K.Config.feed source.old).faults (K.Config.feed source.new).faults }
    ensures read_through { (result.end ≡ JournalEnd.InputFault → ⊥)
        → (K.Config.feed source.new).faults ≡ (K.Config.feed source.old).faults }
    ensures limit { (K.Config.feed source.new).taken
        ≤ (K.Config.feed source.old).taken + configuration_limit + 1 }
    ensures no_fault { IfSome result.last
        (λ _. (K.desk desk.new).faults ≡ (K.desk desk.old).faults) }
    ensures settled { K.Config.tells → (Rose (K.Config.feed source.old).faults
        (K.Config.feed source.new).faults → ⊥) → IsJournalOf (K.Config.feed source.old).left
        result.end }
    ensures journaled { (K.desk desk.new).journaled
        ≡ (K.desk desk.old).journaled ++ first_jobs (length result.journals.items) }
    ensures jobs { map K.Journal.job result.journals.items
        ≡ first_jobs (length result.journals.items) }
    ensures unasked { result.end ≡ JournalEnd.OutOfMemory → result.journals.items ≡ [] }
    ensures none_asked { (K.desk desk.new).given ≡ None → result.journals.items ≡ [] }
    ensures empty { IsNone result.last
        → Each (λ j. K.Journal.drain j ≡ fresh_drain) result.journals.items }
{
    let config = match read_configuration(alloc, source) {
        Ok(config) => config,
        Err(end) => return not_begun(JournalEnd::from(end), None, Vec::new(alloc)),
    };
    match desk.jobs(alloc, &config, accepts) {
        Ok(jobs) => run_kits(rt, alloc, config, accepts, jobs, desk),
        Err(JobsFault::Failed) => not_begun(JournalEnd::DoorsFault, None, Vec::new(alloc)),
        Err(JobsFault::Want) => not_begun(JournalEnd::OutOfMemory, None, Vec::new(alloc)),
    }
}

/// The result of serving with journals. Its user takes it apart.
pub struct Journaled<K: Desk> {
    /// The end of serving.
    pub end: JournalEnd,
    /// The configuration that the desk gave, as far as it was read.
    pub config: Option<K::Config>,
    /// The result of the jobs, if any began.
    pub last: Option<Last<Jobs<K>>>,
    /// The kits that the desk gave, if no job began.
    pub unused: Option<Jobs<K>>,
    /// The journals that the desk gave, in the order of jobs.
    pub journals: Vec<K::Journal>,
}

/// Serves as `serve_by` does, with a journal for each job. Logs any end but `Served` in a line on
/// the errors sink. All memory is taken before the desk is asked for a journal, and the desk gives
/// all journals before any job begins. It waits.
pub fn journal_by<R: Threads + Wait + Sync, K: Desk, E: Sink>(
    rt: &R,
    alloc: Global,
    name: &Text,
    accepts: u32,
    errors: &mut E,
    desk: &mut K,
) -> Journaled<K>
    requires new { (K.desk desk.old).given ≡ None }
    ensures texts { (K.desk desk.new).text ≡ (K.desk desk.old).text }
    ensures handed { (K.desk desk.new).handed ≡ (K.desk desk.old).handed }
    ensures says { Says E.tells
        (E.drain errors.old) (E.drain errors.new)
        (line_of (outcome_of result.end)) }
    ensures ends { JournalEnds (journal_tells K.Config.tells K.Doors.Conn.tells K.Outlet.tells
        K.Journal.tells E.tells) accepts name.now (K.desk desk.old) (K.desk desk.new)
        (E.drain errors.old) (E.drain errors.new) (journal_left (serving_left K.Config.feed
        (jobs_view K.Doors.hall K.Outlet.outbox K.Store.shelf K.Clock.dial) result.config
        result.last result.unused (journal_status result.end))
        (journals_view K.Journal.job K.Journal.drain result.journals.items)) }
    ensures at_limit { IfSome result.last (λ last. EndsAtLimit K.Doors.by_limit
        (jobs_view K.Doors.hall K.Outlet.outbox K.Store.shelf K.Clock.dial last.jobs).workers
        (status_of_jobs (journal_status result.end))) }
{
    match desk.config(name) {
        Ok(mut source) => {
            let Left {
                end,
                last,
                unused,
                journals,
            } = run_source(rt, alloc, &mut source, accepts, desk);
            end.outcome().tell(errors);
            Journaled {
                end,
                config: Some(source),
                last,
                unused,
                journals,
            }
        }
        Err(Failed) => {
            Outcome::InputFault.tell(errors);
            Journaled {
                end: JournalEnd::InputFault,
                config: None,
                last: None,
                unused: None,
                journals: Vec::new(alloc),
            }
        }
    }
}

//! The top call: runs the program with its words, its input, its output, its errors and its desk.

ghost use Rattle.std.specs.Prelude.{◌≡◌, ◌⊎◌, ℕ, List, [], Option, Some, None, IfSome, IsSomeAnd, option_map};
ghost use Rattle.satip_base.specs.Streams.{Rose};
ghost use Rattle.satip_config.specs.Lines.{Says, configuration_line};
ghost use Rattle.satip_config.specs.Outcomes.{Logs, line_of, status_of};
ghost use Rattle.satip_desk.specs.Handed.{nothing_handed};
ghost use Rattle.satip_desk.specs.Journals.{journals_view};
ghost use Rattle.satip_desk.specs.Streams.{streams};
ghost use Rattle.satip_desk.specs.Views.{jobs_view};
ghost use Rattle.satip_journal_serve.specs.Ends.{JournalEnds, journal_tells, journal_left};
ghost use Rattle.satip_journal_serve.specs.Ran.{status_of_jobs};
ghost use Rattle.satip_recorder.specs.Ends.{left_of};
ghost use Rattle.satip_tunnel_serve.specs.Serve.CommandEnds.{Serves, serve_tells, serving_left};
ghost use Rattle.satip_tunnel_serve.specs.Serve.CommandRan.{EndsAtLimit};
ghost use Rattle.satip_tunnel_serve.specs.Ends.{Tunnels, tunnel_left, tunnel_tells};
ghost use Rattle.satip_program.specs.Commands.{Serve, Tunnel, Journal, asked_of, asked_offline, command_of, serving_of, config_named, recording_in};
ghost use Rattle.satip_program.specs.Ended.{ended_alone, ended_recording, ended_view};
ghost use Rattle.satip_program.specs.Journaling.{IsOfJournal};
ghost use Rattle.satip_program.specs.Runs.{IsShown, RunEnds};

use crate::commands::{Command, Service, read_service, read_words};
use satip_base::{Put, Sink, Source, Text};
use satip_config::{Outcome, say};
use satip_desk::{Desk, Jobs};
use satip_journal_serve::{AuditCommand, Journaled, journal_by};
use satip_recorder::{RecordRan as Recorded, record};
use satip_replay::{Batched, ReplayCommand, run_batch};
use satip_stress::stress_by;
use satip_talk_command::talk;
use satip_tunnel_serve::{Last, Served, TunnelLast, Tunneled, serve_by, tunnel_by};
use std::alloc::Global;
use std::sync::Wait;
use std::thread::Threads;

const USAGE: &[u8] =
    b"usage: satip talk | replay CONFIG | serve CONFIG ACCEPTS | stress SEED COUNT \
    | tunnel CONFIG ACCEPTS | journal CONFIG ACCEPTS | audit CONFIG | record ADDRESS QUERY COUNT\n";

const HELP: &[u8] = b"usage: satip talk | replay CONFIG | serve CONFIG ACCEPTS | stress SEED COUNT \
    | tunnel CONFIG ACCEPTS | journal CONFIG ACCEPTS | audit CONFIG | record ADDRESS QUERY COUNT\n\
    serve: clients, by the configuration in the file CONFIG; each worker ends after ACCEPTS \
    connections, and never where it is 0\n\
    \x20   satip serve satip.toml 0\n\
    \x20   SATIP_PACE=recording plays each recording at its own rate, SATIP_REPEAT=1 again at its \
    end\n\
    \x20   SATIP_STOP=FILE ends it softly once FILE is there, SATIP_STATUS=FILE makes it write FILE \
    once a second\n\
    replay: the events of the script on standard input, run by the configuration in the file \
    CONFIG\n\
    \x20   satip replay examples/satip.toml < examples/session.script\n\
    talk: one RTSP connection, from standard input to standard output\n\
    \x20   satip talk < requests\n\
    stress: COUNT events that a generator makes of SEED, run and counted\n\
    \x20   satip stress 7 100000\n\
    tunnel: as serve, but RTP and RTCP go down the RTSP connection, to clients that ask for \
    RTP/AVP/TCP\n\
    \x20   satip tunnel satip.toml 0\n\
    journal: as serve, and each job writes its entries to the file journal.N, by its number N, in \
    the current folder\n\
    \x20   satip journal satip.toml 0\n\
    audit: the verdict on the journals on standard input, by the configuration in the file CONFIG\n\
    \x20   cat journal.* | satip audit satip.toml\n\
    record: COUNT packets of the stream of QUERY, from the server at ADDRESS, to standard output\n\
    \x20   satip record 127.0.0.1:554 'src=1&freq=11494&pol=h&msys=dvbs&sr=22000&pids=all' 1000 > \
    stream.ts\n\
    manual: man satip, or docs/satip.1; statuses: docs/PROTOCOL.md; configuration: \
    examples/satip.toml\n";

/// The output of `--version`.
pub const VERSION: &[u8] = b"satip 0.2.0\n";

/// The end of a run.
pub struct Ended<K: Desk> {
    /// The exit status:
    /// - 0: all went well.
    /// - 2: the words are an unknown command line.
    /// - 3: the configuration has a fault.
    /// - 4: the script or the journals have a wrong line.
    /// - 5: the input or the configuration failed, or the desk didn't open the configuration.
    /// - 6: the output or a journal failed, or the desk didn't give a journal.
    /// - 7: the doors of a worker failed, or the desk didn't give the kits.
    /// - 8: the input is too long.
    /// - 9: the history is full.
    /// - 10: a recording was refused.
    /// - 11: a recording got a bad reply.
    /// - 12: a recording's server was silent.
    /// - 13: a recording's peer failed, or the desk didn't give a connection or an inlet.
    /// - 14: a recording's connection ended before a reply.
    /// - 70: out of memory.
    pub status: u8,
    /// The configuration that the desk gave, as far as it was read.
    pub config: Option<K::Config>,
    /// The result of the jobs of a `serve` or a `journal`, if any began.
    pub last: Option<Last<Jobs<K>>>,
    /// The result of the jobs of a `tunnel`, if any began.
    pub tunnel: Option<TunnelLast<Jobs<K>>>,
    /// The kits that the desk gave, if no job began.
    pub unused: Option<Jobs<K>>,
    /// The connection that the desk gave to a recording, if it gave one.
    pub wire: Option<K::Wire>,
    /// The inlet that the desk gave to a recording, if it gave one.
    pub inlet: Option<K::Inlet>,
    /// The clock that the desk gave to a recording, if there was one.
    pub moment: Option<K::Moment>,
    /// The journals that the desk gave to jobs, in their order.
    pub journals: Vec<K::Journal>,
}

impl<K: Desk> Drop for Ended<K> {
    fn drop(self) {
        let Ended {
            status: _,
            config: _,
            last: _,
            tunnel: _,
            unused: _,
            wire: _,
            inlet: _,
            moment: _,
            journals: _,
        } = self;
    }
}

/// Runs the program. `words` are the words after its name.
pub fn satip<R: Threads + Wait + Sync, K: Desk, I: Source, O: Sink, E: Sink>(
    rt: &R,
    alloc: Global,
    words: &[Text],
    input: &mut I,
    output: &mut O,
    errors: &mut E,
    desk: &mut K,
) -> Ended<K>
    requires new { (K.desk desk.old).given ≡ None }
    requires client { (K.desk desk.old).handed ≡ nothing_handed }

    // The outcome of a command or a service, the requests to the desk, what comes back, and the
    // meaning of the status.
    ensures ends { RunEnds
        (record {
          input = I.tells;
          output = O.tells;
          errors = E.tells;
          config = K.Config.tells;
          conn = K.Doors.Conn.tells;
          outlet = K.Outlet.tells;
          journal = K.Journal.tells;
          wire = K.Wire.tells;
          inlet = K.Inlet.tells;
        })
        (asked_of words.now)
        (K.desk desk.old) (K.desk desk.new)
        (streams I.feed O.drain E.drain input.old output.old errors.old)
        (streams I.feed O.drain E.drain input.new output.new errors.new)
        (ended_view K.Config.feed
        (jobs_view K.Doors.hall K.Outlet.outbox K.Store.shelf K.Clock.dial)
        (left_of K.Wire.line K.Moment.dial K.Inlet.inbox)
        (journals_view K.Journal.job K.Journal.drain) result) }

    // A command that asks nothing of the desk leaves the desk itself as it was.
    ensures nothing { serving_of words.now ≡ None → config_named (command_of words.now) ≡ None
        → recording_in (command_of words.now) ≡ None → desk.new ≡ desk.old }

    // If the jobs of a server end well and doors end by their limit alone, the doors of each worker
    // are at it, also if a journal failed.
    ensures at_limit { (name : List ℕ) (accepts : ℕ)
        → serving_of words.now ≡ Some (Serve name accepts)
        → IfSome result.last (λ last. EndsAtLimit K.Doors.by_limit
        (jobs_view K.Doors.hall K.Outlet.outbox K.Store.shelf K.Clock.dial last.jobs).workers
        result.status) }
    ensures journals_at_limit { (name : List ℕ) (accepts : ℕ)
        → serving_of words.now ≡ Some (Journal name accepts)
        → IfSome result.last (λ last. EndsAtLimit K.Doors.by_limit
        (jobs_view K.Doors.hall K.Outlet.outbox K.Store.shelf K.Clock.dial last.jobs).workers
        (status_of_jobs result.status)) }
    ensures tunnel_at_limit { (name : List ℕ) (accepts : ℕ)
        → serving_of words.now ≡ Some (Tunnel name accepts)
        → IfSome result.tunnel (λ last. EndsAtLimit K.Doors.by_limit
        (jobs_view K.Doors.hall K.Outlet.outbox K.Store.shelf K.Clock.dial last.jobs).workers
        result.status) }
{
    match read_service(words) {
        Some(Service::Serve { name, accepts }) => {
            run_serve(rt, alloc, name, accepts, errors, desk)
        }
        Some(Service::Tunnel { name, accepts }) => {
            run_tunnel(rt, alloc, name, accepts, errors, desk)
        }
        Some(Service::Journal { name, accepts }) => {
            run_journal(rt, alloc, name, accepts, errors, desk)
        }
        None => offline(alloc, words, input, output, errors, desk),
    }
}

// Serves with journals, and logs the end.
fn run_journal<R: Threads + Wait + Sync, K: Desk, E: Sink>(
    rt: &R,
    alloc: Global,
    name: &Text,
    accepts: u32,
    errors: &mut E,
    desk: &mut K,
) -> Ended<K>
    requires new { (K.desk desk.old).given ≡ None }
    ensures texts { (K.desk desk.new).text ≡ (K.desk desk.old).text }
    ensures handed { (K.desk desk.new).handed ≡ (K.desk desk.old).handed }
    ensures ends { JournalEnds
        (journal_tells K.Config.tells K.Doors.Conn.tells K.Outlet.tells K.Journal.tells E.tells)
        accepts name.now (K.desk desk.old) (K.desk desk.new)
        (E.drain errors.old) (E.drain errors.new)
        (journal_left (serving_left K.Config.feed
        (jobs_view K.Doors.hall K.Outlet.outbox K.Store.shelf K.Clock.dial)
        result.config result.last result.unused result.status)
        (journals_view K.Journal.job K.Journal.drain result.journals.items)) }
    ensures at_limit { IfSome result.last (λ last. EndsAtLimit K.Doors.by_limit
        (jobs_view K.Doors.hall K.Outlet.outbox K.Store.shelf K.Clock.dial last.jobs).workers
        (status_of_jobs result.status)) }
    ensures of_journal { IsOfJournal result.status }
    ensures no_tunnel { result.tunnel ≡ None }
    ensures input_fault { result.status ≡ 5 → Rose (K.desk desk.old).faults (K.desk desk.new).faults
        ⊎ IsSomeAnd (option_map K.Config.feed result.config) (λ source. Rose 0 source.faults) }
    ensures no_client { (result.wire ≡ None) × (result.inlet ≡ None) × (result.moment ≡ None) }
    ensures logs { Logs E.tells (E.drain errors.old) (E.drain errors.new) result.status }
{
    let Journaled {
        end,
        config,
        last,
        unused,
        journals,
    } = journal_by(rt, alloc, name, accepts, errors, desk);
    Ended {
        status: end.outcome().status(),
        config,
        last,
        tunnel: None,
        unused,
        wire: None,
        inlet: None,
        moment: None,
        journals,
    }
}

// Serves, and logs the end.
fn run_serve<R: Threads + Wait + Sync, K: Desk, E: Sink>(
    rt: &R,
    alloc: Global,
    name: &Text,
    accepts: u32,
    errors: &mut E,
    desk: &mut K,
) -> Ended<K>
    requires new { (K.desk desk.old).given ≡ None }
    ensures texts { (K.desk desk.new).text ≡ (K.desk desk.old).text }
    ensures ends { Serves (serve_tells K.Config.tells K.Doors.Conn.tells K.Outlet.tells)
        (λ fault. Says E.tells
        (E.drain errors.old) (E.drain errors.new)
        (configuration_line fault))
        accepts name.now (K.desk desk.old) (K.desk desk.new)
        (serving_left K.Config.feed
        (jobs_view K.Doors.hall K.Outlet.outbox K.Store.shelf K.Clock.dial)
        result.config result.last result.unused result.status) }
    ensures at_limit { IfSome result.last (λ last. EndsAtLimit K.Doors.by_limit
        (jobs_view K.Doors.hall K.Outlet.outbox K.Store.shelf K.Clock.dial last.jobs).workers
        result.status) }
    ensures handed { (K.desk desk.new).handed ≡ (K.desk desk.old).handed }
    ensures journaled { (K.desk desk.new).journaled ≡ (K.desk desk.old).journaled }
    ensures no_client { (result.wire ≡ None) × (result.inlet ≡ None) × (result.moment ≡ None) }
    ensures no_journals { result.journals.items ≡ [] }
    ensures no_tunnel { result.tunnel ≡ None }
    ensures logs { Logs E.tells (E.drain errors.old) (E.drain errors.new) result.status }
{
    let Served {
        end,
        config,
        last,
        unused,
    } = serve_by(rt, alloc, name, accepts, desk);
    let outcome = end.outcome();
    outcome.tell(errors);
    Ended {
        status: outcome.status(),
        config,
        last,
        tunnel: None,
        unused,
        wire: None,
        inlet: None,
        moment: None,
        journals: Vec::new(alloc),
    }
}

// Serves through a tunnel, and logs the end.
fn run_tunnel<R: Threads + Wait + Sync, K: Desk, E: Sink>(
    rt: &R,
    alloc: Global,
    name: &Text,
    accepts: u32,
    errors: &mut E,
    desk: &mut K,
) -> Ended<K>
    requires new { (K.desk desk.old).given ≡ None }
    ensures texts { (K.desk desk.new).text ≡ (K.desk desk.old).text }
    ensures ends { Tunnels (tunnel_tells K.Config.tells K.Doors.Conn.tells)
        (λ fault. Says E.tells
        (E.drain errors.old) (E.drain errors.new)
        (configuration_line fault))
        accepts name.now (K.desk desk.old) (K.desk desk.new)
        (tunnel_left K.Config.feed
        (jobs_view K.Doors.hall K.Outlet.outbox K.Store.shelf K.Clock.dial)
        result.config result.tunnel result.unused result.status) }
    ensures at_limit { IfSome result.tunnel (λ last. EndsAtLimit K.Doors.by_limit
        (jobs_view K.Doors.hall K.Outlet.outbox K.Store.shelf K.Clock.dial last.jobs).workers
        result.status) }
    ensures handed { (K.desk desk.new).handed ≡ (K.desk desk.old).handed }
    ensures journaled { (K.desk desk.new).journaled ≡ (K.desk desk.old).journaled }
    ensures no_client { (result.wire ≡ None) × (result.inlet ≡ None) × (result.moment ≡ None) }
    ensures no_journals { result.journals.items ≡ [] }
    ensures no_last { result.last ≡ None }
    ensures logs { Logs E.tells (E.drain errors.old) (E.drain errors.new) result.status }
{
    let Tunneled {
        end,
        config,
        last,
        unused,
    } = tunnel_by(rt, alloc, name, accepts, desk);
    let outcome = end.outcome();
    outcome.tell(errors);
    Ended {
        status: outcome.status(),
        config,
        last: None,
        tunnel: last,
        unused,
        wire: None,
        inlet: None,
        moment: None,
        journals: Vec::new(alloc),
    }
}

/// Runs a command that waits for no client: `talk`, `replay`, `stress`, `audit`, `record`, `--help`
/// and `--version`. It always returns. The words of a service are an unknown command line here.
pub fn offline<K: Desk, I: Source, O: Sink, E: Sink>(
    alloc: Global,
    words: &[Text],
    input: &mut I,
    output: &mut O,
    errors: &mut E,
    desk: &mut K,
) -> Ended<K>
    requires client { (K.desk desk.old).handed ≡ nothing_handed }

    // The same as for `satip` if the words ask for no service.
    ensures ends { RunEnds
        (record {
          input = I.tells;
          output = O.tells;
          errors = E.tells;
          config = K.Config.tells;
          conn = K.Doors.Conn.tells;
          outlet = K.Outlet.tells;
          journal = K.Journal.tells;
          wire = K.Wire.tells;
          inlet = K.Inlet.tells;
        })
        (asked_offline words.now)
        (K.desk desk.old) (K.desk desk.new)
        (streams I.feed O.drain E.drain input.old output.old errors.old)
        (streams I.feed O.drain E.drain input.new output.new errors.new)
        (ended_view K.Config.feed
        (jobs_view K.Doors.hall K.Outlet.outbox K.Store.shelf K.Clock.dial)
        (left_of K.Wire.line K.Moment.dial K.Inlet.inbox)
        (journals_view K.Journal.job K.Journal.drain) result) }
    ensures nothing { config_named (command_of words.now) ≡ None
        → recording_in (command_of words.now) ≡ None → desk.new ≡ desk.old }
{
    match read_words(words) {
        None => {
            say(USAGE, errors);
            without_jobs(alloc, 2, None)
        }
        Some(Command::Talk) => {
            let outcome = talk(alloc, input, output, errors);
            without_jobs(alloc, outcome.status(), None)
        }
        Some(Command::Replay(name)) => {
            let Batched { outcome, config } = run_batch(
                &ReplayCommand,
                alloc,
                name,
                input,
                output,
                errors,
                desk,
            );
            without_jobs(alloc, outcome.status(), config)
        }
        Some(Command::Stress { seed, count }) => {
            let outcome = stress_by(alloc, seed, count, output, errors);
            without_jobs(alloc, outcome.status(), None)
        }
        Some(Command::Audit(name)) => {
            let Batched { outcome, config } = run_batch(
                &AuditCommand,
                alloc,
                name,
                input,
                output,
                errors,
                desk,
            );
            without_jobs(alloc, outcome.status(), config)
        }
        Some(Command::Record(recording)) => {
            let Recorded {
                outcome,
                wire,
                inlet,
                moment,
            } = record(alloc, &recording, output, errors, desk);
            with_client(alloc, outcome.status(), wire, inlet, moment)
        }
        Some(Command::Help) => {
            let outcome = show(HELP, output, errors);
            without_jobs(alloc, outcome.status(), None)
        }
        Some(Command::Version) => {
            let outcome = show(VERSION, output, errors);
            without_jobs(alloc, outcome.status(), None)
        }
    }
}

// Returns the end of a run that has no jobs and no client.
fn without_jobs<K: Desk>(alloc: Global, status: u8, config: Option<K::Config>) -> Ended<K>
    ensures ended { ended_view K.Config.feed
        (jobs_view K.Doors.hall K.Outlet.outbox K.Store.shelf K.Clock.dial)
        (left_of K.Wire.line K.Moment.dial K.Inlet.inbox)
        (journals_view K.Journal.job K.Journal.drain) result
        ≡ ended_alone (option_map K.Config.feed config) status }
{
    Ended {
        status,
        config,
        last: None,
        tunnel: None,
        unused: None,
        wire: None,
        inlet: None,
        moment: None,
        journals: Vec::new(alloc),
    }
}

// Returns the end of a recording.
fn with_client<K: Desk>(
    alloc: Global,
    status: u8,
    wire: Option<K::Wire>,
    inlet: Option<K::Inlet>,
    moment: Option<K::Moment>,
) -> Ended<K>
    ensures ended { ended_view K.Config.feed
        (jobs_view K.Doors.hall K.Outlet.outbox K.Store.shelf K.Clock.dial)
        (left_of K.Wire.line K.Moment.dial K.Inlet.inbox)
        (journals_view K.Journal.job K.Journal.drain) result
        ≡ ended_recording (left_of K.Wire.line K.Moment.dial K.Inlet.inbox wire moment inlet)
        status }
{
    Ended {
        status,
        config: None,
        last: None,
        tunnel: None,
        unused: None,
        wire,
        inlet,
        moment,
        journals: Vec::new(alloc),
    }
}

// Writes a text, and logs if the output failed.
fn show<O: Sink, E: Sink>(text: &[u8], output: &mut O, errors: &mut E) -> Outcome
    ensures shows { IsShown O.tells
        (O.drain output.old) (O.drain output.new)
        text.now (status_of result) }
    ensures says { Says E.tells
        (E.drain errors.old) (E.drain errors.new)
        (line_of result) }
{
    match output.put(text) {
        Put::Whole => Outcome::Done,
        Put::Failed => {
            Outcome::OutputFault.tell(errors);
            Outcome::OutputFault
        }
    }
}

//! The desk: opens the files that words name, and makes the kits of a server's jobs.

ghost use Rattle.std.specs.Prelude.{◌≡◌, [], ◌∷◌, ◌++◌, Some, None, true, false, length, IfOk, IfErr, OnOk, OnErr};
ghost use Rattle.satip_base.specs.Streams.{fresh_drain};
ghost use Rattle.satip_world.specs.Counts.{Rises};
ghost use Rattle.satip_desk.specs.Views.{DeskView, jobs_view};
ghost use Rattle.satip_desk.specs.Fresh.{AreFresh};
ghost use Rattle.satip_desk.specs.Desks.{FailsFor};
ghost use Rattle.satip_world.specs.Inboxes.{fresh_inbox};
ghost use Rattle.satip_world.specs.Lines.{fresh_line};

use crate::journals::JobSink;
use crate::kits::{Devices, Jobs};
use satip_base::{Address, Failed, Source, Text};
use satip_tune::Config;
use satip_world::{Clock, Conn, Inlet};
use std::alloc::Global;

/// Why a desk gives no kits.
#[derive(Clone, Copy, Debug, PartialEq, Eq)]
pub enum JobsFault {
    /// The desk failed.
    Failed,
    /// Out of memory.
    Want,
}

/// Opens configurations by their names, and makes the kits of a server's jobs, once. Gives a client
/// a connection, an inlet and a clock, each once, and the jobs of a server their journals.
pub trait Desk: Devices {
    ghost use Rattle.satip_world.specs.Recordings.{IsStarted};

    /// The source from which a configuration is read.
    type Config: Source + Drop;

    /// A client's connection to a server.
    type Wire: Conn + Drop;

    /// The port at which a client receives datagrams.
    type Inlet: Inlet + Drop;

    /// A client's source of the time.
    type Moment: Clock + Drop;

    /// The sink to which a job's journal is written.
    type Journal: JobSink + Drop + Send;

    // The desk, as contracts see it.
    ghost desk: { Self → DeskView };

    /// Opens the configuration of a name, from its beginning.
    fn config(&mut self, name: &Text) -> Result<Self::Config, Failed>
        ensures texts { (desk self.new).text ≡ (desk self.old).text }
        ensures kits { (desk self.new).given ≡ (desk self.old).given }
        ensures handed { (desk self.new).handed ≡ (desk self.old).handed }
        ensures journaled { (desk self.new).journaled ≡ (desk self.old).journaled }
        ensures started { IfOk result (λ source. IsStarted Self.Config.tells
            (Self.Config.feed source)
            ((desk self.old).text name.now)) }
        ensures untaken { IfOk result (λ source. (Self.Config.feed source).taken ≡ 0) }
        ensures no_fault { IfOk result (λ _. (desk self.new).faults ≡ (desk self.old).faults) }
        ensures failed { OnErr result (Rises (desk self.old).faults (desk self.new).faults) };

    /// Makes a kit for each worker of the configuration, one for the pump of each of its front
    /// ends, and one for the ticker. The kits are unused. Each worker's doors end after `accepts`
    /// connections, never if it is 0.
    fn jobs(
        &mut self,
        alloc: Global,
        config: &Config,
        accepts: u32,
    ) -> Result<Jobs<Self>, JobsFault>
        requires { (desk self.old).given ≡ None }
        ensures texts { (desk self.new).text ≡ (desk self.old).text }
        ensures handed { (desk self.new).handed ≡ (desk self.old).handed }
        ensures journaled { (desk self.new).journaled ≡ (desk self.old).journaled }
        ensures kits { IfOk result (λ jobs. (desk self.new).given
            ≡ Some (jobs_view Self.Doors.hall Self.Outlet.outbox
            Self.Store.shelf Self.Clock.dial jobs)) }
        ensures kept { OnErr result ((desk self.new).given ≡ None) }
        ensures workers { IfOk result (λ jobs. length jobs.workers.items ≡ config.now.workers) }
        ensures pumps { IfOk result (λ jobs. length jobs.pumps.items ≡ length config.now.fronts) }
        ensures fresh { IfOk result (λ jobs. AreFresh accepts (jobs_view
            Self.Doors.hall Self.Outlet.outbox Self.Store.shelf Self.Clock.dial jobs)) }
        ensures no_fault { IfOk result (λ _. (desk self.new).faults ≡ (desk self.old).faults) }
        ensures failed { IfErr result (FailsFor (desk self.old).faults (desk self.new).faults) };

    /// Opens a connection to a server, on which nothing was received or sent.
    fn dial(&mut self, to: Address) -> Result<Self::Wire, Failed>
        requires { (desk self.old).handed.wire ≡ None }
        ensures texts { (desk self.new).text ≡ (desk self.old).text }
        ensures kits { (desk self.new).given ≡ (desk self.old).given }
        ensures journaled { (desk self.new).journaled ≡ (desk self.old).journaled }
        ensures wire { IfOk result (λ wire. Self.Wire.line wire ≡ fresh_line) }
        ensures handed { OnOk result ((desk self.new).handed
            ≡ record (desk self.old).handed { wire = Some to }) }
        ensures kept { OnErr result ((desk self.new).handed ≡ (desk self.old).handed) }
        ensures no_fault { OnOk result ((desk self.new).faults ≡ (desk self.old).faults) }
        ensures failed { OnErr result (Rises (desk self.old).faults (desk self.new).faults) };

    /// Opens an inlet that has received nothing.
    fn inlet(&mut self) -> Result<Self::Inlet, Failed>
        requires { (desk self.old).handed.inlet ≡ false }
        ensures texts { (desk self.new).text ≡ (desk self.old).text }
        ensures kits { (desk self.new).given ≡ (desk self.old).given }
        ensures journaled { (desk self.new).journaled ≡ (desk self.old).journaled }
        ensures inlet { IfOk result (λ inlet. Self.Inlet.inbox inlet
            ≡ fresh_inbox (Self.Inlet.inbox inlet).port) }
        ensures handed { OnOk result ((desk self.new).handed
            ≡ record (desk self.old).handed { inlet = true }) }
        ensures kept { OnErr result ((desk self.new).handed ≡ (desk self.old).handed) }
        ensures no_fault { OnOk result ((desk self.new).faults ≡ (desk self.old).faults) }
        ensures failed { OnErr result (Rises (desk self.old).faults (desk self.new).faults) };

    /// Gives a clock without a reading.
    fn moment(&mut self) -> Self::Moment
        requires { (desk self.old).handed.moment ≡ false }
        ensures texts { (desk self.new).text ≡ (desk self.old).text }
        ensures kits { (desk self.new).given ≡ (desk self.old).given }
        ensures journaled { (desk self.new).journaled ≡ (desk self.old).journaled }
        ensures unread { (Self.Moment.dial result).readings ≡ [] }
        ensures handed { (desk self.new).handed ≡ record (desk self.old).handed { moment = true } }
        ensures no_fault { (desk self.new).faults ≡ (desk self.old).faults };

    /// Opens the journal of a job, to which nothing was sent.
    fn journal(&mut self, job: u64) -> Result<Self::Journal, Failed>
        ensures texts { (desk self.new).text ≡ (desk self.old).text }
        ensures kits { (desk self.new).given ≡ (desk self.old).given }
        ensures handed { (desk self.new).handed ≡ (desk self.old).handed }
        ensures sink { IfOk result (λ sink. Self.Journal.drain sink ≡ fresh_drain) }
        ensures of_job { IfOk result (λ sink. Self.Journal.job sink ≡ job) }
        ensures journaled { OnOk result ((desk self.new).journaled
            ≡ (desk self.old).journaled ++ job ∷ []) }
        ensures kept { OnErr result ((desk self.new).journaled ≡ (desk self.old).journaled) }
        ensures no_fault { OnOk result ((desk self.new).faults ≡ (desk self.old).faults) }
        ensures failed { OnErr result (Rises (desk self.old).faults (desk self.new).faults) };
}

//! The command `audit`, over a configuration that the desk opens.

ghost use Rattle.satip_audit.specs.Ends.{AuditOutcome, IsEndOf};

use crate::auditing::audit;
use satip_base::{Sink, Source};
use satip_config::Outcome;
use satip_replay::Batch;
use std::alloc::Global;

/// The command `audit`: judges the journals on the input, and writes the verdict in one line.
#[derive(Clone, Copy)]
pub struct AuditCommand;

impl Batch for AuditCommand {
    ghost outcome = { AuditOutcome };

    ghost allows = { IsEndOf };

    fn run<C: Source, I: Source, O: Sink>(
        &self,
        alloc: Global,
        config: &mut C,
        input: &mut I,
        output: &mut O,
    ) -> Outcome {
        audit(alloc, config, input, output)
    }
}

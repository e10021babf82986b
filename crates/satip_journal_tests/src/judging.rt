//! The verdict on journals.

use satip_config::Config;
use satip_fixtures::config_with;
use satip_journal_serve::{Verdict, verdict};
use std::alloc::Global;
use std::process::Abort;

/// Returns the verdict on journals without a wrong line. Their server has these numbers of front
/// ends and workers, and no multiplex.
pub(crate) fn judged(
    rt: &impl Abort,
    alloc: Global,
    fronts: u16,
    workers: u16,
    text: &mut [u8],
) -> Verdict {
    assert!(rt; fronts <= 16);
    assert!(rt; text.len() < 100_000_000, "{} bytes", text.len());
    let Ok(config) = config_with(alloc, fronts, &[]) else {
        panic!(rt; "out of memory");
    };
    let config = Config { workers, ..config };
    verdict(alloc, config, text).expect(rt, "journals without a wrong line")
}

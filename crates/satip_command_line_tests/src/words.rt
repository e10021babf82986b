//! The help of the command line.

use crate::checks::check;
use crate::runs::{Ran, run};
use satip_memory::MemorySource;
use satip_memory_desk::MemoryDesk;
use std::alloc::Global;
use std::process::Abort;

const USAGE: &[u8] =
    b"usage: satip talk | replay CONFIG | serve CONFIG ACCEPTS | stress SEED COUNT \
    | tunnel CONFIG ACCEPTS | journal CONFIG ACCEPTS | audit CONFIG | record ADDRESS QUERY COUNT\n";

// Runs the program for its help.
fn help(rt: &impl Abort, alloc: Global) -> Ran {
    let input = MemorySource::make(alloc, b"", &[], &[]).expect(rt, "out of memory");
    let mut desk = MemoryDesk::make(alloc, 0);
    run(rt, alloc, &["--help"], input, &[], 0, &mut desk)
}

#[test]
fn help_begins_with_the_usage(rt: HostRuntime) {
    let help = help(&rt, rt.alloc());
    check(&rt, "status", help.status, 0);
    check(&rt, "errors", help.errors(), b"".as_slice());
    check(&rt, "output", help.output().get(..USAGE.len()), Some(USAGE));
}

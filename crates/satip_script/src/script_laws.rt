//! Laws of all lines, scripts and runs. Each function does nothing; its contract is the law.
ghost use Rattle.satip_script.specs.Laws.{OneLine, OneScript, OneRun, RunGrows};

/// States that each line is exactly one of these: skipped, an event, wrong.
pub fn one_line()
    ensures law { OneLine }
{}

/// States that each text is either the script of one list of events, or has one first wrong line.
pub fn one_script()
    ensures law { OneScript }
{}

/// States that the run of events is the only legal history in which caller 0 submits them.
pub fn one_run()
    ensures law { OneRun }
{}

/// States that one more event adds its entry to the run, and one more entry its lines to the
/// printed run.
pub fn run_grows()
    ensures law { RunGrows }
{}

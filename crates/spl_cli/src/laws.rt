// What the contract of `run` comes to.
ghost use Rattle.spl_cli.specs.Correct.{OneReport, RunChecks, RunDecides, RunIsQuiet};
ghost use Rattle.spl_cli.specs.Finish.{source_state, sink_state};

use spl_outside::outside::{Sink, Source};

/// The main theorem of the program, as far as it is built: for each table text `decide` writes evidence whose claim
/// holds, a failed law, a central element, a proper ideal or a ramified place, so that no matrices split the algebra; or,
/// only where orders are their own duals at all places, that no part decides it yet. An input with a fault is refused
/// with its first one.
pub fn run_decides()
    ensures { RunDecides }
{}

/// For every table and evidence that are accepted, within the limit, `check` says yes exactly where the claim of the
/// evidence holds, and else the number of its first condition that fails; an input with a fault is refused with its
/// first one, those of the table before those of the evidence.
pub fn run_checks()
    ensures { RunChecks }
{}

/// Words and an input have one status, and one text but for the evidence that `decide` writes: so no claim both holds and
/// fails. One case is left open: a table text for which `decide` may write a ramified place, or that no part decides
/// it.
pub fn one_report()
    ensures { OneReport }
{}

/// Over a source no call of which fails there is no read fault, and over a sink with room for each report, and no call
/// of which fails for another cause, no write fault.
pub fn run_is_quiet<S: Source, K: Sink>()
    ensures { RunIsQuiet (source_state S.left S.faults S.steady) (sink_state K.written K.faults K.steady) }
{}

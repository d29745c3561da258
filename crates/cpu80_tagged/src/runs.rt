// Runs of a program.
ghost use Rattle.cpu80_tagged.specs.Calls.{CallsGiveRuns};

/// A law: any calls of `step` and `reply` on a machine give the run of its program over the replies that it took. It
/// computes nothing.
pub fn calls_give_runs()
    ensures { CallsGiveRuns }
{}

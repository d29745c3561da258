// What holds of runs.
ghost use Rattle.cpu86.specs.Histories.{CallsGiveRuns};

/// A law: any calls of `step` and `reply` on a machine at the start of an image give the run of the image over the replies
/// that it took. It computes nothing.
pub fn calls_give_runs()
    ensures { CallsGiveRuns }
{}

// What holds of runs of the untagged 8080.
ghost use Rattle.cpu80.specs.Follows.{PlainFollows, FetchFollows};
ghost use Rattle.cpu80.specs.Histories.{CallsGiveRuns};

use dialogue::who_sees_more_asks_the_same;

/// A law: any calls of `step` and `reply` on a machine, from whatever state it began in and whatever its instructions are taken
/// from, give its run over the replies that it took. It computes nothing.
pub fn calls_give_runs()
    ensures { CallsGiveRuns }
{}

/// A law, of every program, start page, fill of memory, list of choices, list of replies of bytes, and number of turns: where the
/// tagged machine's run has stayed in the profile, the untagged 8080 has the same dialogue and has not stopped.
pub fn plain_follows()
    ensures { PlainFollows }
{
    fetches_follow();
}

/// A law of every untagged 8080, wherever it takes its instructions from, as the bytes of memory: where the tagged machine's run has
/// stayed in the profile, no cell of an instruction has changed, and what takes the program's instructions while this is so has the
/// same dialogue and has not stopped.
pub fn fetches_follow()
    ensures { FetchFollows }
{
    who_sees_more_asks_the_same();
}

// Definitions: what the outcome of a block means for runs of the two machines (`BlocksRun80`, `WalksRun86`, `RuntimesRun86`), the
// simulation relation (`Linked`, and `Paired`: linked, or both ended, or both waiting), when a text matches its program (`Matches`: its
// opening, the runtime, the data and each block of a cut) or what is found of it (`Finds`), and `Same`, of which the headline speaks.
//
// Laws of a program's blocks and needs, as the simulation wants them: `blocks_may_run` (each block has 1 to 16 instructions, of which the
// last alone may end it), `blocks_are_cuts` (control comes to a block at its first instruction alone) and `needs_return` (what is needed at
// a block whose leader is taken is needed at a return).
#![tactic(auto)]

ghost use Rattle.simulation_def.specs.BlockRuns.{BlocksMayRun};
ghost use Rattle.simulation_def.specs.BlockCuts.{BlocksAreCuts, NeedsReturn};

use flow::{blocks_cut_the_program, needs_are_closed};

/// A law: a block of a program's cut is one to be run: 1 to 16 instructions, of which the last alone may end it.
pub fn blocks_may_run()
    ensures { BlocksMayRun }
{
    blocks_cut_the_program();
}

/// A law: control comes to a program's blocks at their first instructions alone.
pub fn blocks_are_cuts()
    ensures { BlocksAreCuts }
{
    blocks_cut_the_program();
    blocks_may_run();
}

/// A law: what is needed at a block whose leader is taken is needed at a return.
pub fn needs_return()
    ensures { NeedsReturn }
{
    needs_are_closed();
}

// Laws alone: the symbolic execution of a block is sound for the small-step semantics of either machine.
//
// `sound_80`: from each state of the tagged 8080 at the first instruction of a block, one of its turns leaves the profile, or the block
// runs: its steps go on but for the last, in which alone an event may join the dialogue and which answers by the way that the exit takes;
// memory is the first memory after the actions in their order; each part and SP have the values that their terms have under what the block
// began with and has loaded. `sound_86`: where the walk of a text has an outcome, the 8086 does it, from each state at the block's label
// with SS equal to DS, by whatever choices; each statement that is walked is one step, at least one and at most 10 for each instruction of
// the block (clause `walks`); and what the eleven statements of the runtime do from X_SYS and X_END (clause `runtime`). Lemmas compute
// (`proofs/Examples`): the first block of a file copier on the machine beside its outcome; DAD with a save, PUSH PSW and POP PSW, and a
// conditional call of the system, from states with unknown flags.
#![tactic(auto)]

ghost use Rattle.simulation_def.specs.Runs80.{BlocksRun80};
ghost use Rattle.simulation_def.specs.Runs86.{WalksRun86};
ghost use Rattle.simulation_def.specs.Runtime.{RuntimesRun86};

use sym_block_def::steps_keep_sorts;
use sym_terms::{made_terms_have_sorts, made_terms_keep_values};

/// A law: from each state at a block's first instruction, the tagged 8080 leaves the profile within the block, or it runs the block,
/// and the terms of the block's outcome have the values of the state that it comes to.
pub fn sound_80()
    ensures { BlocksRun80 }
{
    made_terms_keep_values();
    made_terms_have_sorts();
    steps_keep_sorts();
}

/// A law: from each state at a block's label, the 8086 takes the steps of the walk that begins there, and the terms of the walk's
/// outcome have the values of the state that it comes to, whatever the choices give; and what the runtime of a text does at its two
/// labels.
pub fn sound_86()
    ensures walks { WalksRun86 }
    ensures runtime { RuntimesRun86 }
{
    made_terms_keep_values();
    made_terms_have_sorts();
    steps_keep_sorts();
}

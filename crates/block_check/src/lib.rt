// The checker of one basic block: whether what a text does at the block's label matches what the block does (translation validation of a
// block).
//
// Proved: `check` answers exactly what `block_reason` has of the walk through the text at the block's label (clause `verdict`): `Shown`
// where there is no reason, or `NotShown` with the first one, with the parts kept that are needed where each block begins and at a return
// (`needed_by`, over paths). `check_all_kept` is that of one instruction with all parts kept after it, and none at a return of a program
// that takes no place. Both reset the work first and take no memory; after `Shown` the work's outcomes stand for `block80` of the block and
// `walk86` of the text (clause `outcomes`), and after `check` they do wherever the walk came to an outcome (`compared`).
#![tactic(auto)]

mod actions;
mod asked;
mod block;
mod exits;
mod kept;
mod outcomes;
mod pairs;

pub use actions::action_agrees;
pub use block::{Verdict, check, check_all_kept};
pub use sym_run::{Index86, Reason, Work};

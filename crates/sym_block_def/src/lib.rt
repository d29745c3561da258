// Definitions: the symbolic execution of a basic block, on both sides, as two outcomes of actions (loads and stores), terms and an exit:
// `block80` for the instructions of the 8080, `walk86` for what a text does at the block's label; and what terms are to stand for on either
// machine (`Stands`). When two terms agree (`agrees`), and when what a text does at a block's label matches what the block does, as far as
// some parts are kept; else the first reason why not (`block_reason`). The field calls such a check translation validation; what is proved
// of it stands in `sym_run`, `block_check` and `simulation_law`.
//
// Law `steps_keep_sorts`: each row of both tables of instructions keeps the sorts of terms, so that each part of an outcome is a made byte
// or flag, and SP and the addresses are made words.
#![tactic(auto)]

mod laws;
mod reason;

pub use laws::steps_keep_sorts;
pub use reason::Reason;

// The symbolic execution of instructions, each as a list of micro-operations: of the 8080's, and of a block of them; of the 8086's.
//
// Proved: a step of either is the definition's effect of the instruction (`effect80`, `effect86`, and `offset` that of `MOV r16,OFFSET`);
// at most 24 nodes and 2 actions join (`GoesOn`). `run_block` and its exit stand for `block80` of the block; at most 24 nodes for each
// instruction and 32 more join, with that much room there is an answer, and without an answer no room is left (`RunsTo`).
#![tactic(auto)]

mod arithmetic80;
mod arithmetic86;
mod block;
mod exits;
mod registers;
mod stack80;
mod stack86;
mod steps80;
mod steps86;

pub use block::run_block;
pub use steps80::step80;
pub use steps86::{offset, step86};

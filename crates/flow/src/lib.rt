// The flow graph of a program: liveness (here called need: which registers and flags a later instruction may still read), by a work list
// that goes backwards, and the basic blocks (1 to 16 instructions).
//
// Proved: `Graph::solve` finds the needs; a step is one visit of one edge, and there are at most 13 for each edge (clause `cost`); all
// memory is taken by `Graph::of`. Then `need` and `need_return` have exactly the parts that are needed (`AreNeeds`, both directions): some
// path comes to an instruction that reads the part, and no earlier one on it gives the part a value; `need` is None exactly where no
// instruction starts. `leaders` and `block` are the blocks of the definition; `saves` has exactly those of S, Z, AC and P that are needed
// after an INX, DCX or DAD (`AreSaves`), None exactly elsewhere. Laws: `needs_are_sets`; `needs_are_closed` (what is needed at a node is
// what it reads, and what is needed after it and gets no value at it, no more); `blocks_cut_the_program` (each instruction is in exactly
// one block, of which the last instruction alone may end it; leaders are 100H, each target, each place that is taken, and each start after
// an instruction that ends a block, after none or after a block, and no other). `place_after` is the address after so many instructions
// of a block. How long the rest takes is not claimed.
#![tactic(auto)]

mod begin;
mod cut;
mod graph;
mod laws;
mod node;
mod places;
mod saving;
mod search;
mod sources;
mod wiring;

pub use graph::Graph;
pub use laws::{blocks_cut_the_program, needs_are_closed};
pub use node::Node;
pub use places::place_after;
pub use saving::{is_word_sum, saves};

// Hash-consing: a pool of nodes that are kept once each, in room that is reserved at the start.
//
// Proved: the nodes are distinct (`AreDistinct`). `Pool::new` takes all its memory. `intern` answers the place of an equal node where there
// is one, and then nothing changes; else the node becomes the last and takes one place of the room; None comes exactly where the node is
// not there and there is no room, and then nothing changes (clause `place`). `node` gives the node of a place, `mark` the length; `reset`
// cuts the list there and gives the room back. That a search is short is not proved.
#![tactic(auto)]

mod node;
mod pool;
mod table;

pub use node::{Id, Mark, Node};
pub use pool::Pool;

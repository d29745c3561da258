// Symbolic runs over a pool: what a block of 8080 instructions does, what the text at its label does, and whether two terms agree.
//
// Proved: `Work` has one pool of 8,192 nodes and room for two outcomes of 512 actions; no call but `new` takes memory. After `run80` the
// first outcome stands for `block80` of the block; after `run86` the second one stands for `walk86` of the text with the parts that `keep`
// gave, or the answer is its reason (`WalkComesTo`); each keeps its meaning when the other is made (`still`). `run80` has room enough after
// `new` or `reset` (`room`), and leaves enough for one `run86` of any block (`leaves`). `agree` is `agrees`: it makes no term, and has no
// loop and no recursion; `number_of` gives the number that a term is. Below it `Index86` has the statements of a text and, by a hash, the
// place after each label (`behind`), and `run_text` comes to `walk86` exactly, or to the reason that the walk meets first (`WalksTo`): at
// most 240 nodes for each instruction of the block and 32 more join, with that much room there is an answer, and without one no room is
// left; where a way of a conditional jump is refused, none joins (`refused` of `two_ways`), since the ends are found first, without terms
// (`both_from`). `walk_end` answers, without terms, the place of the statement at which a walk ends (`stop_in`); law `ends_say_why`: a walk
// that is refused is Missing where the text has no label for it, and else it is refused for what stands there (`reason_of_stop`).
#![tactic(auto)]

mod agreement;
mod around;
mod block;
mod ends;
mod index;
mod known;
mod lasts;
mod seen;
mod stop;
mod walk;
mod work;

pub use ends::End;
pub use index::Index86;
pub use seen::same;
pub use stop::{ends_say_why, walk_end};
pub use sym_block_def::Reason;
pub use sym_micro::{Action, Exit, Way};
pub use walk::run_text;
pub use work::{Outcome, Work};

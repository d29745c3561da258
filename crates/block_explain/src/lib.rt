// Why a block does not match: what of its outcome and of that of the text at its label does not agree, in lines.
//
// Proved: `explain_block` answers None exactly where the block matches, and else the first reason why not (`block_reason`) with its lines
// (`IsSaid`), of which there are none where the walk through the text was refused. `explain_outcomes` answers exactly the lines that
// `Explains` has of the reason and of the two outcomes that the work holds, or gives up for want of memory: both sides of the first load or
// store that does not agree, of the exits, of the part that is kept or of SP; and of the terms that do not agree the smallest pair that
// differs (`Smallest`): as long as both terms are of one operation, with the same numbers, places and parts in it, and exactly one pair of
// their operands is not one term, that pair is taken. Laws: of two terms there is just one such pair (`smallest_pairs_are_one`), and of a
// reason and two outcomes the lines are just these (`explanations_are_one`).
//
// In words (`words`, `action_words`, `exit_words`): `term_words` and its like answer exactly the text that the definitions have of the term,
// action or exit that the ids stand for, or give up for want of memory. A term is said to a depth of six, so that one that is a million
// nodes as a tree is said at once; no clause carries the time.
#![tactic(auto)]

mod apart;
mod block;
mod explain;
mod laws;
mod moves;
mod names;
mod smallest;
mod terms;

pub use block::{Said, explain_block};
pub use explain::explain_outcomes;
pub use laws::{explanations_are_one, smallest_pairs_are_one};
pub use moves::{action_words, exit_words};
pub use names::{label_words, number_words};
pub use terms::term_words;

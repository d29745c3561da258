// Where a run of an accepted program certainly leaves the profile, as far as one block tells it, without running the program: the definition,
// the code that finds these places, and what they mean for runs.
//
// Proved: `leaving` gives exactly the list `leaving` of `Leaving`, block by block, by symbolic execution of what stands before the last
// instruction. A block has at most one of its places, at its last instruction, since the others go on to one another and call no system.
//
// `places_are_left`: from every state of the tagged machine (`IsState80`: cells hold bytes, places that are taken, or EXIT) at the first
// instruction of the block of a listed place, with whatever replies to come and whatever was said before, the run has left the profile
// before it comes to the place; or it stands there after as many turns as the block has instructions before it, and the next turn leaves:
// where the place is sure, always, and for P9 by this rule; where it only may, unless the condition of the jump or call does not hold, or C
// is 0 at a CALL 5. The rule of a place of P1 is the first one that its instruction breaks: P1, or one that the machine looks at before it.
// `runs_keep_states`: while a run from the start goes on, with any page and any replies, its states are such. `places_ascend`: the list
// goes by strictly ascending addresses.
#![tactic(auto)]

mod block;
mod departure;
mod laws;
mod places;

pub use departure::{Certainty, Departure};
pub use laws::{places_are_left, places_ascend, runs_keep_states};
pub use places::leaving;

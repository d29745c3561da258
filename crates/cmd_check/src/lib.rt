// The command `check` (translation validation): reads a source and a text, and says whether the text does what the source does.
//
// Proved: clause `gives` of `check` (`CheckGives`) has each status with its cause; after 0 program and image are `Same`, and the image's
// code is read in one way. No file changes (`files`). Clause `completes` (`CheckCompletes`): where no call of the host fails and both files
// are told and within their limits, the status is that of the one thing that their bytes come to, want of memory aside: the source's
// refusal, else the text's or its image's, else what is found of both; that it is one thing, whichever command reads both, is law
// `checks_have_one_outcome` (`CheckLaws`). Clause `own` (`ShowsOwnText`): of a source and what `translate` writes for it and the same top,
// in either mode, with `--comments` or without, it is 0 there. Of two files alone, for commands that go on from there: `load` reads both to
// a program and a text that has an image (`Loads`), or tells why not (`LoadStops`); `find` answers how many blocks of that text are shown
// (`IsShown`), or what is not (`FindStops`).
#![tactic(auto)]

mod checking;
mod finding;
mod inputs;
mod laws;

pub use checking::check;
pub use finding::find;
pub use inputs::{Loaded, load};
pub use laws::checks_have_one_outcome;

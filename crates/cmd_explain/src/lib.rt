// The command `explain`: reads a source and a text as `check` does, and says before the last line where the text does not match.
//
// Proved: clause `gives` of `explain` (`ExplainGives`) has each status with its cause: those of `check`, and where the text is not shown,
// all lines of one explanation (`Explained`) are said before the last line, or a fault of the host cuts them off and is the status. No file
// changes (`files`). Clause `completes` (`CheckCompletes`): where no call of the host fails and both files are told and within their
// limits, the status is that of the one thing that a check of their bytes comes to, want of memory aside. An explanation names exactly the
// blocks that do not match, ascending, each with its reason (`block_reason`), the lines of its first and last instruction, the line of its
// label in the text, and by the reason the statement at which the walk ended, or what of both sides does not agree (`LinesAre` of
// `block_explain`); or it has the first statement of the opening that is not the one wanted, or the first data cell that does not stand, or
// that the runtime is wanted. Law `texts_are_explained_once`: of a program and a text just one thing is said. All memory is taken before
// the first line is said; no clause carries that.
#![tactic(auto)]

mod block;
mod explaining;
mod frame;
mod laws;
mod lines;
mod telling;

pub use explaining::explain;
pub use laws::texts_are_explained_once;
pub use telling::{Explanation, explain_text};

// Translation and its validation by one name: what a text means for its program.
//
// Proved: `validate` answers what is found of lines with an image (clause `finding`: `IsFinding`), and where they are shown, program and
// image are `Same` (clause `same`). Law `shown_is_same` says it of every program and such lines. Law `own_texts_are_shown`: a program's
// text whose code fits matches the program block by block with what is needed kept, in either mode (`matches`), and the one thing that is
// found of lines with its statements is that all blocks are shown (`shown`). By its name are also `translate`, `own_texts_are_same`,
// `plain_matches_alone`, `validate_in`, `findings_are_one`, `text_reads_back`, `block_is_linked`, `blocks_follow`, `matches_is_same` and
// `saves`.
#![tactic(auto)]

mod laws;
mod validation;

pub use laws::own_texts_are_shown;
pub use templates::{CoreFault, Mode, translate};
pub use templates_law::{
    block_is_linked, blocks_follow, matches_is_same, own_texts_are_same, plain_matches_alone,
    saves, text_reads_back,
};
pub use text_check::{Finding, findings_are_one, validate_in};
pub use validation::{shown_is_same, validate, validate_loaded};

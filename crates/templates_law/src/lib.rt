// Laws alone: what is true of the texts that a program is translated to, first as texts and block by block in any style, then of its own
// text in either mode, plain or lean: that it means what the program does.
//
// Of the text (`text_laws`). `own_text_stands`, of every program and style: the text has the prologue, the runtime and the program's data,
// each byte and each code address at its address, all numbers are in their ranges, and it reads back as its lines (`stands`). Where its
// shortened jumps reach (`JumpsReach`), it assembles exactly where its code has at most 65,535 bytes (`assembles`, `assembles_exactly`),
// and that code is read in one way (`reader`); a longer code is refused for its size alone (`too_large`). `plain_is_a_style`: the text in
// the plain style is the plain text, and it shortens no jump. `lean_jumps_reach`: the jumps that the jump rule shortens reach, whatever is
// needed, though the rule takes its distances in the text whose conditional jumps are all long. `text_reads_back`: the plain text and the
// lean text read back as their lines.
//
// Of its blocks (`match_laws`). Rows: `rows_agree` (symbolic states that agree on what an instruction reads agree after its row and its
// template on what they agreed on before and on what it gives a value; without a save S, Z, AC and P are lost in INX, DCX and DAD),
// `rows_keep_sorts` (numbers are in their ranges, terms stay made and of their sorts), `pairs_may_go` (a SAHF before a saving INX, DCX or
// DAD and the LAHF with which that begins may both go). The walk, in any text: `statements_are_passed` (each by its effect),
// `templates_are_walked` (one to five statements each), `exits_agree` (all ways out of a block, short jumps and `INT 224` among them). The
// plain text: `ones_are_blocks`, `plain_blocks_match` (each instruction alone, with all parts kept). Any style that saves the flags where
// they are needed and calls by `INT 224` only where neither B nor L is needed, whatever else it leaves out: `own_blocks_match`,
// `own_texts_match` (no block has a reason why not); `styles_respect_needs`: the plain and the lean style are such. Examples compute
// (`proofs/Match/Examples`, `proofs/Match/PlainExamples`), one of them a block that its plain text does not match, since XTHL comes where
// half of SP is unknown.
//
// Of both modes (`laws`). `own_texts_are_same`, of every program and mode: its text is one (`one`) and reads back as its lines
// (`reads_back`); where its code fits, these assemble (`assembles`), the image's code is read in one way (`reader`), and program and image
// are `Same` (`same`). `modes_match`: such a text matches the program block by block with what is needed kept; `plain_matches_alone`: the
// plain text also with each instruction alone and all parts kept. `matching_blocks_are_same`: whatever lines with an image match the
// program block by block, with what is needed kept and numbers in their ranges, are `Same` with it. `own_runs_begin_in_step`: a program's
// run is linked with that of its text after at most seven instructions of the 8086, those of the opening, from every start; so the premises
// of the laws of matches and of linked runs can be met (no other crate stands on it).
#![tactic(auto)]

mod laws;
mod match_laws;
mod text_laws;

pub use flow::saves;
pub use laws::{
    matching_blocks_are_same, modes_match, own_runs_begin_in_step, own_texts_are_same,
    plain_matches_alone,
};
pub use match_laws::{
    exits_agree, ones_are_blocks, own_blocks_match, own_texts_match, pairs_may_go,
    plain_blocks_match, rows_agree, rows_keep_sorts, statements_are_passed, styles_respect_needs,
    templates_are_walked,
};
pub use simulation_law::{block_is_linked, blocks_follow, matches_is_same};
pub use text_laws::{lean_jumps_reach, own_text_stands, plain_is_a_style, text_reads_back};

// Statements of an ASM-86 text, the lines that they are written as, and the definition of the image that they assemble to.
//
// Proved: `write_line` gives the written line of each statement, in at most 40 bytes; `code_size` gives the bytes of code of a list of
// lines; `LabelTable` holds the last number that each label was given. Law `cells_are_sorted`: the data cells of an image are those that
// the text fills, each once, in ascending order of addresses; cells that ascend in the text stay as they are.
#![tactic(auto)]

mod label_table;
mod laws;
mod line;
mod line_text;
mod operands;
mod size;
mod write;

pub use label_table::LabelTable;
pub use laws::cells_are_sorted;
pub use line::{Jump, Label, Line86, Stmt86, TextRule, Value16};
pub use line_text::LineText;
pub use size::{code_size, statement_size};
pub use write::write_line;

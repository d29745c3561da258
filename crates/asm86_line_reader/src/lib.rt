// The reader of one line of an ASM-86 text: its statements, or the rule that it breaks.
//
// Proved: `read_line` answers exactly the statements that the definition gives a line (`TextLineGives`), or its rule, M1 or M2, and each
// only where the definition does. Laws: a line gives one thing (`line_has_one_reading`); no statement of a line is a jump or a call with a
// displacement (`lines_name_labels`); the written line of each statement reads back as that statement alone (`written_lines_read_back`).
#![tactic(auto)]

mod bytes;
mod computations;
mod fault;
mod forms;
mod items;
mod letters;
mod line;
mod moves;
mod numbers;
mod operands;
mod ports;
mod token;
mod tokens;
mod words;

pub use fault::LineFault;
pub use line::{line_has_one_reading, lines_name_labels, read_line, written_lines_read_back};
